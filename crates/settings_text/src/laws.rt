//! What the definition of settings implies.
ghost use Rattle.std.specs.Prelude.{◌≡◌, ℕ, ◌+◌, ◌^◌, ◌<◌, ◌≤◌, ◌++◌, List, length, decimal, true, false, Ok};
ghost use Rattle.settings_text.specs.Grammar as grammar;
ghost use Rattle.settings_text.specs.Ids.{is_taken, default_id};
ghost use Rattle.settings_text.specs.Limits.{KeepsLimits};
ghost use Rattle.settings_text.specs.declared.settings.Settings.{Settings};

/// Whatever settings say is within the limits.
pub fn settings_keep_limits()
    ensures { (bytes : List ℕ) (said : Settings) → grammar.settings bytes ≡ Ok said → KeepsLimits said }
{}

/// The id of an operator that has none written isn't taken: it is the type's name, or where that is taken, the name with the
/// least number from 1 on that makes it one that isn't.
pub fn default_ids_are_free()
    ensures free { (name : List ℕ) (taken : List (List ℕ)) → length taken + 2 < 2 ^ 64 → is_taken (default_id name taken) taken ≡ false }
    ensures own { (name : List ℕ) (taken : List (List ℕ)) → is_taken name taken ≡ false → default_id name taken ≡ name }
    ensures numbered { (name : List ℕ) (taken : List (List ℕ)) → length taken + 2 < 2 ^ 64 → is_taken name taken ≡ true
        → (n : ℕ) × (default_id name taken ≡ name ++ decimal n) × (1 ≤ n) × (is_taken (name ++ decimal n) taken ≡ false)
        × ((k : ℕ) → 1 ≤ k → k < n → is_taken (name ++ decimal k) taken ≡ true) }
{}
