// Words: the keys that an object may have, and texts that have a meaning or must pass a test. `at` and `key` name the place.
ghost use Rattle.std.specs.Prelude.{◌≡◌, ◌++◌, ◌||◌, if◌then◌else◌, bytes_eq, false, ℕ, List, Bool, Ok, Err};
ghost use Rattle.std.specs.List.{fold};
ghost use Rattle.std.specs.Map.{lookup};
ghost use Rattle.serde_json.specs.View.{view};
ghost use Rattle.settings_text.specs.Kinds as kinds;
ghost use Rattle.settings_text.specs.Outcome as outcome;
ghost use Rattle.settings_text.specs.Outcome.{Gives};
ghost use Rattle.settings_text.specs.declared.fault.SettingsFault.TheVariants.{OutOfRange};

use crate::fault::SettingsFault;
use crate::kinds::name;
use crate::place::place;
use entry_model::Text;
use serde_json::Value;
use std::alloc::Global;

/// Which words may stand somewhere.
pub trait Words {
    ghost test: { Self → List ℕ → Bool };

    fn has(&self, word: &str) -> bool
        ensures { result ≡ test self.now word.now };
}

/// Whether the name is one of the words.
pub fn is_one_of(name: &str, words: &[&str]) -> bool
    ensures { result ≡ fold (λ found word. found || bytes_eq name.now word.now) false words.now }
{
    let mut found = false;
    for word in words {
        found |= name == *word;
    }
    found
}

/// What the first of the words that is the name means.
pub fn meaning<T: Copy>(words: &[(&str, T)], name: &str) -> Option<T>
    ensures { result ≡ lookup (λ word. bytes_eq name.now word.now) words.now }
{
    for (word, meant) in words {
        if name == *word {
            return Some(*meant);
        }
    }
    None
}

/// What the word that stands at the place means.
pub fn named<T: Copy>(
    alloc: Global,
    value: &Value,
    at: &str,
    key: &str,
    words: &[(&str, T)],
) -> Result<T, SettingsFault>
    ensures { Gives (λ meant. meant) result
        (kinds.name (λ name. lookup (λ word. bytes_eq name word.now) words.now) (at.now ++ key.now) (view value.now)) }
{
    let name = name(alloc, value, at, key)?;
    match meaning(words, name) {
        Some(meant) => Ok(meant),
        None => Err(SettingsFault::OutOfRange {
            key: place(alloc, at, key)?,
        }),
    }
}

/// What the word at a key means, which may be missing.
pub fn named_or<T: Copy>(
    alloc: Global,
    object: &Value,
    at: &str,
    key: &str,
    words: &[(&str, T)],
    default: T,
) -> Result<T, SettingsFault>
    ensures { Gives (λ meant. meant) result
        (kinds.may at.now key.now (kinds.name (λ name. lookup (λ word. bytes_eq name word.now) words.now)) default (view object.now)) }
{
    match object.get(key) {
        Some(value) => named(alloc, value, at, key, words),
        None => Ok(default),
    }
}

/// The text that stands at the place, which must be one of these.
pub fn tested<W: Words>(
    alloc: Global,
    value: &Value,
    at: &str,
    key: &str,
    words: &W,
) -> Result<Text, SettingsFault>
    ensures { Gives (λ text. text) result
        (outcome.◌>>=◌ (kinds.text (at.now ++ key.now) (view value.now))
        (λ text. if W.test words.now text then Ok text else Err (OutOfRange (at.now ++ key.now)))) }
{
    let content = name(alloc, value, at, key)?;
    if words.has(content) {
        Ok(Text::from_str(alloc, content)?)
    } else {
        Err(SettingsFault::OutOfRange {
            key: place(alloc, at, key)?,
        })
    }
}

/// The text at a key that must be there, which must be one of these.
pub fn tested_text<W: Words>(
    alloc: Global,
    object: &Value,
    at: &str,
    key: &str,
    words: &W,
) -> Result<Text, SettingsFault>
    ensures { Gives (λ text. text) result
        (kinds.must at.now key.now
        (λ place d. outcome.◌>>=◌ (kinds.text place d) (λ text. if W.test words.now text then Ok text else Err (OutOfRange place)))
        (view object.now)) }
{
    match object.get(key) {
        Some(value) => tested(alloc, value, at, key, words),
        None => Err(SettingsFault::Missing {
            key: place(alloc, at, key)?,
        }),
    }
}
