//! What the definitions of joining imply.
ghost use Rattle.std.specs.Prelude.{◌≡◌, ℕ, ◌+◌, List, [], ◌++◌, drop, length, Result};
ghost use Rattle.recombine.specs.ByPosition.{IsAlive, Selects, IsHistory};
ghost use Rattle.recombine.specs.Group.{Group};
ghost use Rattle.recombine.specs.Item.{Item};
ghost use Rattle.recombine.specs.Joining.{Joining};
ghost use Rattle.recombine.specs.Positions.{Fate, alive, history, sent_at, open_at_end};
ghost use Rattle.recombine.specs.Recombined.{Arrival, entries_of};
ghost use Rattle.recombine.specs.Restores.{Restores, Answers};
ghost use Rattle.recombine.specs.Rules.{AreSpellable};
ghost use Rattle.recombine.specs.Runs.{groups_after, ended_over, sent_along, items_of, groups_behind, sent_behind};
ghost use Rattle.recombine.specs.Spelling.{groups_spelling};
ghost use Rattle.recombine.specs.Steps.{ended};
ghost use Rattle.state_codec.specs.declared.CodecFault.{CodecFault};

/// The four steps, from no groups, come to what is decided by positions: the same groups are open behind a list of entries, and
/// the same are sent on at each position.
pub fn steps_are_what_positions_say()
    ensures groups { (joining : Joining) (items : List Item) → groups_after joining [] items ≡ open_at_end joining (history joining items) }
    ensures sent { (joining : Joining) (before : List Item) (x : Item) → ended joining (groups_after joining [] before) x ≡ sent_at joining (history joining before) x }
    ensures all { (joining : Joining) (items : List Item) → ended_over joining [] items ≡ sent_along joining [] items }
{}

/// What is alive is exactly what is read off by numbers, and a list of entries has one history.
pub fn positions_are_told()
    ensures alive { (fates : List Fate) → Selects (IsAlive fates) 0 fates (alive fates) }
    ensures history { (joining : Joining) (items : List Item) → IsHistory joining items (history joining items) }
    ensures one { (joining : Joining) (items : List Item) (fates : List Fate) → IsHistory joining items fates → fates ≡ history joining items }
{}

/// Entries behind others are joined as from the groups that those leave open.
pub fn runs_follow_one_another()
    ensures groups { (joining : Joining) (groups : List Group) (front back : List Item) → groups_after joining groups (front ++ back) ≡ groups_after joining (groups_after joining groups front) back }
    ensures sent { (joining : Joining) (groups : List Group) (front back : List Item) → ended_over joining groups (front ++ back)
        ≡ ended_over joining groups front ++ ended_over joining (groups_after joining groups front) back }
{}

/// What a step makes of entries that come is what becomes of those that are taken.
pub fn only_taken_entries_count()
    ensures groups { (joining : Joining) (groups : List Group) (arrivals : List Arrival) → groups_behind joining groups arrivals ≡ groups_after joining groups (items_of joining arrivals) }
    ensures sent { (joining : Joining) (groups : List Group) (arrivals : List Arrival) → sent_behind joining groups arrivals ≡ entries_of joining (ended_over joining groups (items_of joining arrivals)) }
{}

/// No spelling of groups begins another, and groups that stand spelled at a place are restored from it.
pub fn groups_are_told()
    ensures told { (one other : List Group) (x y : List ℕ) → AreSpellable one → AreSpellable other
        → groups_spelling one ++ x ≡ groups_spelling other ++ y → (one ≡ other) × (x ≡ y) }
    ensures restored { (groups : List Group) (bytes rest : List ℕ) (at : ℕ) (answer : Result (List Group × ℕ) CodecFault) → AreSpellable groups
        → drop at bytes ≡ groups_spelling groups ++ rest → Restores bytes at answer → Answers groups (at + length (groups_spelling groups)) answer }
{}
