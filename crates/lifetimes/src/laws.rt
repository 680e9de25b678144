//! What the definitions imply, for those who play scripts. The functions do nothing; their clauses are the laws.
ghost use Rattle.std.specs.Prelude.{◌≡◌, ◌<◌, ℕ, Bool, List, [], length, Option};
ghost use Rattle.checkpoint_store.specs.Limits.{output_limit};
ghost use Rattle.lifetimes.specs.Course.{GoesBy};
ghost use Rattle.lifetimes.specs.Large.{Large};
ghost use Rattle.lifetimes.specs.OneEra.{one_era};
ghost use Rattle.lifetimes.specs.Small.{AreWhole, IsSmall};
ghost use Rattle.lifetimes.specs.Whole.{TakesWhole};
ghost use Rattle.outside.specs.Count.{last_count};
ghost use Rattle.outside.specs.Lawful.{IsLawful};
ghost use Rattle.outside.specs.World.{World};
ghost use Rattle.poll_core.specs.IsSession.{IsSession};
ghost use Rattle.poll_core.specs.Overflows.{Overflows};
ghost use Rattle.poll_core.specs.SessionParts.{checkpoint_of_session, kept_of, limit_of, rules_of_session, stamp_of_session};
ghost use Rattle.poll_core.specs.declared.session.Session.{Session};
ghost use Rattle.standing.specs.Apart.{Apart};
ghost use Rattle.standing.specs.AreRules.{AreRules};
ghost use Rattle.standing.specs.Eras.{AreEras, Eras, texts_of};
ghost use Rattle.standing.specs.Look.{Look};
ghost use Rattle.standing.specs.Marks.{Mark};
ghost use Rattle.standing.specs.Pass.{Pass, Stretch};
ghost use Rattle.standing.specs.Poll.{IsPlainIn, poll_in};
ghost use Rattle.standing.specs.Rows.{Checkpoint};
ghost use Rattle.standing.specs.Stands.{Stands};
ghost use Rattle.standing.specs.Sums.{AreSums, Sums};
ghost use Rattle.standing.specs.Times.{AreBefore};

/// A poll in which no call failed, and in which no other process did a step, takes all files of a small history as a whole.
pub fn a_small_history_is_taken_whole()
    ensures { (eras : Eras) (first : Bool) (stamp : Option ℕ) (stretch : Stretch) (looks : List Look) (before after : Checkpoint)
        (added : List Mark) (pass : Pass (poll_in eras first stamp) stretch looks before after added) (sums : Sums)
        (output : List ℕ) → AreEras eras → IsPlainIn eras first stamp → stretch.faults_after ≡ stretch.faults_before
        → stretch.faults_before < last_count → Apart eras.first.front_size stretch.new → IsLawful stretch.new
        → GoesBy [] stretch.old stretch.new → (stands : Stands eras stretch.old before.rows before.next_id output)
        → AreBefore stamp stands.marks → AreSums (poll_in eras first stamp) stretch looks before after added pass sums
        → IsSmall stretch.new → AreWhole eras stretch.new after.rows }
{}

/// Where lines are taken whole, the output of a session whose settings were never changed gets longer than 2^40 bytes only by
/// the lines of a large history.
pub fn only_a_large_history_fills_an_output()
    ensures { (session : Session) (full : ℕ) (old new : World) (output : List ℕ) → IsSession session
        → session.eras ≡ texts_of (one_era (rules_of_session session)) → AreRules (rules_of_session session)
        → limit_of session ≡ output_limit → Overflows session full old new
        → TakesWhole (rules_of_session session) new.history
        → (stands : Stands (one_era (rules_of_session session)) old.history (checkpoint_of_session session).rows
        (checkpoint_of_session session).next_id output)
        → AreBefore (stamp_of_session session) stands.marks → length output ≡ kept_of session → Large (rules_of_session session) new.history }
{}
