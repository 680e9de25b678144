//! What the definitions imply, for those who open sessions. The functions do nothing; their clauses are the laws.
ghost use Rattle.std.specs.Prelude.{◌≡◌, ◌↔◌, ◌<◌, ◌≤◌, ◌++◌, ℕ, Contains, List, length, Option, None};
ghost use Rattle.checkpoint_journal.specs.JournalOf.{HasJournal, HasCheckpoint, IsBadAt};
ghost use Rattle.checkpoint_journal.specs.declared.journal.Journal.{Journal};
ghost use Rattle.checkpoint_store.specs.declared.Checkpoint.{Checkpoint};
ghost use Rattle.file_pass.specs.Full.{lines_text};
ghost use Rattle.outside.specs.Image.{Image};
ghost use Rattle.outside.specs.Lawful.{IsLawful};
ghost use Rattle.outside.specs.World.{History, World};
ghost use Rattle.outside.specs.declared.disk.DiskFile.{DiskFile};
ghost use Rattle.pipeline.specs.AsRules.{rules_of};
ghost use Rattle.pipeline.specs.declared.Pipeline.{Pipeline};
ghost use Rattle.poll_core.specs.AdoptFaults.{IsUnadopted};
ghost use Rattle.poll_core.specs.Adopting.{IsAdopted, MayAdopt};
ghost use Rattle.poll_core.specs.Differs.{DiffersAt};
ghost use Rattle.poll_core.specs.Found.{IsFound};
ghost use Rattle.poll_core.specs.IsSession.{IsSession};
ghost use Rattle.pipeline.specs.MadeOf.{IsMadeOf, HasRules, AreErasOf, EndsWithRules};
ghost use Rattle.poll_core.specs.OpenFaults.{HasOtherSettings, IsRefused};
ghost use Rattle.poll_core.specs.Polled.{Advance, ComesAfter, Counting, Gains, IsSummed, Stays, Steps};
ghost use Rattle.poll_core.specs.Remembers.{GoesOnFrom, IsLeftBy};
ghost use Rattle.poll_core.specs.Reopens.{Reopens};
ghost use Rattle.poll_core.specs.Sequence.{HasSequence};
ghost use Rattle.poll_core.specs.SessionParts.{checkpoint_of_session, rules_of_session, settings_of_session, kept_of, journal_of_session, stamp_of_session};
ghost use Rattle.poll_core.specs.Sound.{IsOfOthers, IsSoundImage};
ghost use Rattle.poll_core.specs.Summed.{TellsAll};
ghost use Rattle.poll_core.specs.declared.adopt_fault.AdoptFault.{AdoptFault};
ghost use Rattle.poll_core.specs.declared.adopted.Adopted.{Adopted};
ghost use Rattle.poll_core.specs.declared.fault.OpenFault.{OpenFault};
ghost use Rattle.poll_core.specs.declared.fault.OpenFault.TheVariants.{SettingsChanged};
ghost use Rattle.poll_core.specs.declared.session.Session.{Session};
ghost use Rattle.poll_core.specs.declared.summary.Summary.{Summary};
ghost use Rattle.standing.specs.Apart.{Apart};
ghost use Rattle.standing.specs.AreRules.{AreRules};
ghost use Rattle.standing.specs.Eras.{Eras, last_era, texts_of};
ghost use Rattle.standing.specs.Look.{Look, size};
ghost use Rattle.standing.specs.Marks.{Mark};
ghost use Rattle.standing.specs.Moments.{IsLater, IsNamed, KeepsNames};
ghost use Rattle.standing.specs.Rules.{Includes, Rules};
ghost use Rattle.standing.specs.Standing.{Found, nothing, Sound, Standing, kept, checkpoint_of};
ghost use Rattle.standing.specs.Stands.{IsSound, Stands};
ghost use Rattle.standing.specs.Sums.{IsReached};
ghost use Rattle.standing.specs.Times.{AreBefore};

use crate::Session;
use glob_match::laws::text_spells_one_pattern;
use pipeline::laws::a_pipeline_is_rules;
use settings_text::laws::settings_keep_limits;

/// What is made of one text is one: all sessions of it poll by the same rules.
pub fn settings_give_one_set_of_rules()
    ensures pipelines { (text : List ℕ) (one other : Pipeline) → IsMadeOf text one → IsMadeOf text other
        → rules_of text one ≡ rules_of text other }
    ensures rules { (text : List ℕ) (one other : Rules) → HasRules text one → HasRules text other → one ≡ other }
{
    text_spells_one_pattern();
}

/// The rules by which a session polls keep the laws of rules, with which a promise on what polls leave can be made.
pub fn a_session_polls_by_rules(session: &Session)
    requires { IsSession session.now }
    ensures { AreRules (rules_of_session session.now) }
{
    settings_keep_limits();
    a_pipeline_is_rules(&session.pipeline);
}

/// An image has one thing for the next run.
pub fn an_image_has_one_thing()
    ensures found { (image : Image DiskFile) (one other : Found) → IsFound image one → IsFound image other → one ≡ other }
    ensures sequence { (image : Image DiskFile) (one other : ℕ) → HasSequence image one → HasSequence image other
        → one ≡ other }
{}

/// Whatever an image stood for, it stands for after opening: what is found in it is the same, sound and standing as before,
/// and all that is kept of the output is there. Its sequence number stays.
pub fn opening_keeps_what_stands()
    ensures found { (old new : Image DiskFile) (there : Found) → Reopens old new → IsFound old there → IsFound new there }
    ensures sound { (eras : Eras) (old new : Image DiskFile) (there : Found) → Reopens old new → IsFound old there
        → Sound eras there (old DiskFile.Output) → Sound eras there (new DiskFile.Output) }
    ensures standing { (eras : Eras) (history : History) (old new : Image DiskFile) (there : Found) → Reopens old new
        → IsFound old there → Standing eras history there (old DiskFile.Output)
        → Standing eras history there (new DiskFile.Output) }
    ensures kept { (old new : Image DiskFile) (there : Found) → Reopens old new → IsFound old there
        → kept there (new DiskFile.Output) ≡ kept there (old DiskFile.Output) }
    ensures journal { (old new : Image DiskFile) (journal : Journal) (checkpoint : Checkpoint) → Reopens old new
        → HasJournal journal checkpoint old → HasJournal journal checkpoint new }
    ensures checkpoint { (old new : Image DiskFile) (checkpoint : Option Checkpoint) → Reopens old new
        → HasCheckpoint checkpoint old → HasCheckpoint checkpoint new }
    ensures bad { (old new : Image DiskFile) (at : ℕ) → Reopens old new → IsBadAt at old → IsBadAt at new }
    ensures sequence { (old new : Image DiskFile) (sequence : ℕ) → Reopens old new → HasSequence old sequence
        → HasSequence new sequence }
{}

/// Opening over an image has one answer: a session goes on from it, or it is refused for one reason.
pub fn opening_has_one_answer()
    ensures refusal { (text : List ℕ) (image : Image DiskFile) (one other : OpenFault) → IsRefused text image one
        → IsRefused text image other → one ≡ other }
    ensures session { (text : List ℕ) (image : Image DiskFile) (session : Session) (fault : OpenFault)
        → IsSession session → settings_of_session session ≡ text → GoesOnFrom session image → IsRefused text image fault → ⊥ }
{
    settings_give_one_set_of_rules();
}

/// An image that is sound by its own eras is refused only where other settings than the last are given.
pub fn a_sound_image_is_opened()
    ensures { (eras : Eras) (text : List ℕ) (image : Image DiskFile) (there : Found) (fault : OpenFault)
        → EndsWithRules eras → IsFound image there → Sound eras there (image DiskFile.Output)
        → IsRefused text image fault → (at : ℕ) × (fault ≡ SettingsChanged at) × DiffersAt (last_era eras).settings text at }
{
    settings_give_one_set_of_rules();
}

/// An image that is sound is refused at opening only for other settings, and at adoption never because what it has doesn't fit
/// itself: what adopting may refuse of it is that no operators can be made of its last settings. Whatever adopting leaves of it
/// is sound.
pub fn a_sound_image_fits_together()
    ensures opened { (text : List ℕ) (image : Image DiskFile) (fault : OpenFault) → IsSoundImage image
        → IsRefused text image fault → (at : ℕ) × (fault ≡ SettingsChanged at) × HasOtherSettings text image at }
    ensures adopted { (text : List ℕ) (limit : ℕ) (image : Image DiskFile) (fault : AdoptFault) → IsSoundImage image
        → IsUnadopted text limit image fault → IsOfOthers fault }
    ensures adopting { (text : List ℕ) (limit : ℕ) (adopted : Adopted) (old new : Image DiskFile) → IsSoundImage old
        → IsAdopted text limit adopted old new → IsSoundImage new }
    ensures crash { (text : List ℕ) (limit : ℕ) (old new : Image DiskFile) → IsSoundImage old → MayAdopt text limit old new
        → IsSoundImage new }
{
    settings_give_one_set_of_rules();
}

/// What a session stands on is sound, and is found again with the session's checkpoint.
pub fn a_session_is_sound()
    ensures sound { (session : Session) (file : List ℕ) → IsSession session → kept_of session ≤ length file
        → (eras : Eras) → session.eras ≡ texts_of eras → last_era eras ≡ rules_of_session session
        → IsSound eras (checkpoint_of_session session) file }
    ensures goes_on { (session : Session) (image : Image DiskFile) → IsLeftBy session image → GoesOnFrom session image }
{}

/// A session begins with what was found in the image that it goes on from, and it has no journal exactly where that is
/// nothing.
pub fn a_session_begins_with_what_was_found()
    ensures checkpoint { (session : Session) (image : Image DiskFile) (there : Found) → GoesOnFrom session image
        → IsFound image there → (eras : Eras) → session.eras ≡ texts_of eras
        → checkpoint_of eras there ≡ checkpoint_of_session session }
    ensures first { (session : Session) (image : Image DiskFile) (there : Found) → GoesOnFrom session image
        → IsFound image there → (journal_of_session session ≡ None) ↔ (there ≡ nothing) }
{}

/// Whatever a poll leaves of a sound image is sound, whether or not the tree tells its history, and what was kept of the output
/// is kept: a step that only stays keeps it, and one that gains keeps it and the lines behind it.
pub fn polling_keeps_what_is_kept()
    ensures stays { (session : Session) (old new : Image DiskFile) → IsSession session → IsLeftBy session old
        → IsSoundImage old → Stays session old new → IsSoundImage new }
    ensures sound { (session : Session) (next : Checkpoint) (added : List Mark) (old new : Image DiskFile)
        → IsSession session → ComesAfter session next added → IsLeftBy session old → IsSoundImage old
        → Steps session next added old new → IsSoundImage new }
    ensures kept { (session : Session) (old new : Image DiskFile) (there after : Found) → IsLeftBy session old
        → Stays session old new → IsFound old there → IsFound new after
        → kept after (new DiskFile.Output) ≡ kept there (old DiskFile.Output) }
    ensures longer { (session : Session) (next : Checkpoint) (added : List Mark) (old new : Image DiskFile)
        (there after : Found) → ComesAfter session next added → IsLeftBy session old → Gains session next added old new
        → IsFound old there → IsFound new after
        → kept after (new DiskFile.Output) ≡ kept there (old DiskFile.Output) ++ lines_text added }
{
    settings_give_one_set_of_rules();
}

/// After a poll whose summary tells that nothing was left or passed over, and in which no name was given or taken, each file
/// that has a path to be read was looked at, and unless it was empty then, all that its bytes had then is taken. The settings flush
/// nothing.
pub fn a_complete_poll_reaches_all()
    ensures { (session : Session) (next : Advance) (summary : Summary) (counts : Counting)
        (old new : World) (summed : IsSummed session next summary counts old new)
        → TellsAll summary → (rules_of_session session).flush_after ≡ 0
        → (output path : List ℕ) (file : ℕ) (eras : Eras) → IsSession session
        → AreErasOf session.eras eras
        → IsLater old.history new.history → Apart (rules_of_session session).front_size new.history
        → IsLawful new.history → KeepsNames old.history new.history
        → (stands : Stands eras old.history (checkpoint_of_session session).rows
        (checkpoint_of_session session).next_id output)
        → AreBefore (stamp_of_session session) stands.marks
        → Includes (rules_of_session session) path → IsNamed new.history path file
        → (here : Look) × Contains summed.looks here × (here.file ≡ file)
        × (0 < size here → IsReached eras new.history next.after.rows here) }
{
    settings_give_one_set_of_rules();
}
