//! Worked histories: a file that is renamed while it is read, a stop between a poll's writes and its checkpoint, other settings
//! that are adopted, and a part of a line that is flushed.
ghost use Rattle.std.specs.Prelude.{◌≡◌, [], ◌∷◌, ◌++◌, None, false, true, codes};
ghost use Rattle.outside.specs.World.{look};
ghost use Rattle.standing.specs.Adopted.{Adopts};
ghost use Rattle.standing.specs.Apart.{Apart};
ghost use Rattle.standing.specs.AreRules.{AreRules};
ghost use Rattle.standing.specs.Eras.{AreEras, texts_of};
ghost use Rattle.standing.specs.Example.{adopted_checkpoint, each_line, flushed_checkpoint, flushed_lines, flushing_line, flushing_poll, grown, grown_checkpoint, grown_lines, grown_looks, grown_stretch, one_era, other_line, poll_of, first_checkpoint, first_lines, first_looks, first_stretch, polled_again, still_checkpoint, still_looks, still_stretch, two_eras, second_checkpoint, second_lines, second_looks, second_stretch};
ghost use Rattle.standing.specs.Pass.{Pass};
ghost use Rattle.standing.specs.Poll.{poll_in};
ghost use Rattle.standing.specs.Rows.{no_checkpoint};
ghost use Rattle.standing.specs.Rules.{output_text};
ghost use Rattle.standing.specs.Standing.{found, kept};
ghost use Rattle.standing.specs.Stands.{CheckpointStands};

/// The rules of the worked histories are rules.
pub fn lines_give_rules()
    ensures rules { AreRules each_line }
    ensures eras { AreEras one_era }
{}

/// A first poll reads a line and a part of one. Then the file is renamed and goes on, and another takes its name. The next
/// poll finds the first by its front, and reads on where it stopped. The two can be told apart, and what is kept stands.
pub fn a_renamed_file_is_read_on()
    ensures first { Pass (poll_of true) first_stretch first_looks (no_checkpoint (texts_of one_era)) first_checkpoint first_lines }
    ensures second { Pass (poll_of false) second_stretch second_looks first_checkpoint second_checkpoint second_lines }
    ensures output { output_text each_line (first_lines ++ second_lines)
        ≡ codes "1 1 one\n2 1 three\n1 2 two\n" }
    ensures apart { Apart each_line.front_size polled_again }
    ensures stands { CheckpointStands one_era polled_again second_checkpoint
        (codes "1 1 one\n2 1 three\n1 2 two\n") }
{}

/// After a stop between a poll's writes and its checkpoint only what the checkpoint keeps counts, and the poll after the
/// restart adds the same lines again: each stands once.
pub fn a_stop_withdraws_what_was_not_kept()
    ensures withdrawn { kept (found first_checkpoint) (codes "1 1 one\n2 1 three\n1 2 t") ≡ codes "1 1 one\n" }
    ensures again { kept (found second_checkpoint) (codes "1 1 one\n2 1 three\n1 2 two\n")
        ≡ kept (found first_checkpoint) (codes "1 1 one\n2 1 three\n1 2 t") ++ output_text each_line second_lines }
{}

/// Between two polls other settings are adopted. The part of the file that was read ends behind its first line, and the next poll
/// reads on from there by the new settings, in whose name its line stands.
pub fn adopted_settings_begin_a_part()
    ensures eras { AreEras two_eras }
    ensures adopted { Adopts one_era other_line first_checkpoint adopted_checkpoint [] }
    ensures polled { Pass (poll_in two_eras false None) grown_stretch grown_looks adopted_checkpoint grown_checkpoint grown_lines }
    ensures stands { CheckpointStands two_eras (look 1 ∷ grown) grown_checkpoint (codes "1 1 one\n1 2 two\n") }
{}

/// A part of a line waits for its rest. The look that finds the file as it was for the second time flushes it: its line is kept,
/// and all of the file is taken.
pub fn a_rest_is_flushed()
    ensures first { Pass (flushing_poll true) first_stretch first_looks (no_checkpoint (texts_of one_era)) (still_checkpoint 0) first_lines }
    ensures second { Pass (flushing_poll false) still_stretch still_looks (still_checkpoint 0) (still_checkpoint 1) [] }
    ensures third { Pass (flushing_poll false) still_stretch still_looks (still_checkpoint 1) flushed_checkpoint flushed_lines }
    ensures output { output_text flushing_line (first_lines ++ flushed_lines) ≡ codes "1 1 one\n1 2 tw\n" }
{}
