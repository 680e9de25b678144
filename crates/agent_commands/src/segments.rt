// The whole program over an output in Parts, over any outside.
ghost use Rattle.std.specs.Prelude.{◌≡◌, drop};
ghost use Rattle.command_words.specs.Answers.{IsNoCommand};
ghost use Rattle.command_words.specs.Words.{texts};
ghost use Rattle.out_segments.specs.Kept.{KeptSince, NoneMadeLonger};
ghost use Rattle.out_segments.specs.Segments.{segments, segments_meaning};
ghost use Rattle.out_segments.specs.declared.parts.PartFile.{PartFile};
ghost use Rattle.outside.specs.Image.{Image};
ghost use Rattle.outside.specs.World.{Told};
ghost use Rattle.agent_commands.specs.AgentEnds.{AgentEnds, course};
ghost use Rattle.agent_commands.specs.Moment.{meanings, moment};
ghost use Rattle.agent_commands.specs.OverParts.{IsOverParts, is_over_parts, is_parts_command};
ghost use Rattle.agent_commands.specs.Report.{GrowsByPart};
ghost use Rattle.agent_commands.specs.Status.{fault_line};
ghost use Rattle.agent_commands.specs.declared.fault.Fault.TheVariants.{Usage};

use crate::agent::run_agent;
use crate::fault::Fault;
use crate::report::refuse;
use out_segments::{Parts, Segmented, SegmentedSince, Since};
use outside::{Clock, Sink, Source, Tree};
use std::alloc::Global;
use std::marker::Brand;

/// How many bytes a full Part has.
const PART_SIZE: u64 = 16_777_216;

/// Runs the command that the words behind `segments` are, over an output in Parts of 16,777,216 bytes, and answers the exit
/// status and the Parts. The commands are `once`, `follow`, `adopt`, `audit` and `committed`.
///
/// The other arguments are those of [`run_agent`], of which this is a run over the Parts, joined.
pub fn run_segmented<T: Tree, P: Parts, S: Source, K: Sink, C: Clock>(
    alloc: Global,
    words: &[String],
    tree: &mut T,
    parts: P,
    control: &mut S,
    report: &mut K,
    clock: &mut C,
) -> (u8, P)
    // What the program promises over a disk, it promises over the Parts, joined.
    ensures runs { IsOverParts (texts words.now)
        → AgentEnds (meanings T.meaning (segments_meaning P.meaning) K.meaning C.meaning) S.meaning (drop 1 (texts words.now))
        (course (moment tree.old (segments parts 16777216) report.old clock.old) (moment tree.new (segments result.1 16777216) report.new clock.new) control.old control.new) result.0 }

    // No Part is made longer than a full one, in any image that a crash might have left meanwhile.
    ensures lengths { IsOverParts (texts words.now) → NoneMadeLonger P.meaning.images 16777216 parts result.1 }

    // 2, exactly: the words are none of these.
    ensures usage { result.0 ≡ 2 → IsOverParts (texts words.now) → ⊥ }
    ensures no_command { (IsOverParts (texts words.now) → ⊥)
        → (result.0 ≡ 2) × Told (GrowsByPart (fault_line Usage)) (K.meaning.written report.old) (K.meaning.written report.new) }
    ensures untouched { (IsOverParts (texts words.now) → ⊥) → result.1 ≡ parts }
{
    if !are_over_parts(words) {
        return (refuse(alloc, Fault::Usage, report), parts);
    }
    run_over::<T, P, S, K, C, Brand>(alloc, &words[1..], tree, parts, control, report, clock)
}

// Whether these are the words of a command whose output is in Parts.
fn are_over_parts(words: &[String]) -> bool
    ensures { result ≡ is_over_parts (texts words.now) }
{
    match words {
        [first, command] => first.as_str() == "segments" && is_parts_command(command.as_str()),
        _ => false,
    }
}

fn is_parts_command(word: &str) -> bool
    ensures { result ≡ is_parts_command word.now }
{
    word == "once" || word == "follow" || word == "adopt" || word == "audit" || word == "committed"
}

// The run, since the moment that `M` remembers.
fn run_over<T: Tree, P: Parts, S: Source, K: Sink, C: Clock, M: Since>(
    alloc: Global,
    words: &[String],
    tree: &mut T,
    parts: P,
    control: &mut S,
    report: &mut K,
    clock: &mut C,
) -> (u8, P)
    requires size { M.size ≡ 16777216 }
    requires moment { M.moment ≡ P.meaning.images.moment parts }
    requires could_leave { (image : Image PartFile) → P.meaning.images.may_leave parts image → M.could_leave image }
    ensures runs { AgentEnds (meanings T.meaning (segments_meaning P.meaning) K.meaning C.meaning) S.meaning (texts words.now)
        (course (moment tree.old (segments parts 16777216) report.old clock.old) (moment tree.new (segments result.1 16777216) report.new clock.new) control.old control.new) result.0 }
    ensures kept { KeptSince P.meaning.images M.could_leave M.moment M.size result.1 }
    ensures usage { result.0 ≡ 2 → IsNoCommand (texts words.now) }
{
    let disk = Segmented::new(parts, PART_SIZE);
    let mut files = SegmentedSince::<P, M>::new(disk);
    let status = run_agent(alloc, words, tree, &mut files, control, report, clock);
    (status, files.into_parts())
}
