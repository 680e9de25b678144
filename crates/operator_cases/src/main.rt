//! What operators make of logs, as cases in files: settings and lines in, records out.
//!
//! Where settings stand in the first line of an input, or in those before a line of two hyphens, the rest is a log, whose last line
//! has its end where the words of the case don't say `unended`. A path among the words is the file's, and a number says how many
//! bytes are fed at a time; what is kept is saved and restored before each. Where the words say `flushed`, what is left of the log
//! is taken too, and the operators are closed. `observed=TIME` gives the lines a time. In a log `<COUNT*BYTE>` stands for a byte so
//! often, and so it does in an answer. A record is shown as a JSON object with plain values in the place of OTLP's, and its
//! resource in front where that has attributes.
//!
//! | Call | Input | Answer |
//! |---|---|---|
//! | `records`, `pieces` | settings and a log | the records that come out |
//! | `operator` | operators with commas between them, and a log, whose entries have the attribute `k`, which is `kept` | the same |
//! | `entry` | operators, and lines with a JSON object each, which has the body, attributes and resource of an entry | the same |
//! | `output` | settings and a log | how many tokens and lines there are, and the lines as they are written |
//! | `joined` | the keys of a `recombine` beside its field and source, and lines with a JSON object each, which has a text `t`, and may have a source `s` | the records, and behind `open` those of the groups that are open, as they would go on |
//! | `kept` | settings and a log | the bytes that spell what the operators keep |
//! | `restored` | settings, such bytes, and behind a line of two hyphens the log that goes on | the records, or where the bytes are malformed |
//! | `deep LEVELS` | none | whether a `recombine` takes a body of so many lists in one another |
//! | `build` | settings | `built`, or why there is no pipeline |
#![tactic(auto)]

mod asked;
mod calls;
mod kept;
mod plain;
mod refusal;
mod running;
mod unanswered;
mod words;

use calls::Operators;
use case_files::check_files;
use std::io;

fn main(rt: HostRuntime) -> io::Result<()> {
    check_files(&rt, &mut Operators)
}
