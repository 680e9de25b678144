// Reads settings that stand in files of cases, and compares what comes of them with what is wanted there. Its arguments are the
// names of the files.
//
// The calls are `settings`, whose input is the text of settings, `operator`, whose input is the one operator of settings, and
// `times N`, whose input is a text of settings in which a line that begins with `* ` stands for N of what is behind that. The
// answer is the refusal, or what the settings say: their includes and each key that isn't at its default, and behind
// `settings whole` each key. Behind `times` it is `taken`.
#![tactic(auto)]

mod answers;
mod operators;
mod settings;
mod values;

use answers::SettingsAnswers;
use case_files::check_files;
use std::io;

fn main(rt: HostRuntime) -> io::Result<()> {
    check_files(&rt, &mut SettingsAnswers)
}
