//! The cases of the small readers: values and entries, paths, expressions, globs, JSON, tables of names, lines, entries of several
//! lines, command lines, spellings and what knows the files. The files in data/ have the cases, a subject each, and the
//! program prints how many there are and which differ.
//!
//! In an input, `«3:ab»` stands for `ababab`.
#![tactic(auto)]

mod checkpoints;
mod commands;
mod entries;
mod expressions;
mod globs;
mod lines;
mod paths;
mod readers;
mod spellings;
mod tables;
mod texts;
mod trackers;
mod values;

use case_files::check_files;
use readers::Readers;
use std::io;

fn main(rt: HostRuntime) -> io::Result<()> {
    let mut readers = Readers::new(rt.alloc())?;
    check_files(&rt, &mut readers)
}
