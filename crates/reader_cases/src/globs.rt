// Globs.
use crate::texts::add_line;
use glob_match::Glob;
use std::alloc::{AllocError, Global};

/// The first line is a pattern, and the others are paths that it matches or not, or folders that may hold a match or can't.
pub fn glob(alloc: Global, call: &str, text: &str) -> Result<String, AllocError> {
    let (pattern, paths) = text.split_once('\n').unwrap_or((text, ""));
    match Glob::read(alloc, pattern) {
        Ok(glob) => fitting(alloc, call, &glob, paths),
        Err(fault) => format!(in alloc; "{fault}"),
    }
}

fn fitting(alloc: Global, call: &str, glob: &Glob, paths: &str) -> Result<String, AllocError> {
    let mut answers = String::new(alloc);
    for path in paths.split('\n') {
        let fits = match call {
            "folders" => glob.lists(path),
            _ => glob.matches(path),
        };
        add_answer(&mut answers, path, fits)?;
    }
    Ok(answers)
}

fn add_answer(answers: &mut String, what: &str, fits: bool) -> Result<(), AllocError> {
    add_line(answers, what)?;
    answers.push_str(if fits { ": yes" } else { ": no" })
}

/// The first line is a path, and the others are patterns.
pub fn name(alloc: Global, text: &str) -> Result<String, AllocError> {
    let (path, patterns) = text.split_once('\n').unwrap_or((text, ""));
    let mut answers = String::new(alloc);
    for pattern in patterns.split('\n') {
        add_answer(&mut answers, pattern, fits(alloc, pattern, path))?;
    }
    Ok(answers)
}

fn fits(alloc: Global, pattern: &str, path: &str) -> bool {
    match Glob::read(alloc, pattern) {
        Ok(glob) => glob.matches(path),
        Err(_) => false,
    }
}

/// The folder in which a walk for a pattern begins.
pub fn start(alloc: Global, text: &str) -> Result<String, AllocError> {
    match Glob::read(alloc, text) {
        Ok(glob) => folder_of(alloc, &glob),
        Err(fault) => format!(in alloc; "{fault}"),
    }
}

fn folder_of(alloc: Global, glob: &Glob) -> Result<String, AllocError> {
    let folder = glob.start(alloc)?;
    format!(in alloc; "{:?}", folder.as_str())
}
