// Walks for patterns over the tree in memory.
use crate::events::{Tried, cut, say};
use crate::folders::Folder;
use glob_match::{Glob, GlobFault};
use std::alloc::{AllocError, Global};
use std::fmt::Write;
use tree_walk::{Walk, paths};

/// `walk`: each line is `include PATTERN`, `exclude PATTERN`, a step of another process or a harm to the tree. The answer has how many
/// folders couldn't be listed and how many lie too deep, and the paths that are found.
pub(crate) fn walk(alloc: Global, input: &str, tried: Tried) -> Result<String, AllocError> {
    let mut folder = Folder::new(alloc, b"")?;
    let mut include = Vec::new(alloc);
    let mut exclude = Vec::new(alloc);
    for line in input.lines() {
        let (kind, pattern) = cut(line);
        match kind {
            "include" => push_glob(alloc, &mut include, pattern)?,
            "exclude" => push_glob(alloc, &mut exclude, pattern)?,
            _ => folder.play(alloc, line, tried)?,
        }
    }
    let walk = paths(alloc, &mut folder.tree, &include, &exclude)?;
    say_walk(&mut folder.answer, &walk)?;
    Ok(folder.answer)
}

fn say_walk(answer: &mut String, walk: &Walk) -> Result<(), AllocError> {
    say(answer, "")?;
    write!(answer, "failed={} deep={}", walk.failed, walk.deep)?;
    for path in &walk.paths {
        say(answer, path.as_str())?;
    }
    Ok(())
}

// What is no glob is passed over.
fn push_glob(alloc: Global, globs: &mut Vec<Glob>, pattern: &str) -> Result<(), AllocError> {
    match Glob::read(alloc, pattern) {
        Ok(glob) => {
            globs.push(glob)?;
            Ok(())
        }
        Err(GlobFault::Memory) => Err(AllocError),
        Err(_) => Ok(()),
    }
}
