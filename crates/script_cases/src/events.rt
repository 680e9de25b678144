// The lines of scripts.
use case_files::unescaped;
use entry_model::Text;
use lifetimes::Event;
use mem_world::{FileName, WorldStep};
use std::alloc::{AllocError, Global};

/// What stands for the words `calls` and `outcome`.
#[derive(Clone, Copy)]
pub(crate) struct Tried {
    pub(crate) calls: u32,
    pub(crate) outcome: u32,
}

impl Tried {
    /// For scripts without these words.
    pub(crate) const NOTHING: Tried = Tried {
        calls: 0,
        outcome: 0,
    };

    /// The number that a word says.
    pub(crate) fn number(self, word: &str) -> Option<u32> {
        match word {
            "calls" => Some(self.calls),
            "outcome" => Some(self.outcome),
            digits => digits.parse::<u32>().ok(),
        }
    }
}

/// The first word of a line, and what stands behind it.
pub(crate) fn cut(line: &str) -> (&str, &str) {
    line.split_once(' ').unwrap_or((line, ""))
}

/// A step of another process: `create FILE PATH`, `append FILE TEXT`, `fill FILE COUNT`, which appends so many `x`, `rename FILE
/// PATH` or `remove FILE`. A file has a number, whatever its name is.
pub(crate) fn step_of(
    alloc: Global,
    line: &str,
    tried: Tried,
) -> Result<Option<WorldStep>, AllocError> {
    let (kind, rest) = cut(line);
    let (file, text) = cut(rest);
    let Some(file) = tried.number(file) else {
        return Ok(None);
    };
    let file = FileName(file);
    match kind {
        "create" => {
            let path = Text::from_str(alloc, text)?;
            Ok(Some(WorldStep::Create { file, path }))
        }
        "append" => {
            let bytes = unescaped(alloc, text)?;
            Ok(Some(WorldStep::Append { file, bytes }))
        }
        "fill" => {
            let count = tried.number(text).unwrap_or(0);
            let bytes = vec![in alloc; b'x'; count as usize]?;
            Ok(Some(WorldStep::Append { file, bytes }))
        }
        "rename" => {
            let path = Text::from_str(alloc, text)?;
            Ok(Some(WorldStep::Rename { file, path }))
        }
        "remove" => Ok(Some(WorldStep::Remove { file })),
        _ => Ok(None),
    }
}

/// An event of a life: `open`, `poll`, `stop CALLS OUTCOME`, which stops the next of these, `fail-disk CALL` and `fail-tree CALL`, by
/// which a call in the next of them fails, a step of another process, or `within CALLS STEP`, a step behind so many calls on the tree
/// in the next poll.
pub(crate) fn event_of(
    alloc: Global,
    line: &str,
    tried: Tried,
) -> Result<Option<Event>, AllocError> {
    let (kind, rest) = cut(line);
    let (number, text) = cut(rest);
    let calls = tried.number(number).unwrap_or(0);
    match kind {
        "open" => Ok(Some(Event::Reopen)),
        "poll" => Ok(Some(Event::Poll)),
        "stop" => {
            let outcome = tried.number(text).unwrap_or(0);
            Ok(Some(Event::Stop { calls, outcome }))
        }
        "fail-disk" => Ok(Some(Event::FailDisk { call: calls })),
        "fail-tree" => Ok(Some(Event::FailTree { call: calls })),
        "within" => match step_of(alloc, text, tried)? {
            Some(step) => Ok(Some(Event::During { calls, step })),
            None => Ok(None),
        },
        _ => match step_of(alloc, line, tried)? {
            Some(step) => Ok(Some(Event::World(step))),
            None => Ok(None),
        },
    }
}

/// Puts a line behind others.
pub(crate) fn say(answer: &mut String, line: &str) -> Result<(), AllocError> {
    if !answer.is_empty() {
        answer.push('\n')?;
    }
    answer.push_str(line)
}
