// Command lines.
use command_words::command_of;
use std::alloc::{AllocError, Global};

/// The command that words spell, each of which stands between two quotes.
pub fn command(alloc: Global, text: &str) -> Result<String, AllocError> {
    let mut words = Vec::new(alloc);
    for word in text.split('"').skip(1).step_by(2) {
        words.push(String::from_str(alloc, word)?)?;
    }
    let command = command_of(alloc, &words)?;
    format!(in alloc; "{command:?}")
}
