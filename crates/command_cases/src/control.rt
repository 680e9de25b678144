// What the lines of a control input ask for.
use agent_commands::next_request;
use mem_world::MemSource;
use std::alloc::{AllocError, Global};
use std::fmt::Write;

/// What each line asks for in turn, and how many bytes may be taken then. The words are how many requests are made, how many bytes may
/// be taken, and which read fails, 0 for none.
pub fn answer(alloc: Global, words: &str, input: &[u8]) -> Result<String, AllocError> {
    let mut numbers = words.split(' ');
    let requests = number(numbers.next());
    let mut left = number(numbers.next());
    let failing = number(numbers.next());
    let mut source = MemSource::new(Vec::from_slice(alloc, input)?, 1);
    source.fail(alloc, u32::try_from(failing).unwrap_or(0))?;
    let mut told = String::new(alloc);
    for _ in 0..requests {
        tell_next(&mut told, &mut source, &mut left)?;
    }
    write!(told, "{left}")?;
    Ok(told)
}

fn tell_next(told: &mut String, source: &mut MemSource, left: &mut u64) -> Result<(), AllocError> {
    match next_request(source, left) {
        Ok(request) => write!(told, "{request:?} "),
        Err(_) => told.push_str("Failed "),
    }
}

/// A number of a case, 0 where none stands.
pub fn number(word: Option<&str>) -> u64 {
    word.unwrap_or("").parse::<u64>().unwrap_or(0)
}
