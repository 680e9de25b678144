// Times out of texts.
use std::alloc::{AllocError, Global};
use time_layout::{EpochKind, Layout, TimeFault, rfc3339};

/// `layout`, with a layout of strptime as the input: whether it is read, or its fault.
pub fn layout(alloc: Global, text: &str) -> Result<String, AllocError> {
    match Layout::read(alloc, text, 0) {
        Ok(_) => String::from_str(alloc, "read"),
        Err(fault) => format!(in alloc; "{fault:?}"),
    }
}

/// `time LOCATION LAYOUT`, with a text as the input, and the location in seconds east of UTC.
pub fn time(alloc: Global, words: &str, text: &str) -> Result<String, AllocError> {
    let (location, spelling) = words.split_once(' ').unwrap_or((words, ""));
    let Ok(location) = location.parse::<i32>() else {
        return String::from_str(alloc, "no location");
    };
    match Layout::read(alloc, spelling, location) {
        Ok(layout) => instant(alloc, layout.instant(text)),
        Err(fault) => format!(in alloc; "{fault:?}"),
    }
}

/// `go_layout`, with a layout of Go's as the input: whether it is read, or its fault.
pub fn go_layout(alloc: Global, text: &str) -> Result<String, AllocError> {
    match Layout::read_go(alloc, text, 0) {
        Ok(_) => String::from_str(alloc, "read"),
        Err(fault) => format!(in alloc; "{fault:?}"),
    }
}

/// `gotime LOCATION LAYOUT`, with a text as the input, and the location in seconds east of UTC.
pub fn go_time(alloc: Global, words: &str, text: &str) -> Result<String, AllocError> {
    let (location, spelling) = words.split_once(' ').unwrap_or((words, ""));
    let Ok(location) = location.parse::<i32>() else {
        return String::from_str(alloc, "no location");
    };
    match Layout::read_go(alloc, spelling, location) {
        Ok(layout) => instant(alloc, layout.instant(text)),
        Err(fault) => format!(in alloc; "{fault:?}"),
    }
}

/// `rfc3339 DIGITS`, with a time as the input, and the greatest number of a fraction's digits.
pub fn rfc3339_time(alloc: Global, words: &str, text: &str) -> Result<String, AllocError> {
    match words.parse::<u8>() {
        Ok(digits) if 1 <= digits && digits <= 9 => instant(alloc, rfc3339(text, digits)),
        _ => String::from_str(alloc, "no number of digits"),
    }
}

/// `epoch KIND`, with a text as the input.
pub fn epoch(alloc: Global, words: &str, text: &str) -> Result<String, AllocError> {
    match kind_of(words) {
        Some(kind) => instant(alloc, kind.instant(text)),
        None => String::from_str(alloc, "no kind"),
    }
}

/// `count KIND`, with an integer as the input.
pub fn count(alloc: Global, words: &str, text: &str) -> Result<String, AllocError> {
    match (kind_of(words), text.parse::<i64>()) {
        (Some(kind), Ok(count)) => instant(alloc, kind.instant_of_count(count)),
        _ => String::from_str(alloc, "no kind or no integer"),
    }
}

/// The kind of counts with this name in settings.
pub fn kind_of(name: &str) -> Option<EpochKind> {
    match name {
        "s" => Some(EpochKind::S),
        "ms" => Some(EpochKind::Ms),
        "us" => Some(EpochKind::Us),
        "ns" => Some(EpochKind::Ns),
        "s.ms" => Some(EpochKind::SMs),
        "s.us" => Some(EpochKind::SUs),
        "s.ns" => Some(EpochKind::SNs),
        _ => None,
    }
}

/// The nanoseconds since 1970, or the fault.
fn instant(alloc: Global, outcome: Result<u64, TimeFault>) -> Result<String, AllocError> {
    match outcome {
        Ok(nanoseconds) => format!(in alloc; "{nanoseconds}"),
        Err(fault) => format!(in alloc; "{fault:?}"),
    }
}
