//! Cases of times, severities and parsers: texts, and what the crates that read them make of each.
//!
//! The folder data/ has the cases, in the format that `case_files` tells. The first word of a case is one of those that
//! [`answer`] knows, and the module that answers it says what its words, its input and its answer are.
#![tactic(auto)]

mod containers;
mod members;
mod messages;
mod shown;
mod stamps;
mod times;

use case_files::{Answers, Case, check_files};
use std::alloc::{AllocError, Global};
use std::io;
use time_severity::SeverityOp;

/// What cases leave for those behind them.
#[derive(Drop)]
struct ParserCases {
    /// By the last case `mapping`.
    severity: Option<SeverityOp>,
}

impl Answers for ParserCases {
    fn answer(&mut self, alloc: Global, case: &Case<'_>) -> Result<String, AllocError> {
        let Ok(text) = std::str::from_utf8(&case.input) else {
            return String::from_str(alloc, "the input isn't UTF-8");
        };
        match case.call {
            "mapping" => {
                self.severity = stamps::mapping(alloc, case.words, text)?;
                let outcome = if self.severity.is_some() {
                    "read"
                } else {
                    "refused"
                };
                String::from_str(alloc, outcome)
            }
            "severity" => stamps::severity(alloc, &self.severity, text),
            call => answer(alloc, call, case.words, text),
        }
    }
}

fn answer(alloc: Global, call: &str, words: &str, text: &str) -> Result<String, AllocError> {
    match call {
        "layout" => times::layout(alloc, text),
        "time" => times::time(alloc, words, text),
        "go_layout" => times::go_layout(alloc, text),
        "gotime" => times::go_time(alloc, words, text),
        "rfc3339" => times::rfc3339_time(alloc, words, text),
        "epoch" => times::epoch(alloc, words, text),
        "count" => times::count(alloc, words, text),
        "stamp" => stamps::stamp(alloc, words, text),
        "rfc5424" => messages::rfc5424(alloc, text),
        "rfc3164" => messages::rfc3164(alloc, words, text),
        "detect" => containers::detected(alloc, text),
        "docker" => containers::docker(alloc, text),
        "cri" => containers::cri(alloc, text),
        "pod" => containers::pod(alloc, text),
        "container" => containers::container(alloc, words, text),
        "json" | "pairs" | "csv" | "regex" => members::of_text(alloc, call, words, text),
        "value" => members::of_value(alloc, words, text),
        _ => String::from_str(alloc, "no such call"),
    }
}

fn main(rt: HostRuntime) -> io::Result<()> {
    check_files(&rt, &mut ParserCases { severity: None })
}
