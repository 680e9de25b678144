// What comes of a case.
use crate::operators::show_operators;
use crate::settings::show_settings;
use case_files::{Answers, Case};
use settings_text::read;
use std::alloc::{AllocError, Global};

/// Answers the calls that `main` tells of.
#[derive(Drop)]
pub struct SettingsAnswers;

impl Answers for SettingsAnswers {
    fn answer(&mut self, alloc: Global, case: &Case<'_>) -> Result<String, AllocError> {
        match case.call {
            "settings" => of_settings(alloc, case.words == "whole", &case.input),
            "operator" => of_operator(alloc, &case.input),
            "times" => of_repeated(alloc, case.words, &case.input),
            _ => String::from_str(alloc, "no such call"),
        }
    }
}

fn of_settings(alloc: Global, whole: bool, text: &[u8]) -> Result<String, AllocError> {
    match read(alloc, text) {
        Ok(settings) => show_settings(alloc, whole, &settings),
        Err(fault) => format!(in alloc; "{fault}"),
    }
}

fn of_operator(alloc: Global, operator: &[u8]) -> Result<String, AllocError> {
    let mut text = Vec::new(alloc);
    text.extend_from_slice(b"{\"include\":[\"a\"],\"operators\":[")?;
    text.extend_from_slice(operator)?;
    text.extend_from_slice(b"]}")?;
    match read(alloc, &text) {
        Ok(settings) => show_operators(alloc, settings.operators.as_slice()),
        Err(fault) => format!(in alloc; "{fault}"),
    }
}

fn of_repeated(alloc: Global, times: &str, lines: &[u8]) -> Result<String, AllocError> {
    let (Ok(times), Ok(lines)) = (times.parse::<u32>(), std::str::from_utf8(lines)) else {
        return String::from_str(alloc, "no number, or no text");
    };
    let text = repeated(alloc, times, lines)?;
    match read(alloc, text.as_bytes()) {
        Ok(_settings) => String::from_str(alloc, "taken"),
        Err(fault) => format!(in alloc; "{fault}"),
    }
}

// The lines without their ends, and so many times those that begin with `* `.
fn repeated(alloc: Global, times: u32, lines: &str) -> Result<String, AllocError> {
    let mut text = String::new(alloc);
    for line in lines.lines() {
        match line.strip_prefix("* ") {
            Some(part) => push_times(times, part, &mut text)?,
            None => text.push_str(line)?,
        }
    }
    Ok(text)
}

fn push_times(times: u32, part: &str, text: &mut String) -> Result<(), AllocError> {
    for _ in 0..times {
        text.push_str(part)?;
    }
    Ok(())
}
