// What settings say, in the words of their keys.
use crate::operators::show_operator;
use crate::values::show_fields;
use settings_text::{Multiline, NamedTexts, Settings, StartAt, Texts};
use std::alloc::{AllocError, Global};

fn show_texts(key: &str, shown: bool, texts: &Texts, out: &mut String) -> Result<(), AllocError> {
    if shown || !texts.as_slice().is_empty() {
        write!(out, "\n{key} {:?}", texts.as_slice())?;
    }
    Ok(())
}

fn show_start(shown: bool, start_at: StartAt, out: &mut String) -> Result<(), AllocError> {
    match start_at {
        StartAt::Beginning => out.push_str("\nstart_at beginning"),
        StartAt::End if shown => out.push_str("\nstart_at end"),
        StartAt::End => Ok(()),
    }
}

fn show_size(
    key: &str,
    whole: bool,
    default: u32,
    size: u32,
    out: &mut String,
) -> Result<(), AllocError> {
    if whole || size != default {
        write!(out, "\n{key} {size}")?;
    }
    Ok(())
}

fn show_multiline(shown: bool, multiline: &Multiline, out: &mut String) -> Result<(), AllocError> {
    match multiline {
        Multiline::Start(pattern) => write!(out, "\nmultiline line_start_pattern {pattern:?}"),
        Multiline::End(pattern) => write!(out, "\nmultiline line_end_pattern {pattern:?}"),
        Multiline::Lines if shown => out.push_str("\nmultiline none"),
        Multiline::Lines => Ok(()),
    }
}

fn show_flag(
    key: &str,
    whole: bool,
    default: bool,
    flag: bool,
    out: &mut String,
) -> Result<(), AllocError> {
    if whole || flag != default {
        write!(out, "\n{key} {flag}")?;
    }
    Ok(())
}

fn show_flags(whole: bool, said: &Settings, out: &mut String) -> Result<(), AllocError> {
    let leading = said.preserve_leading_whitespaces;
    let trailing = said.preserve_trailing_whitespaces;
    let number = said.include_file_record_number;
    show_flag("preserve_leading_whitespaces", whole, false, leading, out)?;
    show_flag("preserve_trailing_whitespaces", whole, false, trailing, out)?;
    show_flag(
        "include_file_name",
        whole,
        true,
        said.include_file_name,
        out,
    )?;
    show_flag(
        "include_file_path",
        whole,
        false,
        said.include_file_path,
        out,
    )?;
    show_flag("include_file_record_number", whole, false, number, out)
}

fn show_named(
    key: &str,
    shown: bool,
    texts: &NamedTexts,
    out: &mut String,
) -> Result<(), AllocError> {
    if shown || !texts.as_fields().is_empty() {
        write!(out, "\n{key} ")?;
        show_fields(texts.as_fields(), out)?;
    }
    Ok(())
}

/// The includes, and a line for each further key that isn't at its default, or for each key where the whole is asked for, in the
/// order of the table; each operator has a line of its own, also where the whole is asked for.
pub fn show_settings(alloc: Global, whole: bool, said: &Settings) -> Result<String, AllocError> {
    let mut out = format!(in alloc; "include {:?}", said.include.as_slice())?;
    show_texts("exclude", whole, &said.exclude, &mut out)?;
    show_start(whole, said.start_at, &mut out)?;
    show_size(
        "fingerprint_size",
        whole,
        1_000,
        said.fingerprint_size,
        &mut out,
    )?;
    show_size(
        "max_log_size",
        whole,
        1_048_576,
        said.max_log_size,
        &mut out,
    )?;
    show_multiline(whole, &said.multiline, &mut out)?;
    show_flags(whole, said, &mut out)?;
    show_named("attributes", whole, &said.attributes, &mut out)?;
    show_named("resource", whole, &said.resource, &mut out)?;
    for operator in said.operators.as_slice() {
        out.push_str("\noperator ")?;
        show_operator(operator, &mut out)?;
    }
    let observed = said.include_observed_time;
    show_flag("include_observed_time", whole, false, observed, &mut out)?;
    show_size(
        "flush_after_polls",
        whole,
        0,
        said.flush_after_polls,
        &mut out,
    )?;
    Ok(out)
}
