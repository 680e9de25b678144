// What an operator says, in the words of its keys: its type and id, the keys of its type, and those that types share where they
// are written.
use crate::values::show_value;
use entry_model::Text;
use settings_text::{
    FormatSpec, LayoutType, MapRules, MapWant, OnError, OpKind, OpSpec, ParserKeys, Routes,
    SeveritySpec, Texts, TimeSpec,
};
use std::alloc::{AllocError, Global};

fn show_text(key: &str, text: &Option<Text>, out: &mut String) -> Result<(), AllocError> {
    if let Some(text) = text {
        write!(out, " {key} {text:?}")?;
    }
    Ok(())
}

fn show_targets(key: &str, targets: &Option<Texts>, out: &mut String) -> Result<(), AllocError> {
    if let Some(targets) = targets {
        write!(out, " {key} {:?}", targets.as_slice())?;
    }
    Ok(())
}

fn show_time(time: &TimeSpec, out: &mut String) -> Result<(), AllocError> {
    let TimeSpec {
        parse_from,
        layout_type,
        layout,
        location,
    } = time;
    let layout_type = match layout_type {
        LayoutType::Strptime => "strptime",
        LayoutType::Gotime => "gotime",
        LayoutType::Epoch => "epoch",
    };
    write!(
        out,
        " parse_from {parse_from:?} layout_type {layout_type} layout {layout:?} location {location}"
    )
}

fn format_word(format: Option<FormatSpec>) -> &'static str {
    match format {
        None => "none",
        Some(FormatSpec::Docker) => "docker",
        Some(FormatSpec::Crio) => "crio",
        Some(FormatSpec::Containerd) => "containerd",
    }
}

fn show_rules(rules: &MapRules, out: &mut String) -> Result<(), AllocError> {
    for rule in rules.as_slice() {
        let number = rule.severity.number;
        match &rule.want {
            MapWant::Text(text) => write!(out, " {number}={text:?}")?,
            MapWant::Range { min, max } => write!(out, " {number}={min}..{max}")?,
        }
    }
    Ok(())
}

fn show_severity(severity: &SeveritySpec, out: &mut String) -> Result<(), AllocError> {
    let SeveritySpec {
        parse_from,
        preset,
        overwrite_text,
        mapping,
    } = severity;
    write!(
        out,
        " parse_from {parse_from:?} preset {preset} overwrite_text {overwrite_text} mapping"
    )?;
    show_rules(mapping, out)
}

fn show_parser(parser: &ParserKeys, out: &mut String) -> Result<(), AllocError> {
    write!(
        out,
        " parse_from {:?} parse_to {:?}",
        parser.parse_from, parser.parse_to
    )?;
    if let Some(time) = &parser.timestamp {
        out.push_str(" timestamp")?;
        show_time(time, out)?;
    }
    if let Some(severity) = &parser.severity {
        out.push_str(" severity")?;
        show_severity(severity, out)?;
    }
    Ok(())
}

fn show_protocol(year: Option<u16>, location: i32, out: &mut String) -> Result<(), AllocError> {
    match year {
        Some(year) => write!(out, " protocol rfc3164 year {year} location {location}"),
        None => write!(out, " protocol rfc5424 location {location}"),
    }
}

fn show_routes(routes: &Routes, out: &mut String) -> Result<(), AllocError> {
    for route in routes.as_slice() {
        write!(out, " route {:?} {:?}", route.expr, route.output.as_slice())?;
    }
    Ok(())
}

fn type_of(kind: &OpKind) -> &'static str {
    match kind {
        OpKind::Noop => "noop",
        OpKind::Container { .. } => "container",
        OpKind::Move { .. } => "move",
        OpKind::Copy { .. } => "copy",
        OpKind::Add { .. } => "add",
        OpKind::Remove { .. } => "remove",
        OpKind::Flatten { .. } => "flatten",
        OpKind::Retain { .. } => "retain",
        OpKind::Filter { .. } => "filter",
        OpKind::Csv { .. } => "csv_parser",
        OpKind::Json { .. } => "json_parser",
        OpKind::KeyValue { .. } => "key_value_parser",
        OpKind::Regex { .. } => "regex_parser",
        OpKind::Time(_) => "time_parser",
        OpKind::Severity(_) => "severity_parser",
        OpKind::Syslog { .. } => "syslog_parser",
        OpKind::Router { .. } => "router",
        OpKind::Recombine { .. } => "recombine",
    }
}

// The keys of types that read a text.
fn show_parsing(kind: &OpKind, out: &mut String) -> Result<(), AllocError> {
    match kind {
        OpKind::Csv {
            delimiter,
            header,
            parser,
        } => {
            let delimiter = char::from(*delimiter);
            write!(out, " delimiter {delimiter:?} header {header:?}")?;
            show_parser(parser, out)
        }
        OpKind::Json { parser } => show_parser(parser, out),
        OpKind::KeyValue {
            delimiter,
            pair_delimiter,
            parser,
        } => {
            write!(out, " delimiter {delimiter:?}")?;
            show_text("pair_delimiter", pair_delimiter, out)?;
            show_parser(parser, out)
        }
        OpKind::Regex { regex, parser } => {
            write!(out, " regex {regex:?}")?;
            show_parser(parser, out)
        }
        OpKind::Time(time) => show_time(time, out),
        OpKind::Severity(severity) => show_severity(severity, out),
        OpKind::Syslog {
            year,
            location,
            parser,
        } => {
            show_protocol(*year, *location, out)?;
            show_parser(parser, out)
        }
        _ => Ok(()),
    }
}

fn end_key(first: bool) -> &'static str {
    if first {
        "is_first_entry"
    } else {
        "is_last_entry"
    }
}

// The keys of the other types.
fn show_keys(kind: &OpKind, out: &mut String) -> Result<(), AllocError> {
    match kind {
        OpKind::Container {
            format,
            add_metadata_from_filepath,
        } => write!(
            out,
            " format {} add_metadata_from_filepath {add_metadata_from_filepath}",
            format_word(*format)
        ),
        OpKind::Move { from, to } | OpKind::Copy { from, to } => {
            write!(out, " from {from:?} to {to:?}")
        }
        OpKind::Add { field, value } => {
            write!(out, " field {field:?} value ")?;
            show_value(value.value(), out)
        }
        OpKind::Remove { field } | OpKind::Flatten { field } => write!(out, " field {field:?}"),
        OpKind::Retain { fields } => write!(out, " fields {:?}", fields.as_slice()),
        OpKind::Filter { expr } => write!(out, " expr {expr:?}"),
        OpKind::Router { routes, default } => {
            show_routes(routes, out)?;
            show_targets("default", default, out)
        }
        OpKind::Recombine {
            combine_field,
            first,
            mark,
            combine_with,
            max_batch_size,
            newest,
            source_identifier,
        } => {
            let end = end_key(*first);
            let overwrite = if *newest { "newest" } else { "oldest" };
            write!(out, " combine_field {combine_field:?} {end} {mark:?}")?;
            write!(
                out,
                " combine_with {combine_with:?} max_batch_size {max_batch_size}"
            )?;
            write!(out, " overwrite_with {overwrite}")?;
            show_text("source_identifier", source_identifier, out)
        }
        _ => show_parsing(kind, out),
    }
}

/// One line for each.
pub fn show_operators(alloc: Global, operators: &[OpSpec]) -> Result<String, AllocError> {
    let mut out = String::new(alloc);
    for (index, operator) in operators.iter().enumerate() {
        if index > 0 {
            out.push_str("\n")?;
        }
        show_operator(operator, &mut out)?;
    }
    Ok(out)
}

/// One line.
pub fn show_operator(operator: &OpSpec, out: &mut String) -> Result<(), AllocError> {
    write!(out, "{} id {:?}", type_of(&operator.kind), operator.id)?;
    show_keys(&operator.kind, out)?;
    show_text("if", &operator.condition, out)?;
    match operator.on_error {
        OnError::Send => {}
        OnError::Drop => out.push_str(" on_error drop")?,
        OnError::SendQuiet => out.push_str(" on_error send_quiet")?,
        OnError::DropQuiet => out.push_str(" on_error drop_quiet")?,
    }
    show_targets("output", &operator.output, out)
}
