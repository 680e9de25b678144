// What settings say.
use crate::lists::{Operators, Routes};
use crate::literal::Literal;
use crate::parsing::{FormatSpec, ParserKeys, SeveritySpec, TimeSpec};
use crate::texts::{NamedTexts, Texts};
use entry_model::Text;

/// Where reading of a file begins that is found by the first poll.
#[derive(Clone, Copy, PartialEq, Eq)]
pub enum StartAt {
    Beginning,
    End,
}

/// Which lines of a file are taken together as one token. Patterns are as they were written.
#[derive(Drop)]
pub enum Multiline {
    /// Each line is a token.
    Lines,
    /// A line in which the pattern is found begins a token.
    Start(Text),
    /// A line in which the pattern is found ends a token.
    End(Text),
}

/// What becomes of an entry that an operator cannot work on.
#[derive(Clone, Copy)]
pub enum OnError {
    Send,
    Drop,
    SendQuiet,
    DropQuiet,
}

/// The settings of an agent. A key that is not written has its default here.
pub struct Settings {
    /// At least one.
    pub include: Texts,
    pub exclude: Texts,
    pub start_at: StartAt,
    /// In bytes, 16 to 4,096.
    pub fingerprint_size: u32,
    /// In bytes, 64 to 4,194,304.
    pub max_log_size: u32,
    pub multiline: Multiline,
    pub preserve_leading_whitespaces: bool,
    pub preserve_trailing_whitespaces: bool,
    pub include_file_name: bool,
    pub include_file_path: bool,
    pub include_file_record_number: bool,
    pub attributes: NamedTexts,
    pub resource: NamedTexts,
    /// At most 64.
    pub operators: Operators,
    /// Whether each line of the output has the time at which its entry was taken.
    pub include_observed_time: bool,
    /// At which quiet poll what waits at the end of a file is flushed: 0 (never) to 1,000.
    pub flush_after_polls: u32,
}

// By hand, so that what drops one goes by this call, and not by what each field may hold.
impl Drop for Settings {
    fn drop(self) {
        let Settings {
            include: _include,
            exclude: _exclude,
            start_at: _,
            fingerprint_size: _,
            max_log_size: _,
            multiline: _multiline,
            preserve_leading_whitespaces: _,
            preserve_trailing_whitespaces: _,
            include_file_name: _,
            include_file_path: _,
            include_file_record_number: _,
            attributes: _attributes,
            resource: _resource,
            operators: _operators,
            include_observed_time: _,
            flush_after_polls: _,
        } = self;
    }
}

/// An operator. Field paths and expressions in it are as they were written.
pub struct OpSpec {
    pub id: Text,
    /// The expression at the key `if`; a router has none.
    pub condition: Option<Text>,
    pub on_error: OnError,
    /// The ids of the operators that take what comes out, at least one. None where the key isn't written: then the
    /// next operator takes it, or it goes out behind the last. A router has none.
    pub output: Option<Texts>,
    pub kind: OpKind,
}

impl Drop for OpSpec {
    fn drop(self) {
        let OpSpec {
            id: _id,
            condition: _condition,
            on_error: _on_error,
            output: _output,
            kind: _kind,
        } = self;
    }
}

/// What an operator does.
pub enum OpKind {
    Noop,
    Container {
        /// None where each line tells its own.
        format: Option<FormatSpec>,
        /// Whether the path of the file tells of the pod.
        add_metadata_from_filepath: bool,
    },
    Move {
        from: Text,
        to: Text,
    },
    Copy {
        from: Text,
        to: Text,
    },
    Add {
        field: Text,
        value: Literal,
    },
    Remove {
        field: Text,
    },
    Flatten {
        field: Text,
    },
    /// At least one.
    Retain {
        fields: Texts,
    },
    Filter {
        expr: Text,
    },
    Csv {
        /// A character of ASCII, but for `"`, CR and LF.
        delimiter: u8,
        /// The names of the fields, between delimiters.
        header: Text,
        parser: ParserKeys,
    },
    Json {
        parser: ParserKeys,
    },
    KeyValue {
        /// What parts a key from its value; neither it nor the other is empty or has a quote.
        delimiter: Text,
        /// What parts pairs; blanks where there is none.
        pair_delimiter: Option<Text>,
        parser: ParserKeys,
    },
    Regex {
        regex: Text,
        parser: ParserKeys,
    },
    Time(TimeSpec),
    Severity(SeveritySpec),
    /// Neither time nor severity are at fields.
    Syslog {
        /// 1970 to 2553, of the times of RFC 3164. None where texts are read by RFC 5424.
        year: Option<u16>,
        /// Of the times of RFC 3164, in seconds east of UTC.
        location: i32,
        parser: ParserKeys,
    },
    Router {
        /// 1 to 65,534.
        routes: Routes,
        /// As the output of a route.
        default: Option<Texts>,
    },
    Recombine {
        combine_field: Text,
        /// Whether the mark is that of first entries; else it is that of last ones.
        first: bool,
        /// An expression.
        mark: Text,
        combine_with: Text,
        /// 1 to 1,000,000.
        max_batch_size: u32,
        /// Whether the newest entry of a group goes on; else it is the oldest.
        newest: bool,
        /// All entries are of one source where there is none.
        source_identifier: Option<Text>,
    },
}

// By hand, so that what drops one goes by this call, and not by what each kind may hold.
impl Drop for OpKind {
    fn drop(self) {
        match self {
            OpKind::Noop
            | OpKind::Container {
                format: _,
                add_metadata_from_filepath: _,
            } => {}
            OpKind::Move {
                from: _from,
                to: _to,
            }
            | OpKind::Copy {
                from: _from,
                to: _to,
            } => {}
            OpKind::Add {
                field: _field,
                value: _value,
            } => {}
            OpKind::Remove { field: _text }
            | OpKind::Flatten { field: _text }
            | OpKind::Filter { expr: _text } => {}
            OpKind::Retain { fields: _fields } => {}
            OpKind::Csv {
                delimiter: _,
                header: _header,
                parser: _parser,
            } => {}
            OpKind::Json { parser: _parser }
            | OpKind::Syslog {
                year: _,
                location: _,
                parser: _parser,
            } => {}
            OpKind::KeyValue {
                delimiter: _delimiter,
                pair_delimiter: _pair_delimiter,
                parser: _parser,
            } => {}
            OpKind::Regex {
                regex: _regex,
                parser: _parser,
            } => {}
            OpKind::Time(_time) => {}
            OpKind::Severity(_severity) => {}
            OpKind::Router {
                routes: _routes,
                default: _default,
            } => {}
            OpKind::Recombine {
                combine_field: _combine_field,
                first: _,
                mark: _mark,
                combine_with: _combine_with,
                max_batch_size: _,
                newest: _,
                source_identifier: _source_identifier,
            } => {}
        }
    }
}

/// Where a router sends the entries for which an expression is true.
#[derive(Drop)]
pub struct RouteSpec {
    pub expr: Text,
    /// The ids of operators, at least one.
    pub output: Texts,
}
