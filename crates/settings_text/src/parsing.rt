// What parsers say beside how a text is read.
use crate::mapping::MapRules;
use entry_model::Text;

/// How texts name times.
#[derive(Clone, Copy)]
pub enum LayoutType {
    /// By directives, as those of POSIX `strptime`.
    Strptime,
    /// As Go's package `time` writes its reference time.
    Gotime,
    /// As counts since 1970.
    Epoch,
}

/// At which field a time is told, and how.
#[derive(Drop)]
pub struct TimeSpec {
    pub parse_from: Text,
    pub layout_type: LayoutType,
    /// Directives, for `Gotime` the reference time, or for `Epoch` one of `s`, `ms`, `us`, `ns`, `s.ms`, `s.us` and `s.ns`.
    pub layout: Text,
    /// In seconds east of UTC.
    pub location: i32,
}

/// At which field a severity is named, and how.
#[derive(Drop)]
pub struct SeveritySpec {
    pub parse_from: Text,
    /// Whether the short names and the aliases of severities count.
    pub preset: bool,
    /// Whether an entry has the short name in place of its own word.
    pub overwrite_text: bool,
    pub mapping: MapRules,
}

/// Who wrote a container's lines.
#[derive(Clone, Copy)]
pub enum FormatSpec {
    Docker,
    Crio,
    Containerd,
}

/// Which field is parsed, where what it says is put, and which of it are the entry's time and severity.
pub struct ParserKeys {
    pub parse_from: Text,
    pub parse_to: Text,
    pub timestamp: Option<TimeSpec>,
    pub severity: Option<SeveritySpec>,
}

impl Drop for ParserKeys {
    fn drop(self) {
        let ParserKeys {
            parse_from: _parse_from,
            parse_to: _parse_to,
            timestamp: _timestamp,
            severity: _severity,
        } = self;
    }
}
