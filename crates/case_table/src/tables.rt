// The tables.
ghost use Rattle.std.specs.Prelude.{◌≡◌};
ghost use Rattle.case_table.specs.Rows.{table_of};
ghost use Rattle.case_table.specs.Tables.{month_table, severity_table, alias_table, directive_table, gotime_table, month_name_table, day_name_table};

use crate::Row;

macro_rules! rows {
    ($($name:literal = $code:literal),* $(,)?) => {
        [$(Row { name: $name, code: $code }),*]
    };
}

/// The months' English names of three letters, with their numbers.
pub fn months() -> [Row; 12]
    ensures { table_of result ≡ month_table }
{
    rows![
        "Jan" = 1,
        "Feb" = 2,
        "Mar" = 3,
        "Apr" = 4,
        "May" = 5,
        "Jun" = 6,
        "Jul" = 7,
        "Aug" = 8,
        "Sep" = 9,
        "Oct" = 10,
        "Nov" = 11,
        "Dec" = 12,
    ]
}

/// The short names of severities, with their numbers.
pub fn severities() -> [Row; 24]
    ensures { table_of result ≡ severity_table }
{
    rows![
        "TRACE" = 1,
        "TRACE2" = 2,
        "TRACE3" = 3,
        "TRACE4" = 4,
        "DEBUG" = 5,
        "DEBUG2" = 6,
        "DEBUG3" = 7,
        "DEBUG4" = 8,
        "INFO" = 9,
        "INFO2" = 10,
        "INFO3" = 11,
        "INFO4" = 12,
        "WARN" = 13,
        "WARN2" = 14,
        "WARN3" = 15,
        "WARN4" = 16,
        "ERROR" = 17,
        "ERROR2" = 18,
        "ERROR3" = 19,
        "ERROR4" = 20,
        "FATAL" = 21,
        "FATAL2" = 22,
        "FATAL3" = 23,
        "FATAL4" = 24,
    ]
}

/// Other names that logs have for severities, in byte order, with the severities' numbers.
pub fn aliases() -> [Row; 10]
    ensures { table_of result ≡ alias_table }
{
    rows![
        "alert" = 19,
        "crit" = 18,
        "critical" = 18,
        "emerg" = 21,
        "err" = 17,
        "information" = 9,
        "informational" = 9,
        "notice" = 10,
        "panic" = 21,
        "warning" = 13,
    ]
}

/// The directives of `strptime` layouts, numbered in byte order.
pub fn directives() -> [Row; 16]
    ensures { table_of result ≡ directive_table }
{
    rows![
        "%H" = 1,
        "%I" = 2,
        "%L" = 3,
        "%M" = 4,
        "%S" = 5,
        "%T" = 6,
        "%Y" = 7,
        "%a" = 8,
        "%b" = 9,
        "%d" = 10,
        "%e" = 11,
        "%f" = 12,
        "%m" = 13,
        "%p" = 14,
        "%y" = 15,
        "%z" = 16,
    ]
}

/// The names that stand for the parts of a time in the layouts of Go's package `time`, numbered in byte order. They are how
/// the parts of its reference time are written, 2006-01-02 15:04:05 at seven hours west of UTC.
pub fn gotime() -> [Row; 25]
    ensures { table_of result ≡ gotime_table }
{
    rows![
        "-0700" = 1,
        "-07:00" = 2,
        ".000" = 3,
        ".000000" = 4,
        ".000000000" = 5,
        "01" = 6,
        "02" = 7,
        "03" = 8,
        "04" = 9,
        "05" = 10,
        "06" = 11,
        "1" = 12,
        "15" = 13,
        "2" = 14,
        "2006" = 15,
        "3" = 16,
        "Jan" = 17,
        "January" = 18,
        "MST" = 19,
        "Mon" = 20,
        "Monday" = 21,
        "PM" = 22,
        "Z0700" = 23,
        "Z07:00" = 24,
        "_2" = 25,
    ]
}

/// The months' English names in full, with their numbers.
pub fn month_names() -> [Row; 12]
    ensures { table_of result ≡ month_name_table }
{
    rows![
        "January" = 1,
        "February" = 2,
        "March" = 3,
        "April" = 4,
        "May" = 5,
        "June" = 6,
        "July" = 7,
        "August" = 8,
        "September" = 9,
        "October" = 10,
        "November" = 11,
        "December" = 12,
    ]
}

/// The weekdays' English names in full, from Monday.
pub fn day_names() -> [Row; 7]
    ensures { table_of result ≡ day_name_table }
{
    rows![
        "Monday" = 1,
        "Tuesday" = 2,
        "Wednesday" = 3,
        "Thursday" = 4,
        "Friday" = 5,
        "Saturday" = 6,
        "Sunday" = 7,
    ]
}
