// Names that texts have beside those of months.
ghost use Rattle.std.specs.Prelude.{◌≡◌};
ghost use Rattle.case_table.specs.Rows.{table_of};
ghost use Rattle.time_layout.specs.Names.{weekday_table, meridiem_table};

use case_table::Row;

macro_rules! rows {
    ($($name:literal = $code:literal),* $(,)?) => {
        [$(Row { name: $name, code: $code }),*]
    };
}

/// The weekdays' English names of three letters, from Monday.
pub(crate) fn weekdays() -> [Row; 7]
    ensures { table_of result ≡ weekday_table }
{
    rows![
        "Mon" = 1,
        "Tue" = 2,
        "Wed" = 3,
        "Thu" = 4,
        "Fri" = 5,
        "Sat" = 6,
        "Sun" = 7,
    ]
}

/// Before noon, and from noon on.
pub(crate) fn meridiems() -> [Row; 2]
    ensures { table_of result ≡ meridiem_table }
{
    rows!["AM" = 1, "PM" = 2]
}
