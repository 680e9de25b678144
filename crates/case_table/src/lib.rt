//! Short tables of names: months, weekdays, severities, what other names severities have, and the directives and names of
//! time layouts.
//!
//! The contract for the layer above: a table is a list of names with codes, and each is written out in
//! specs/Tables.antt, row by row. [`find`] answers the code of the first row with a name and [`find_fold`] does so with
//! the case of ASCII letters ignored (`first_code`). [`is_sorted`] says whether the names strictly ascend.
//!
//! The numbers of severities are those of the OpenTelemetry Logs Data Model (`SeverityNumber`).
#![tactic(auto)]

mod row;
mod tables;

pub use row::{Row, find, find_bytes, find_fold, find_fold_bytes, is_sorted};
pub use tables::{aliases, day_names, directives, gotime, month_names, months, severities};
