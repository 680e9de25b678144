// The tables of names.
use case_table::{
    Row, aliases, day_names, directives, find, find_bytes, find_fold, find_fold_bytes, gotime,
    is_sorted, month_names, months, severities,
};
use std::alloc::{AllocError, Global};
use std::str;

fn rows_of(alloc: Global, table: &str) -> Result<Vec<Row>, AllocError> {
    match table {
        "months" => Vec::from_slice(alloc, &months()),
        "severities" => Vec::from_slice(alloc, &severities()),
        "aliases" => Vec::from_slice(alloc, &aliases()),
        "directives" => Vec::from_slice(alloc, &directives()),
        "gotime" => Vec::from_slice(alloc, &gotime()),
        "month_names" => Vec::from_slice(alloc, &month_names()),
        "day_names" => Vec::from_slice(alloc, &day_names()),
        _ => Ok(Vec::new(alloc)),
    }
}

/// The code of a name in a table.
pub fn find_row(alloc: Global, call: &str, table: &str, name: &[u8]) -> Result<String, AllocError> {
    let rows = rows_of(alloc, table)?;
    let text = str::from_utf8(name).unwrap_or("");
    let code = match call {
        "find" => find(&rows, text),
        "fold" => find_fold(&rows, text),
        "find_bytes" => find_bytes(&rows, name),
        _ => find_fold_bytes(&rows, name),
    };
    format!(in alloc; "{code:?}")
}

/// Whether a table's names ascend; of no table, whether the months that are named do.
pub fn sorted(alloc: Global, table: &str, names: &str) -> Result<String, AllocError> {
    let mut rows = rows_of(alloc, table)?;
    for name in names.split('\n') {
        for row in months() {
            if row.name == name {
                rows.push(row)?;
            }
        }
    }
    format!(in alloc; "{}", is_sorted(&rows))
}
