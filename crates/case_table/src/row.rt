// Rows, and looking for one.
ghost use Rattle.std.specs.Prelude.{◌≡◌, length, IsTrue, ◌↔◌, bytes_eq};
ghost use Rattle.std.specs.Bool.{OnTrue, OnFalse};
ghost use Rattle.std.specs.List.{AllAdjacentBelow};
ghost use Rattle.std.specs.Str.{str_eq_ignore_ascii_case};
ghost use Rattle.case_table.specs.Rows.{table_of, first_code, IsBelow};

/// A name, and the number that it stands for.
#[derive(Clone, Copy, Debug, PartialEq, Eq)]
pub struct Row {
    pub name: &'static str,
    pub code: u16,
}

/// The code of the first row with this name. `None` exactly where there is none.
pub fn find(rows: &[Row], name: &str) -> Option<u16>
    ensures { result ≡ first_code (bytes_eq name.now) (table_of rows.now) }
{
    find_bytes(rows, name.as_bytes())
}

/// As [`find`], of a name that need be no text: a reader may have cut it inside a character.
pub fn find_bytes(rows: &[Row], name: &[u8]) -> Option<u16>
    ensures { result ≡ first_code (bytes_eq name.now) (table_of rows.now) }
{
    for row in rows {
        if is_same(row.name.as_bytes(), name) {
            return Some(row.code);
        }
    }
    None
}

/// As [`find`], with the case of ASCII letters ignored.
pub fn find_fold(rows: &[Row], name: &str) -> Option<u16>
    ensures { result ≡ first_code (str_eq_ignore_ascii_case name.now) (table_of rows.now) }
{
    find_fold_bytes(rows, name.as_bytes())
}

/// As [`find_bytes`], with the case of ASCII letters ignored.
pub fn find_fold_bytes(rows: &[Row], name: &[u8]) -> Option<u16>
    ensures { result ≡ first_code (str_eq_ignore_ascii_case name.now) (table_of rows.now) }
{
    for row in rows {
        if is_same_folded(row.name.as_bytes(), name) {
            return Some(row.code);
        }
    }
    None
}

/// Whether the names strictly ascend in byte order.
pub fn is_sorted(rows: &[Row]) -> bool
    ensures ascending { OnTrue result (AllAdjacentBelow IsBelow rows.now (length rows.now)) }
    ensures other { OnFalse result (AllAdjacentBelow IsBelow rows.now (length rows.now) → ⊥) }
{
    for i in 1..rows.len() {
        if !is_below(&rows[i - 1], &rows[i]) {
            return false;
        }
    }
    true
}

fn is_same(row_name: &[u8], name: &[u8]) -> bool
    ensures { result ≡ bytes_eq name.now row_name.now }
{
    name == row_name
}

fn is_same_folded(row_name: &[u8], name: &[u8]) -> bool
    ensures { result ≡ str_eq_ignore_ascii_case name.now row_name.now }
{
    name.eq_ignore_ascii_case(row_name)
}

fn is_below(low: &Row, high: &Row) -> bool
    ensures { IsTrue result ↔ IsBelow low.now high.now }
{
    low.name < high.name
}
