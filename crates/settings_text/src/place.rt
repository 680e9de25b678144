// The names of places in the text, as faults have them.
ghost use Rattle.std.specs.Prelude.{◌≡◌, ◌++◌, codes, IfOk, string_bytes};
ghost use Rattle.settings_text.specs.Place.{item_place, member_place};

use entry_model::Text;
use std::alloc::{AllocError, Global};

/// A key behind what stands before it, as `operators[2].` or nothing.
pub fn place(alloc: Global, at: &str, key: &str) -> Result<Text, AllocError>
    ensures { IfOk result (λ text. text ≡ at.now ++ key.now) }
{
    Ok(Text::new(format!(in alloc; "{at}{key}")?)?)
}

/// What stands before the keys of the object at a key.
pub fn inner(alloc: Global, at: &str, key: &str) -> Result<String, AllocError>
    ensures { IfOk result (λ text. string_bytes text ≡ (at.now ++ key.now) ++ codes ".") }
{
    let place = place(alloc, at, key)?;
    format!(in alloc; "{place}.")
}

/// A member of the list at a key.
pub fn item_place(alloc: Global, at: &str, key: &str, index: usize) -> Result<Text, AllocError>
    ensures { IfOk result (λ text. text ≡ item_place (at.now ++ key.now) index) }
{
    Ok(Text::new(format!(in alloc; "{at}{key}[{index}]")?)?)
}

/// A member of the object at a key.
pub fn member_place(alloc: Global, at: &str, key: &str, name: &str) -> Result<Text, AllocError>
    ensures { IfOk result (λ text. text ≡ member_place (at.now ++ key.now) name.now) }
{
    Ok(Text::new(format!(in alloc; "{at}{key}.{name}")?)?)
}
