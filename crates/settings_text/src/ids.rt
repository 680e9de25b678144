// The ids of operators that have none written.
ghost use Rattle.std.specs.Prelude.{◌≡◌, decimal, ◌++◌, IfOk};
ghost use Rattle.settings_text.specs.Ids.{is_taken, default_id};

use entry_model::Text;
use std::alloc::{AllocError, Global};

fn is_taken(id: &str, taken: &[Text]) -> bool
    ensures { result ≡ is_taken id.now taken.now }
{
    taken.iter().any(|other| id == other.as_str())
}

fn with_number(alloc: Global, name: &str, number: usize) -> Result<Text, AllocError>
    ensures { IfOk result (λ id. id ≡ name.now ++ decimal number) }
{
    Text::new(format!(in alloc; "{name}{number}")?)
}

/// The name, and where that is taken, the name with the least number from 1 on that is not.
#[tactic(auto, unfolding(crate::specs::Ids::default_id))]
pub fn default_id(alloc: Global, name: &str, taken: &[Text]) -> Result<Text, AllocError>
    ensures { IfOk result (λ id. id ≡ default_id name.now taken.now) }
{
    if !is_taken(name, taken) {
        return Text::from_str(alloc, name);
    }
    for tried in 0..taken.len() {
        let id = with_number(alloc, name, tried + 1)?;
        if !is_taken(id.as_str(), taken) {
            return Ok(id);
        }
    }
    with_number(alloc, name, taken.len() + 1)
}
