// The groups of a pattern that have names.
ghost use Rattle.std.specs.Prelude.{ℕ, [], ◌≡◌, ◌↔◌, length, zip, IfOk, IsTrue};
ghost use Rattle.regex.specs.Locations.{location};
ghost use Rattle.entry_model.specs.Seen.{seen};
ghost use Rattle.json_text.specs.Grammar.{put_all};
ghost use Rattle.text_parsers.specs.Groups.{members_by, named_groups, taken};
ghost use Rattle.text_parsers.specs.ReadByDefault.{IsCleanSpan};
ghost use Rattle.regex.specs.Strings.{regex_names};

use crate::known_names::KnownNames;
use crate::members::set;
use entry_model::{Fields, Text};
use regex::{CaptureLocations, Regex};
use std::alloc::{AllocError, Global};
use std::marker::Model;

/// The groups of a pattern that have names, in their order.
#[derive(Drop)]
pub struct Groups {
    numbers: Vec<usize>,
    names: KnownNames,
}

impl Model for Groups {
    ghost use Rattle.std.specs.Prelude.{◌≡◌, List, length, zip};
    ghost use Rattle.text_parsers.specs.Groups.{NamedGroup};

    ghost Value = { List NamedGroup };

    ghost view = { λ groups. zip groups.numbers.items groups.names };

    ghost invariant = { λ groups. length groups.numbers.items ≡ length groups.names };
}

impl Groups {
    pub fn is_empty(&self) -> bool
        ensures { IsTrue result ↔ (self.now ≡ []) }
    {
        self.numbers.is_empty()
    }
}

/// The groups of the pattern that have names.
pub fn groups_of(alloc: Global, regex: &Regex) -> Result<Groups, AllocError>
    ensures { IfOk result (λ groups. groups ≡ named_groups (regex_names regex.now)) }
{
    let mut numbers = Vec::new(alloc);
    let mut names = Vec::new(alloc);
    let Some((_, all)) = regex.capture_names().split_first() else {
        return with_names(alloc, numbers, &names);
    };
    for (index, name) in all.iter().enumerate() {
        if let Some(name) = name {
            let name = Text::from_str(alloc, name.as_str())?;
            names.push(name)?;
            numbers.push(index + 1)?;
        }
    }
    with_names(alloc, numbers, &names)
}

fn with_names(alloc: Global, numbers: Vec<usize>, names: &[Text]) -> Result<Groups, AllocError>
    requires { length numbers.items ≡ length names.now }
    ensures { IfOk result (λ groups. groups ≡ zip numbers.items names.now) }
{
    let names = KnownNames::new(alloc, names)?;
    Ok(Groups { numbers, names })
}

/// The texts at the spans of these groups.
pub fn name_groups(
    alloc: Global,
    groups: &Groups,
    locations: &CaptureLocations,
    text: &str,
) -> Result<Fields, AllocError>
    requires { (number : ℕ) → IsCleanSpan text.now (location locations.now number) }
    ensures { IfOk result (λ members. seen members.entries ≡ put_all [] (members_by (location locations.now) text.now groups.now)) }
{
    let mut members = groups.names.unset(alloc)?;
    let places = groups.names.places();
    for (index, number) in groups.numbers.iter().enumerate() {
        let taken = group_text(locations, *number, text);
        set(alloc, &mut members, places[index], taken)?;
    }
    Ok(members)
}

/// What stands at the span of a group, and nothing where it took no part.
fn group_text<'t>(locations: &CaptureLocations, number: usize, text: &'t str) -> &'t str
    requires { IsCleanSpan text.now (location locations.now number) }
    ensures { result.now ≡ taken text.now (location locations.now number) }
{
    match locations.get(number) {
        Some((start, end)) => &text[start..end],
        None => "",
    }
}
