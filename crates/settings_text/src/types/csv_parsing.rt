// The type `csv_parser`.
ghost use Rattle.std.specs.Prelude.{◌≡◌, codes};
ghost use Rattle.serde_json.specs.View.{view};
ghost use Rattle.settings_text.specs.Kinds as kinds;
ghost use Rattle.settings_text.specs.Names as names;
ghost use Rattle.settings_text.specs.Outcome.{Gives};
ghost use Rattle.settings_text.specs.Types.CsvParsing as csv_parsing;

use crate::fault::SettingsFault;
use crate::kinds::name;
use crate::names::{are_names, single};
use crate::parsers;
use crate::place::place;
use crate::settings::OpKind;
use crate::words::is_one_of;
use entry_model::Text;
use serde_json::Value;
use std::alloc::Global;

pub fn is_key(name: &str) -> bool
    ensures { result ≡ csv_parsing.is_key name.now }
{
    is_one_of(name, &["delimiter", "header"]) || parsers::is_key(name)
}

fn delimiter(alloc: Global, object: &Value, at: &str) -> Result<u8, SettingsFault>
    ensures { Gives (λ delimiter. delimiter) result
        (kinds.may at.now (codes "delimiter") (kinds.name names.single) 44 (view object.now)) }
{
    let Some(value) = object.get("delimiter") else {
        return Ok(b',');
    };
    let content = name(alloc, value, at, "delimiter")?;
    match single(content.as_bytes()) {
        Some(delimiter) => Ok(delimiter),
        None => Err(SettingsFault::OutOfRange {
            key: place(alloc, at, "delimiter")?,
        }),
    }
}

/// Names between delimiters.
fn header(alloc: Global, object: &Value, at: &str, delimiter: u8) -> Result<Text, SettingsFault>
    ensures { Gives (λ header. header) result
        (kinds.must at.now (codes "header") (csv_parsing.header delimiter) (view object.now)) }
{
    let Some(value) = object.get("header") else {
        return Err(SettingsFault::Missing {
            key: place(alloc, at, "header")?,
        });
    };
    let content = name(alloc, value, at, "header")?;
    if are_names(alloc, content.as_bytes(), delimiter)? {
        Ok(Text::from_str(alloc, content)?)
    } else {
        Err(SettingsFault::OutOfRange {
            key: place(alloc, at, "header")?,
        })
    }
}

#[tactic(auto, unfolding(crate::specs::Types::CsvParsing::read))]
pub fn read(alloc: Global, object: &Value, at: &str) -> Result<OpKind, SettingsFault>
    ensures { Gives (λ kind. kind) result (csv_parsing.read at.now (view object.now)) }
{
    let delimiter = delimiter(alloc, object, at)?;
    let header = header(alloc, object, at, delimiter)?;
    let parser = parsers::read(alloc, object, at)?;
    Ok(OpKind::Csv {
        delimiter,
        header,
        parser,
    })
}
