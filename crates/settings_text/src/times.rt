// The keys of a time.
ghost use Rattle.std.specs.Prelude.{◌≡◌, ◌++◌, ◌≤◌, ◌<◌, codes, IfSome, None, pos};
ghost use Rattle.serde_json.specs.View.{view};
ghost use Rattle.settings_text.specs.Kinds as kinds;
ghost use Rattle.settings_text.specs.Outcome.{Gives};
ghost use Rattle.settings_text.specs.Times as times;
ghost use Rattle.settings_text.specs.declared.parsing.LayoutType.TheVariants.{Strptime};

use crate::fault::SettingsFault;
use crate::kinds::{check_known, name, text};
use crate::parsing::{LayoutType, TimeSpec};
use crate::place::{inner, place};
use crate::words::{Words, is_one_of, named_or, tested_text};
use entry_model::Text;
use serde_json::Value;
use std::alloc::Global;

/// The keys of a time.
struct TimeKeys;

impl Words for TimeKeys {
    ghost use Rattle.settings_text.specs.Times.{is_key};

    ghost test = { λ _. is_key };

    fn has(&self, name: &str) -> bool {
        is_key(name)
    }
}

pub fn is_key(name: &str) -> bool
    ensures { result ≡ times.is_key name.now }
{
    is_one_of(name, &["parse_from", "layout_type", "layout", "location"])
}

fn layout_type(alloc: Global, object: &Value, at: &str) -> Result<LayoutType, SettingsFault>
    ensures { Gives (λ layout_type. layout_type) result
        (kinds.may at.now (codes "layout_type") (kinds.name times.type_named) Strptime (view object.now)) }
{
    let words = [
        ("strptime", LayoutType::Strptime),
        ("gotime", LayoutType::Gotime),
        ("epoch", LayoutType::Epoch),
    ];
    named_or(
        alloc,
        object,
        at,
        "layout_type",
        &words,
        LayoutType::Strptime,
    )
}

fn is_count(layout: &str) -> bool
    ensures { result ≡ times.is_count layout.now }
{
    is_one_of(layout, &["s", "ms", "us", "ns", "s.ms", "s.us", "s.ns"])
}

/// The layouts that fit a type.
impl Words for LayoutType {
    ghost use Rattle.settings_text.specs.Times.{fits};

    ghost test = { fits };

    fn has(&self, layout: &str) -> bool {
        match self {
            LayoutType::Strptime | LayoutType::Gotime => true,
            LayoutType::Epoch => is_count(layout),
        }
    }
}

fn layout(
    alloc: Global,
    object: &Value,
    at: &str,
    layout_type: LayoutType,
) -> Result<Text, SettingsFault>
    ensures { Gives (λ layout. layout) result
        (kinds.must at.now (codes "layout") (times.layout layout_type) (view object.now)) }
{
    tested_text(alloc, object, at, "layout", &layout_type)
}

/// The number that two digits spell, where it is no more than `most`.
fn two_digits(most: u32, tens: u8, ones: u8) -> Option<u32>
    ensures is { result ≡ times.two_digits most tens ones }
    ensures few { IfSome result (λ number. number ≤ most) }
{
    if !tens.is_ascii_digit() || !ones.is_ascii_digit() {
        return None;
    }
    let number = u32::from(tens - b'0') * 10 + u32::from(ones - b'0');
    if number <= most { Some(number) } else { None }
}

/// Seconds behind `+` or `-`.
fn signed(sign: u8, seconds: u32) -> Option<i32>
    requires { seconds < 86400 }
    ensures { result ≡ times.signed sign seconds }
{
    if sign == b'+' {
        Some(seconds as i32)
    } else if sign == b'-' {
        Some(-(seconds as i32))
    } else {
        None
    }
}

/// `+hh:mm` or `-hh:mm`, in seconds.
fn distance(name: &[u8]) -> Option<i32>
    ensures { result ≡ times.distance name.now }
{
    if name.len() != 6 || name[3] != b':' {
        return None;
    }
    let hours = two_digits(23, name[1], name[2])?;
    let minutes = two_digits(59, name[4], name[5])?;
    signed(name[0], hours * 3600 + minutes * 60)
}

#[tactic(auto, unfolding(crate::specs::Times::location_named))]
fn location_named(name: &str) -> Option<i32>
    ensures { result ≡ times.location_named name.now }
{
    if name == "UTC" {
        Some(0)
    } else {
        distance(name.as_bytes())
    }
}

pub fn location(alloc: Global, object: &Value, at: &str) -> Result<i32, SettingsFault>
    ensures { Gives (λ location. location) result
        (kinds.may at.now (codes "location") (kinds.name times.location_named) (pos 0) (view object.now)) }
{
    let Some(value) = object.get("location") else {
        return Ok(0);
    };
    let name = name(alloc, value, at, "location")?;
    match location_named(name) {
        Some(location) => Ok(location),
        None => Err(SettingsFault::OutOfRange {
            key: place(alloc, at, "location")?,
        }),
    }
}

#[tactic(auto, unfolding(crate::specs::Times::read))]
pub fn read(alloc: Global, object: &Value, at: &str) -> Result<TimeSpec, SettingsFault>
    ensures { Gives (λ time. time) result (times.read at.now (view object.now)) }
{
    let parse_from = text(alloc, object, at, "parse_from")?;
    let layout_type = layout_type(alloc, object, at)?;
    let layout = layout(alloc, object, at, layout_type)?;
    let location = location(alloc, object, at)?;
    Ok(TimeSpec {
        parse_from,
        layout_type,
        layout,
        location,
    })
}

/// An object of these keys.
fn block(alloc: Global, value: &Value, at: &str, key: &str) -> Result<TimeSpec, SettingsFault>
    ensures { Gives (λ time. time) result (times.block (at.now ++ key.now) (view value.now)) }
{
    let Some(members) = value.as_object() else {
        return Err(SettingsFault::WrongKind {
            key: place(alloc, at, key)?,
        });
    };
    let front = inner(alloc, at, key)?;
    check_known(alloc, members, front.as_str(), &TimeKeys)?;
    read(alloc, value, front.as_str())
}

/// An object of these keys, which may be missing.
pub fn optional_block(
    alloc: Global,
    object: &Value,
    at: &str,
    key: &str,
) -> Result<Option<TimeSpec>, SettingsFault>
    ensures { Gives (λ time. time) result
        (kinds.may at.now key.now (kinds.given times.block) None (view object.now)) }
{
    match object.get(key) {
        Some(value) => Ok(Some(block(alloc, value, at, key)?)),
        None => Ok(None),
    }
}
