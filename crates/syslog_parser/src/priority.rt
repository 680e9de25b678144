// `<PRI>` (RFC 5424, section 6.2.1; RFC 3164, section 4.1.1).
ghost use Rattle.std.specs.Prelude.{◌≡◌, ◌≤◌, ◌<◌, ◌^◌, ◌/◌, IfSome, IfNone, OnOk, length, take};
ghost use Rattle.std.specs.Char.{is_ascii_digit};
ghost use Rattle.std.specs.List.{prefix_len};
ghost use Rattle.entry_model.specs.Seen.{seen};
ghost use Rattle.time_layout.specs.Atoms.{value_of};
ghost use Rattle.syslog_parser.specs.Faults.{HasNoPriority};
ghost use Rattle.syslog_parser.specs.Priorities.{IsPriority};
ghost use Rattle.syslog_parser.specs.Told.{put_all, told_priority};

use crate::cuts::{cut, stands};
use crate::members::put_number;
use entry_model::FieldsBuilder;
use std::alloc::{AllocError, Global};

/// The priority at the front of a text, and what stands behind it.
pub(crate) fn read_priority(text: &str) -> Option<(u8, &str)>
    ensures some { IfSome result (λ read. IsPriority text.now read.0 read.1.now) }
    ensures none { IfNone result (HasNoPriority text.now) }
{
    if !stands(text, 0, b'<') {
        return None;
    }
    let (_, numbered) = cut(text, 0);
    let (value, count) = read_digits(front(numbered.as_bytes(), 4));
    if count == 0 || count > 3 || value > 191 || !stands(numbered, count, b'>') {
        return None;
    }
    let (_, rest) = cut(numbered, count);
    Some((value as u8, rest))
}

/// Puts a priority, and the facility that it names, into the members.
pub(crate) fn put_priority(
    alloc: Global,
    members: &mut FieldsBuilder,
    priority: u8,
) -> Result<(), AllocError>
    ensures { OnOk result (seen members.new.entries ≡ put_all (seen members.old.entries) (told_priority priority)) }
{
    put_number(alloc, members, "priority", priority)?;
    put_number(alloc, members, "facility", priority / 8)
}

/// At most so many bytes from the front.
fn front(bytes: &[u8], most: usize) -> &[u8]
    ensures { result.now ≡ take most bytes.now }
{
    if bytes.len() < most {
        bytes
    } else {
        &bytes[..most]
    }
}

/// The number that the digits at the front spell, and how many they are.
fn read_digits(bytes: &[u8]) -> (u32, usize)
    requires { length bytes.now ≤ 9 }
    ensures count { result.1 ≡ prefix_len is_ascii_digit bytes.now }
    ensures value { result.0 ≡ value_of (take result.1 bytes.now) }
{
    let mut value: u32 = 0;
    for (count, byte) in bytes.iter().enumerate() {
        if !byte.is_ascii_digit() {
            return (value, count);
        }
        value = value * 10 + u32::from(*byte - b'0');
    }
    (value, bytes.len())
}
