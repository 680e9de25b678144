// Open groups as bytes, and back.
ghost use Rattle.std.specs.Prelude.{◌≡◌, ◌≤◌, ◌++◌, IfOk, OnOk};
ghost use Rattle.recombine.specs.Limits.{batch_limit, group_limit};
ghost use Rattle.recombine.specs.Reading.{number_within, source_at, group_at};
ghost use Rattle.recombine.specs.Restores.{Restores};
ghost use Rattle.recombine.specs.Rules.{AreSpellable, KeepsRules};
ghost use Rattle.recombine.specs.Spelling.{group_spelling, groups_spelling};
ghost use Rattle.recombine.specs.Table.{group_seen, held_seen, IsOpen};
ghost use Rattle.recombine.specs.Inner.Told.{Finds};

use crate::group::OpenGroup;
use crate::{BATCH_LIMIT, GROUP_LIMIT, Groups};
use entry_model::Text;
use state_codec::{
    CodecFault, get_entry, get_text, get_u32, put_bytes, put_entry, put_text, put_u32,
};
use std::alloc::{AllocError, Global};

/// Appends the open groups: their number and each of them, in the order in which they were opened. A text of 2^32 bytes or
/// more finds no memory.
pub fn save(alloc: Global, groups: &Groups, out: &mut Vec<u8>) -> Result<(), AllocError>
    ensures ok { OnOk result (out.new.items ≡ out.old.items ++ groups_spelling groups.now) }
    ensures lawful { OnOk result (AreSpellable groups.now) }
{
    put_u32(alloc, groups.len() as u32, out)?;
    for group in groups.in_order() {
        put_group(alloc, group, out)?;
    }
    Ok(())
}

fn put_group(alloc: Global, group: &OpenGroup, out: &mut Vec<u8>) -> Result<(), AllocError>
    requires { IsOpen (group_seen group.now) }
    ensures ok { OnOk result (out.new.items ≡ out.old.items ++ group_spelling (group_seen group.now)) }
    ensures lawful { OnOk result (KeepsRules (group_seen group.now)) }
{
    put_text(alloc, &group.source, out)?;
    put_u32(alloc, group.entries, out)?;
    put_bytes(alloc, group.text.as_str().as_bytes(), out)?;
    put_entry(alloc, &group.base, out)
}

/// The groups that are spelled at a place, and the place behind them. Malformed at the first byte that can't be, or at the
/// end where only more is missing: more than [`GROUP_LIMIT`] groups at their number, a count of entries that is 0 or above
/// [`BATCH_LIMIT`] at that number, and a source that a group before has at the first byte of its spelling.
pub fn restore(alloc: Global, bytes: &[u8], at: usize) -> Result<(Groups, usize), CodecFault>
    ensures { Restores bytes.now at result }
{
    let (count, first) = get_count(bytes, at)?;
    let mut groups = Groups::new(alloc);
    let mut place = first;
    for _index in 0..count {
        let (group, next) = get_group(alloc, bytes, place, &groups)?;
        if groups.push(group).is_err() {
            return Err(CodecFault::Memory);
        }
        place = next;
    }
    Ok((groups, place))
}

/// A group at a place, behind others.
fn get_group(
    alloc: Global,
    bytes: &[u8],
    at: usize,
    before: &Groups,
) -> Result<(Box<OpenGroup>, usize), CodecFault>
    ensures { Finds held_seen (group_at before.now) bytes.now at result }
{
    let (source, next) = get_source(alloc, bytes, at, before)?;
    let (entries, next) = get_entries(bytes, next)?;
    let (text, next) = get_text(alloc, bytes, next)?;
    let (base, next) = get_entry(alloc, bytes, next)?;
    match String::from_str(alloc, text.as_str()) {
        Ok(text) => {
            let group = OpenGroup {
                source,
                entries,
                text,
                base,
            };
            match Box::new(alloc, group) {
                Ok(group) => Ok((group, next)),
                Err(_) => Err(CodecFault::Memory),
            }
        }
        Err(AllocError) => Err(CodecFault::Memory),
    }
}

/// The source of a group at a place, which none before it has.
fn get_source(
    alloc: Global,
    bytes: &[u8],
    at: usize,
    before: &Groups,
) -> Result<(Text, usize), CodecFault>
    ensures { Finds (λ text. text) (source_at before.now) bytes.now at result }
{
    let (source, next) = get_text(alloc, bytes, at)?;
    match before.place_of(&source) {
        Some(_place) => Err(CodecFault::Malformed { at }),
        None => Ok((source, next)),
    }
}

/// The number of groups at a place.
fn get_count(bytes: &[u8], at: usize) -> Result<(u32, usize), CodecFault>
    ensures told { Finds (λ n. n) (number_within 0 group_limit) bytes.now at result }
    ensures few { IfOk result (λ x. x.0 ≤ group_limit) }
{
    let (count, next) = get_u32(bytes, at)?;
    if count as usize > GROUP_LIMIT {
        return Err(CodecFault::Malformed { at });
    }
    Ok((count, next))
}

/// How many entries a group at a place has.
fn get_entries(bytes: &[u8], at: usize) -> Result<(u32, usize), CodecFault>
    ensures { Finds (λ n. n) (number_within 1 batch_limit) bytes.now at result }
{
    let (entries, next) = get_u32(bytes, at)?;
    if entries < 1 || entries > BATCH_LIMIT {
        return Err(CodecFault::Malformed { at });
    }
    Ok((entries, next))
}
