// The checkpoint that a base and records say.
ghost use Rattle.std.specs.Prelude.{◌≡◌, ◌≢◌, ℕ, ◌+◌, ◌≤◌, length, map, sum_by, slice_index, Err, IfOk};
ghost use Rattle.slot_store.specs.Frame.{last_number};
ghost use Rattle.record_log.specs.LogOf.{log_size};
ghost use Rattle.checkpoint_store.specs.Applied.{SpellsChange};
ghost use Rattle.checkpoint_store.specs.Decodes.{Spells, SpellsNone};
ghost use Rattle.checkpoint_store.specs.Rules.{IsVersion};
ghost use Rattle.checkpoint_journal.specs.Inner.Places.{FailsBehind, NoChangeAt, IsTold};
ghost use Rattle.checkpoint_journal.specs.Says.{AreChanges, Says, Fails};

use crate::fault::JournalFault;
use checkpoint_store::{Checkpoint, apply, decode};
use slot_store::frame::HEAD_SIZE;
use state_codec::CodecFault;
use std::alloc::Global;

/// The checkpoint of a base and the records behind it. Places past the last number of 64 bits are told as that.
pub fn checkpoint_of(
    alloc: Global,
    base: &[u8],
    records: &[Vec<u8>],
) -> Result<Checkpoint, JournalFault>
    ensures says { IfOk result (λ checkpoint. Says (slice_index base.now 0) base.now (map (λ payload. payload.items) records.now) checkpoint) }
    ensures bad { (at : ℕ) → result ≡ Err (JournalFault.Bad at) → log_size base.now (map (λ payload. payload.items) records.now) ≤ last_number
        → Fails base.now (map (λ payload. payload.items) records.now) at }
    ensures no_disk { result ≢ Err JournalFault.Disk }
{
    let first = first_of(alloc, base)?;
    let version = version_of(base);
    with_changes(alloc, version, first, base.len() as u64, records)
}

/// The first byte of a base, which is its version; 0 where there is none.
pub fn version_of(base: &[u8]) -> u8
    ensures { result ≡ slice_index base.now 0 }
{
    match base {
        [version, ..] => *version,
        [] => 0,
    }
}

// The checkpoint of a base alone.
fn first_of(alloc: Global, base: &[u8]) -> Result<Checkpoint, JournalFault>
    ensures spells { IfOk result (λ checkpoint. Spells base.now checkpoint) }
    ensures bad { (at : ℕ) → result ≡ Err (JournalFault.Bad at) → length base.now ≤ last_number → SpellsNone base.now at }
    ensures no_disk { result ≢ Err JournalFault.Disk }
{
    match decode(alloc, base) {
        Ok(checkpoint) => Ok(checkpoint),
        Err(fault) => Err(told(0, fault)),
    }
}

// What the records under a base of this version make of a checkpoint. The first of them begins at this place.
fn with_changes(
    alloc: Global,
    version: u8,
    first: Checkpoint,
    begin: u64,
    records: &[Vec<u8>],
) -> Result<Checkpoint, JournalFault>
    requires { IsVersion version }
    ensures changes { IfOk result (λ checkpoint. AreChanges version first (map (λ payload. payload.items) records.now) checkpoint) }
    ensures bad { (at : ℕ) → result ≡ Err (JournalFault.Bad at)
        → begin + sum_by (λ payload. length payload + 17) (map (λ payload. payload.items) records.now) ≤ last_number
        → FailsBehind version begin first (map (λ payload. payload.items) records.now) at }
    ensures no_disk { result ≢ Err JournalFault.Disk }
{
    let mut checkpoint = first;
    let mut place = begin;
    for payload in records {
        let start = place.saturating_add(HEAD_SIZE);
        checkpoint = changed(alloc, version, checkpoint, start, payload)?;
        place = start.saturating_add(payload.len() as u64);
    }
    Ok(checkpoint)
}

// What one record under a base of this version makes of a checkpoint. Its payload begins at this place.
fn changed(
    alloc: Global,
    version: u8,
    before: Checkpoint,
    start: u64,
    payload: &[u8],
) -> Result<Checkpoint, JournalFault>
    requires { IsVersion version }
    ensures changed { IfOk result (λ after. SpellsChange version before payload.now after) }
    ensures bad { (at : ℕ) → result ≡ Err (JournalFault.Bad at) → start + length payload.now ≤ last_number → NoChangeAt version start before payload.now at }
    ensures no_disk { result ≢ Err JournalFault.Disk }
{
    match apply(alloc, version, before, payload) {
        Ok(after) => Ok(after),
        Err(fault) => Err(told(start, fault)),
    }
}

// A fault in bytes that begin at this place.
fn told(start: u64, fault: CodecFault) -> JournalFault
    ensures { IsTold start fault result }
{
    match fault {
        CodecFault::Malformed { at } => JournalFault::Bad {
            at: start.saturating_add(at as u64),
        },
        CodecFault::Memory => JournalFault::Memory,
    }
}
