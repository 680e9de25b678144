ghost use Rattle.std.specs.Prelude.{◌≡◌, ◌≤◌, ℕ, List, length, IsTrue, IfOk};
ghost use Rattle.mem_world.specs.MemDisk.{disk_images};
ghost use Rattle.checkpoint_journal.specs.JournalOf.{EndsWith};
ghost use Rattle.checkpoint_store.specs.Fits.{Fits};
ghost use Rattle.checkpoint_store.specs.Limits.{newest};
ghost use Rattle.checkpoint_store.specs.Parts.{change_of_parts};
ghost use Rattle.checkpoint_store.specs.Rules.{IsCheckpoint, KeepsRules, beside_of};
ghost use Rattle.checkpoint_store.specs.declared.Checkpoint.{Checkpoint};
ghost use Rattle.slot_store.specs.ChosenSlot.{IsSlotFile};
ghost use Rattle.slot_store.specs.Synced.{EachLeft};

use crate::slots::{Fault, Told};
use checkpoint_journal::{Journal, JournalFault, peek, rewrite};
use checkpoint_store::laws::older_checkpoints_are_newest;
use checkpoint_store::{Change, ChangeParts, Checkpoint, NEWEST_VERSION, Rows, encode_change};
use entry_model::Text;
use file_tracker::{Bytes, Ends, Row};
use mem_world::MemDisk;
use outside::DiskFile;
use slot_store::CommitFault;
use state_codec::put_text;
use std::alloc::{AllocError, Global};
use std::test::Fail;

// Settings `{}`, an output of no bytes, and no rows, by version 1, 2 and 3.
const EMPTY: &[u8] = b"\x01\0\0\0\x02{}\0\0\0\0\0\0\0\0\0\0\0\x01\0\0\0\0";

const EMPTY_2: &[u8] = b"\x02\0\0\0\x02{}\0\0\0\0\0\0\0\0\0\0\0\0\0\0\0\0\0\0\0\x01\0\0\0\0";

const EMPTY_3: &[u8] =
    b"\x03\0\0\0\x01\0\0\0\x02{}\0\0\0\0\0\0\0\0\0\0\0\0\0\0\0\0\0\0\0\x01\0\0\0\0";

// Under a base of version 1 an output of 4, 9 and 20 bytes, and no rows.
const FOUR: &[u8] = b"\0\0\0\0\0\0\0\x04\0\0\0\x01\0\0\0\0";

const NINE: &[u8] = b"\0\0\0\0\0\0\0\x09\0\0\0\x01\0\0\0\0";

const TWENTY: &[u8] = b"\0\0\0\0\0\0\0\x14\0\0\0\x01\0\0\0\0";

// Under a base of a later version an output of 4 bytes at time 5, of 9 bytes at times 5 and 4, and no rows.
const FOUR_AT_5: &[u8] = b"\0\0\0\0\0\0\0\x04\0\0\0\0\0\0\0\x05\0\0\0\x01\0\0\0\0";

const NINE_AT_5: &[u8] = b"\0\0\0\0\0\0\0\x09\0\0\0\0\0\0\0\x05\0\0\0\x01\0\0\0\0";

const NINE_AT_4: &[u8] = b"\0\0\0\0\0\0\0\x09\0\0\0\0\0\0\0\x04\0\0\0\x01\0\0\0\0";

// What is found: nothing, a byte that has no reading, or an output length, a sequence number and a place.
#[derive(Clone, Copy, Debug, PartialEq)]
enum Found {
    Nothing,
    Bad(u64),
    Ends(u64, u64, u64),
}

// A disk whose first slot has these frames, one behind another, and whose second is empty. Nothing is left to sync.
fn disk_of(alloc: Global, frames: &[Told]) -> Result<MemDisk, Fail> {
    let mut disk = MemDisk::new(alloc)?;
    let mut bytes = Vec::new(alloc);
    for frame in frames {
        bytes.extend_from_slice(&frame.bytes(alloc)?)?;
    }
    disk.put(alloc, DiskFile::Output, b"line\n")?;
    disk.put(alloc, DiskFile::SlotA, &bytes)?;
    Ok(disk)
}

fn found_in(alloc: Global, disk: &mut MemDisk) -> Result<Found, Fail> {
    match peek(alloc, disk) {
        Ok(None) => Ok(Found::Nothing),
        Ok(Some((journal, checkpoint))) => Ok(Found::Ends(
            checkpoint.output_length,
            journal.sequence,
            journal.end,
        )),
        Err(JournalFault::Bad { at }) => Ok(Found::Bad(at)),
        Err(fault) => Err(Fail::from(fault)),
    }
}

const BASE: Told = Told(0xa5, 7, 23, EMPTY);

const ONE_MORE: Told = Told(0xa5, 8, 16, NINE);

const BASE_2: Told = Told(0xa5, 7, 31, EMPTY_2);

const BASE_3: Told = Told(0xa5, 7, 35, EMPTY_3);

const TABLE: [(&[Told], Found); 33] = [
    (&[], Found::Nothing),
    (&[Told(0, 7, 23, EMPTY)], Found::Nothing),
    (&[Told(0xa5, 7, 1 << 62, EMPTY)], Found::Nothing),
    (&[BASE], Found::Ends(0, 7, 40)),
    (&[BASE, ONE_MORE], Found::Ends(9, 8, 73)),
    (
        &[BASE, Told(0xa5, 8, 16, FOUR), Told(0xa5, 9, 16, NINE)],
        Found::Ends(9, 9, 106),
    ),
    // A closed or a torn gate, a gap in the sequence numbers, a length that passes the file or all numbers.
    (
        &[BASE, Told(0, 8, 16, NINE), Told(0xa5, 9, 16, TWENTY)],
        Found::Ends(0, 7, 40),
    ),
    (
        &[BASE, ONE_MORE, Told(0x5a, 9, 16, TWENTY)],
        Found::Ends(9, 8, 73),
    ),
    (
        &[BASE, ONE_MORE, Told(0xff, 9, 16, TWENTY)],
        Found::Ends(9, 8, 73),
    ),
    (
        &[BASE, ONE_MORE, Told(0xa5, 10, 16, TWENTY)],
        Found::Ends(9, 8, 73),
    ),
    (&[BASE, Told(0xa5, 8, 17, NINE)], Found::Ends(0, 7, 40)),
    (&[BASE, Told(0xa5, 8, 1 << 62, NINE)], Found::Ends(0, 7, 40)),
    (
        &[BASE, Told(0xa5, 8, u64::MAX, NINE)],
        Found::Ends(0, 7, 40),
    ),
    // Bases of later versions, and changes under them.
    (&[BASE_2], Found::Ends(0, 7, 48)),
    (&[BASE_3], Found::Ends(0, 7, 52)),
    (
        &[BASE_2, Told(0xa5, 8, 24, FOUR_AT_5)],
        Found::Ends(4, 8, 89),
    ),
    (
        &[
            BASE_3,
            Told(0xa5, 8, 24, FOUR_AT_5),
            Told(0xa5, 9, 24, NINE_AT_5),
        ],
        Found::Ends(9, 9, 134),
    ),
    // A time that falls, and a change of another version than the base's.
    (
        &[
            BASE_2,
            Told(0xa5, 8, 24, FOUR_AT_5),
            Told(0xa5, 9, 24, NINE_AT_4),
        ],
        Found::Bad(31 + 41 + 17 + 8),
    ),
    (
        &[
            BASE_3,
            Told(0xa5, 8, 24, FOUR_AT_5),
            Told(0xa5, 9, 24, NINE_AT_4),
        ],
        Found::Bad(35 + 41 + 17 + 8),
    ),
    (&[BASE_3, Told(0xa5, 8, 16, NINE)], Found::Bad(35 + 17 + 16)),
    (
        &[BASE, Told(0xa5, 8, 24, NINE_AT_5)],
        Found::Bad(23 + 17 + 8),
    ),
    // A base of no version, and of a version alone, one of no bytes, and one with a byte behind it.
    (&[Told(0xa5, 1, 1, b"\x00")], Found::Bad(0)),
    (&[Told(0xa5, 1, 1, b"\x04")], Found::Bad(0)),
    (&[Told(0xa5, 1, 1, b"\x09")], Found::Bad(0)),
    (&[Told(0xa5, 1, 1, b"\x02")], Found::Bad(1)),
    (&[Told(0xa5, 1, 1, b"\x03")], Found::Bad(1)),
    (&[Told(0xa5, 1, 0, b"")], Found::Bad(0)),
    (&[BASE, Told(0xa5, 8, 0, b"")], Found::Bad(40)),
    // A record that takes the output back, one that is short, one with a byte behind it, and one without a new row.
    (
        &[BASE, ONE_MORE, Told(0xa5, 9, 16, FOUR)],
        Found::Bad(23 + 33 + 17),
    ),
    (
        &[
            BASE,
            Told(0xa5, 8, 15, b"\0\0\0\0\0\0\0\x09\0\0\0\x01\0\0\0"),
        ],
        Found::Bad(23 + 17 + 15),
    ),
    (
        &[
            BASE,
            Told(0xa5, 8, 17, b"\0\0\0\0\0\0\0\x09\0\0\0\x01\0\0\0\0\0"),
        ],
        Found::Bad(23 + 17 + 16),
    ),
    (
        &[
            BASE,
            Told(0xa5, 8, 16, b"\0\0\0\0\0\0\0\x09\0\0\0\x02\0\0\0\0"),
        ],
        Found::Bad(23 + 17 + 12),
    ),
    (
        &[
            BASE,
            ONE_MORE,
            Told(0xa5, 9, 16, TWENTY),
            Told(0xa5, 10, 16, b"\0\0\0\0\0\0\0\x15\0\0\0\0\0\0\0\0"),
        ],
        Found::Bad(23 + 33 + 33 + 17 + 8),
    ),
];

#[test]
fn a_peek_finds_the_checkpoint_or_the_first_byte_that_cannot_be(
    rt: HostRuntime,
) -> Result<(), Fail> {
    let alloc = rt.alloc();
    for (frames, expected) in TABLE {
        let mut disk = disk_of(alloc, frames)?;
        assert_eq!(rt; found_in(alloc, &mut disk)?, expected);
    }
    Ok(())
}

// Settings of no bytes, an output of 9 bytes, and one row: id 1, path `a`, front `b`, start 1, offset 3, records 2,
// lines 9, no state. It was born under these settings, and has no ends.
const ONE_ROW: &[u8] =
    b"\x03\0\0\0\x01\0\0\0\0\0\0\0\0\0\0\0\x09\0\0\0\0\0\0\0\0\0\0\0\x02\0\0\0\x01\
\0\0\0\x01\0\0\0\x01a\0\0\0\x01b\0\0\0\0\0\0\0\x01\0\0\0\0\0\0\0\x03\0\0\0\0\0\0\0\x02\0\0\0\0\0\0\0\x09\0\0\0\0\
\0\0\0\x01\0\0\0\0\0\0\0\0\0\0\0\0\0\0\0\0";

// The same by version 1.
const OLDER: &[u8] = b"\x01\0\0\0\0\0\0\0\0\0\0\0\x09\0\0\0\x02\0\0\0\x01\
\0\0\0\x01\0\0\0\x01a\0\0\0\x01b\0\0\0\0\0\0\0\x01\0\0\0\0\0\0\0\x03\0\0\0\0\0\0\0\x02\0\0\0\0\0\0\0\x09\0\0\0\0";

// A disk at rest, its journal and its checkpoint.
#[derive(Drop)]
struct AtRest {
    disk: MemDisk,
    journal: Journal,
    checkpoint: Checkpoint,
}

// What is found on the disk after a crash, where the file ends with the journal.
fn opened(alloc: Global, disk: MemDisk) -> Result<AtRest, Fail>
    ensures stands { IfOk result (λ opened. EachLeft disk_images opened.disk (EndsWith opened.journal opened.checkpoint)) }
    ensures file { IfOk result (λ opened. IsSlotFile opened.journal.slot.file) }
{
    let mut disk = disk.crash(alloc, 0)?;
    match peek(alloc, &mut disk)? {
        Some((journal, checkpoint)) => {
            if disk.bytes(journal.slot.file).len() as u64 != journal.end {
                return Err(Fail::from("more behind the journal"));
            }
            Ok(AtRest {
                disk,
                journal,
                checkpoint,
            })
        }
        None => Err(Fail::from("no journal")),
    }
}

// The checkpoint that is found on a disk with this frame.
fn checkpoint_in(alloc: Global, frame: Told) -> Result<Checkpoint, Fail>
    ensures { IfOk result (λ checkpoint. IsCheckpoint newest checkpoint) }
{
    older_checkpoints_are_newest();
    match peek(alloc, &mut disk_of(alloc, &[frame])?)? {
        Some((_, checkpoint)) => Ok(checkpoint),
        None => Err(Fail::from("no journal")),
    }
}

// The row of ONE_ROW, 2 bytes, 1 record and 3 lines further.
fn row(alloc: Global) -> Result<Row, Fail>
    ensures rules { IfOk result (λ row. (eras : List (List ℕ)) → length eras ≡ 1 → KeepsRules (beside_of newest eras 12) row) }
    ensures id { IfOk result (λ row. row.id ≡ 1) }
{
    let path = Text::from_str(alloc, "a")?;
    put_text(alloc, &path, &mut Vec::new(alloc))?;
    Ok(Row {
        id: 1,
        path,
        front: Bytes::from_slice(alloc, b"b")?,
        start: 1,
        offset: 5,
        records: 3,
        lines: 12,
        state: Bytes::from_slice(alloc, b"")?,
        born: 1,
        ends: Ends::none(alloc),
        seen: 0,
        quiet: 0,
    })
}

// A change of that row, with an output of 12 bytes at time 5.
fn change(alloc: Global) -> Result<Change, Fail>
    ensures fits { IfOk result (λ change. (before : Checkpoint) → length before.eras ≡ 1 → before.output_length ≤ 12
        → before.observed ≤ 5 → before.next_id ≡ 2 → Fits newest before change) }
    ensures one { IfOk result (λ change. length change.rows ≡ 1) }
{
    let mut rows = Vec::new(alloc);
    rows.push(row(alloc)?)?;
    Ok(Change {
        output_length: 12,
        observed: 5,
        next_id: 2,
        rows: Rows::new(rows),
    })
}

// That one row changed.
const CHANGED: &[bool] = &[true];

// The change of one row, in parts.
fn parts_of(change: &Change) -> ChangeParts<'_>
    requires { length change.now.rows ≡ 1 }
    ensures { change_of_parts result ≡ change.now }
{
    ChangeParts {
        output_length: change.output_length,
        observed: change.observed,
        next_id: change.next_id,
        rows: change.rows.as_slice(),
        changed: CHANGED,
    }
}

// Whether the change fits behind the checkpoint, and is written by the version of the journal.
fn is_next(journal: Journal, checkpoint: &Checkpoint) -> bool
    ensures { IsTrue result → (journal.version ≡ newest) × (journal.end ≤ 1000) × (length checkpoint.now.eras ≡ 1)
        × (checkpoint.now.output_length ≤ 12) × (checkpoint.now.observed ≤ 5) × (checkpoint.now.next_id ≡ 2) }
{
    journal.version == NEWEST_VERSION
        && journal.end <= 1_000
        && checkpoint.eras.as_slice().len() == 1
        && checkpoint.output_length <= 12
        && checkpoint.observed <= 5
        && checkpoint.next_id == 2
}

// The append of the change to what was found, with a fault.
fn append(
    alloc: Global,
    opened: AtRest,
    fault: Fault,
) -> Result<(Result<Journal, CommitFault>, MemDisk), Fail>
    requires stands { EachLeft disk_images opened.disk (EndsWith opened.journal opened.checkpoint) }
    requires file { IsSlotFile opened.journal.slot.file }
{
    let AtRest {
        mut disk,
        journal,
        checkpoint,
    } = opened;
    let change = change(alloc)?;
    let parts = parts_of(&change);
    let mut spelled = Vec::new(alloc);
    encode_change(alloc, &parts, &mut spelled)?;
    if spelled.len() > 1_000 {
        return Err(Fail::from("too long"));
    }
    if !is_next(journal, &checkpoint) {
        return Err(Fail::from("another checkpoint, or an older version"));
    }
    fault.set(alloc, &mut disk)?;
    let result = journal.append(alloc, &mut disk, &parts);
    Ok((result, disk))
}

const ROW: Told = Told(0xa5, 7, 103, ONE_ROW);

// An output of 10 bytes at time 0, and no row that differs.
const TEN: Told = Told(
    0xa5,
    8,
    24,
    b"\0\0\0\0\0\0\0\x0a\0\0\0\0\0\0\0\0\0\0\0\x02\0\0\0\0",
);

// The output length, how far the only row is, and the sequence number.
fn state_of(alloc: Global, disk: &mut MemDisk) -> Result<(u64, u64, u64), Fail> {
    let (journal, checkpoint) = peek(alloc, disk)?.ok_or("no journal")?;
    let row = checkpoint.rows.as_slice().first().ok_or("no row")?;
    Ok((checkpoint.output_length, row.offset, journal.sequence))
}

const BEFORE: (u64, u64, u64) = (10, 3, 8);

const AFTER: (u64, u64, u64) = (12, 5, 9);

fn crashed_append(alloc: Global, fault: Fault, outcome: u32) -> Result<(bool, MemDisk), Fail> {
    let opened = opened(alloc, disk_of(alloc, &[ROW, TEN])?)?;
    let (result, disk) = append(alloc, opened, fault)?;
    Ok((result.is_ok(), disk.crash(alloc, outcome)?))
}

fn crashed_rewrite(alloc: Global, fault: Fault, outcome: u32) -> Result<(bool, MemDisk), Fail> {
    let mut disk = disk_of(alloc, &[ROW, TEN])?;
    let (journal, _) = peek(alloc, &mut disk)?.ok_or("no journal")?;
    let checkpoint = checkpoint_in(alloc, NEXT)?;
    fault.set(alloc, &mut disk)?;
    let result = rewrite(alloc, Some(journal), &mut disk, &checkpoint.parts());
    Ok((result.is_ok(), disk.crash(alloc, outcome)?))
}

// The checkpoint of ONE_ROW, changed.
const NEXT: Told = Told(
    0xa5,
    1,
    103,
    b"\x03\0\0\0\x01\0\0\0\0\0\0\0\0\0\0\0\x0c\0\0\0\0\0\0\0\x05\0\0\0\x02\0\0\0\x01\
\0\0\0\x01\0\0\0\x01a\0\0\0\x01b\0\0\0\0\0\0\0\x01\0\0\0\0\0\0\0\x05\0\0\0\0\0\0\0\x03\0\0\0\0\0\0\0\x0c\0\0\0\0\
\0\0\0\x01\0\0\0\0\0\0\0\0\0\0\0\0\0\0\0\0",
);

#[test]
fn a_stop_leaves_the_checkpoint_before_or_after(rt: HostRuntime) -> Result<(), Fail> {
    let alloc = rt.alloc();
    for calls in 0..9u32 {
        for outcome in 0..5u32 {
            let (appended, mut disk) = crashed_append(alloc, Fault::Stop(calls), outcome)?;
            assert_eq!(rt; appended, calls >= 6, "after {calls} calls");
            // The fifth call opens the gate, and outcome 1 leaves it as it was written.
            let is_after = calls >= 6 || calls >= 4 && outcome == 1;
            let state = state_of(alloc, &mut disk)?;
            assert_eq!(rt;
                state,
                if is_after { AFTER } else { BEFORE },
                "{calls} calls, outcome {outcome}"
            );

            let (rewritten, mut disk) = crashed_rewrite(alloc, Fault::Stop(calls), outcome)?;
            assert_eq!(rt; rewritten, calls == 8, "after {calls} calls");
            // The seventh call opens the gate.
            let is_after = calls == 8 || calls >= 6 && outcome == 1;
            let state = state_of(alloc, &mut disk)?;
            assert_eq!(rt;
                state,
                if is_after { AFTER } else { BEFORE },
                "{calls} calls, outcome {outcome}"
            );
            assert_eq!(rt; disk.bytes(DiskFile::Output), b"line\n".as_slice());
        }
    }
    Ok(())
}

#[test]
fn a_failing_call_leaves_the_checkpoint_before_or_after(rt: HostRuntime) -> Result<(), Fail> {
    let alloc = rt.alloc();
    for call in 1..9u32 {
        for outcome in 0..5u32 {
            let (appended, mut disk) = crashed_append(alloc, Fault::Fails(call), outcome)?;
            assert_eq!(rt; appended, call > 6, "call {call} failed");
            // The sixth call is the sync of the gate.
            let is_after = call > 6 || call == 6 && outcome == 1;
            let state = state_of(alloc, &mut disk)?;
            assert_eq!(rt;
                state,
                if is_after { AFTER } else { BEFORE },
                "call {call}, outcome {outcome}"
            );

            let (rewritten, mut disk) = crashed_rewrite(alloc, Fault::Fails(call), outcome)?;
            assert!(rt; !rewritten, "call {call} failed");
            // The eighth call is the sync of the gate.
            let is_after = call == 8 && outcome == 1;
            let state = state_of(alloc, &mut disk)?;
            assert_eq!(rt;
                state,
                if is_after { AFTER } else { BEFORE },
                "call {call}, outcome {outcome}"
            );
        }
    }
    Ok(())
}

#[test]
fn a_worn_journal_is_left_as_it_is(rt: HostRuntime) -> Result<(), Fail> {
    let alloc = rt.alloc();
    let worn = Told(0xa5, u64::MAX, 103, ONE_ROW);
    let opened = opened(alloc, disk_of(alloc, &[worn])?)?;
    let journal = opened.journal;
    let (result, mut disk) = append(alloc, opened, Fault::Stop(0))?;
    assert_eq!(rt; result, Err(CommitFault::Worn { sequence: u64::MAX }));
    let checkpoint = checkpoint_in(alloc, NEXT)?;
    let result = rewrite(alloc, Some(journal), &mut disk, &checkpoint.parts());
    assert_eq!(rt; result, Err(CommitFault::Worn { sequence: u64::MAX }));
    assert_eq!(rt; disk.bytes(DiskFile::SlotA), worn.bytes(alloc)?.as_slice());
    assert!(rt; disk.bytes(DiskFile::SlotB).is_empty());
    Ok(())
}

#[test]
fn a_first_checkpoint_and_a_change_are_spelled(rt: HostRuntime) -> Result<(), Fail> {
    let alloc = rt.alloc();
    for read in [ROW, Told(0xa5, 7, 71, OLDER)] {
        let checkpoint = checkpoint_in(alloc, read)?;
        let mut disk = MemDisk::new(alloc)?;
        let journal = rewrite(alloc, None, &mut disk, &checkpoint.parts())?;
        assert_eq!(rt; journal.slot.file, DiskFile::SlotA);
        assert_eq!(rt; journal.sequence, 1);
        assert_eq!(rt; journal.end, 120);
        let (result, disk) = append(alloc, opened(alloc, disk)?, Fault::Fails(9))?;
        assert_eq!(rt; result?.end, 120 + 17 + 94);
        assert_eq!(rt;
            disk.bytes(DiskFile::SlotA),
            base_and_change(alloc)?.as_slice()
        );
        assert!(rt; disk.bytes(DiskFile::SlotB).is_empty());
    }
    Ok(())
}

// ONE_ROW as a base, and the change behind it.
fn base_and_change(alloc: Global) -> Result<Vec<u8>, AllocError> {
    let mut bytes = Told(0xa5, 1, 103, ONE_ROW).bytes(alloc)?;
    let head = Told(
        0xa5,
        2,
        94,
        b"\0\0\0\0\0\0\0\x0c\0\0\0\0\0\0\0\x05\0\0\0\x02\0\0\0\x01",
    );
    bytes.extend_from_slice(&head.bytes(alloc)?)?;
    bytes.extend_from_slice(
        b"\0\0\0\x01\0\0\0\x01a\0\0\0\x01b\0\0\0\0\0\0\0\x01\0\0\0\0\0\0\0\x05\0\0\0\0\0\0\0\x03\0\0\0\0\0\0\0\x0c\0\0\0\0",
    )?;
    bytes.extend_from_slice(b"\0\0\0\x01\0\0\0\0\0\0\0\0\0\0\0\0\0\0\0\0")?;
    Ok(bytes)
}
