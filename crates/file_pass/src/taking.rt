// The pass over the paths.
ghost use Rattle.std.specs.Prelude.{◌≡◌, ◌+◌, ◌⊎◌, ℕ, ◌<◌, ◌≤◌, ◌^◌, [], List, false, true, length, nat_lt, slice_get, slice_set, Contains, Err, IsTrue, Some, IfOk, OnOk};
ghost use Rattle.file_pass.specs.AllTaken.{TakesAll, TakesOne};
ghost use Rattle.file_pass.specs.DiskTerms.{KeepsDisk};
ghost use Rattle.file_pass.specs.Fed.{poll_of, feeding_row, rules_in};
ghost use Rattle.file_pass.specs.Full.{overflow};
ghost use Rattle.file_pass.specs.LookTaken.{OpenTaken, SeenTaken};
ghost use Rattle.file_pass.specs.Moment.{meanings, moment, rows_at, taking_at};
ghost use Rattle.file_pass.specs.Inner.Noted.{MayBeNoted, noted_row};
ghost use Rattle.file_pass.specs.Overflow.{AllFill, OpenFills, PathFills, RowFills, SeenFills};
ghost use Rattle.file_pass.specs.PassCause.{HasPassCause};
ghost use Rattle.file_pass.specs.PathTaken.{PathTaken};
ghost use Rattle.file_pass.specs.Inner.RowTaken.{RowTaken};
ghost use Rattle.file_pass.specs.Sane.{IsSaneTaking};
ghost use Rattle.file_pass.specs.Taken.{Finds, KeepsTreeAt};
ghost use Rattle.file_pass.specs.Unchanged.{FlagsChanges, FlagsGrown};
ghost use Rattle.file_tracker.specs.declared.row.Row.{Row};
ghost use Rattle.op_kinds.specs.StateTexts.{state_text};
ghost use Rattle.outside.specs.World.{Told};
ghost use Rattle.outside.specs.declared.disk.DiskFile.{DiskFile};
ghost use Rattle.pipeline.specs.Parts.{HaveKinds, settings_of};
ghost use Rattle.pipeline.specs.RowStates.{IsStateOf};
ghost use Rattle.settings_text.specs.Limits.{KeepsLimits};
ghost use Rattle.standing.specs.Rules.{Includes};
ghost use Rattle.state_codec.specs.Rules.{IsShortText};

use crate::counts::Counts;
use crate::ending::{Ending, OpenFile, PathFile, RowFile, SeenFile};
use crate::fault::PassFault;
use crate::feeding::{Feeding, MOST_TAKEN, feed_file};
use crate::found::Found;
use crate::front::read_front;
use crate::looks::{flag_looks, idle, looks_at};
use crate::settling::settle;
use crate::setup::Setup;
use crate::spelled::spelled;
use entry_model::Text;
use file_tracker::{Row, Tracker};
use outside::{CallFault, Disk, Opened, Tree};
use pipeline::FileState;
use pipeline::laws::{a_pipeline_is_rules, a_row_tells_its_state};
use state_codec::CodecFault;
use std::alloc::AllocError;

// How many bytes are read at once.
const BUFFER_SIZE: usize = 65_536;

// How many of a file's first bytes are read at most to know it.
const FRONT_SIZE: usize = 4_096;

/// What a pass has made so far.
#[derive(Drop)]
pub struct Taking {
    pub tracker: Tracker,
    /// Which rows are new or differ from those at the pass's begin, by place.
    pub changed: Vec<bool>,
    /// Where the output ends, in bytes.
    pub end: u64,
    pub counts: Counts,
}

/// Takes the paths in turn: opens each, finds its file's row by the file's first bytes, reads the file on from the row's
/// offset, and puts the lines of what was read behind the output.
///
/// Of a file at most 16 MiB are taken. `Disk` comes only where a call on the disk failed; `OutputFull` where the output with
/// the next line would be longer than the limit. After a fault the rows are of no use.
pub fn take_all<T: Tree, D: Disk>(
    tree: &mut T,
    disk: &mut D,
    setup: &Setup<'_>,
    paths: &[Text],
    taking: &mut Taking,
) -> Result<(), PassFault>
    requires setup { KeepsLimits (settings_of setup.now.pipeline.now) × (setup.now.limit ≤ 2 ^ 40) }
    requires sane { IsSaneTaking setup.now taking.old }
    requires included { (path : List ℕ) → Contains paths.now path → Includes (rules_in setup.now) path }
    requires short { (path : List ℕ) → Contains paths.now path → IsShortText path }
    requires ends { IsTrue (D.meaning.images.tells disk.old) → length (D.meaning.images.seen disk.old DiskFile.Output) ≡ taking.old.end }
    ensures ok { OnOk result (TakesAll (meanings T.meaning D.meaning) setup.now paths.now (taking_at taking.old (moment tree.old disk.old)) (taking_at taking.new (moment tree.new disk.new))) }
    ensures sane { OnOk result (IsSaneTaking setup.now taking.new) }
    ensures flags { OnOk result (FlagsChanges taking.old taking.new) }
    ensures full { (size : ℕ) → result ≡ Err (PassFault.OutputFull size)
        → Told (AllFill (poll_of setup.now) (overflow setup.now.limit taking.old.end size) paths.now taking.old.tracker) (T.meaning.world tree.old) (T.meaning.world tree.new) }
    ensures tree { KeepsTreeAt T.meaning BUFFER_SIZE tree.old tree.new }
    ensures disk { KeepsDisk D.meaning taking.old.end disk.old disk.new }
    ensures cause { HasPassCause result (D.meaning.faults disk.old) (D.meaning.faults disk.new) }
{
    let looks = looks_at(setup, &taking.tracker)?;
    take_each(tree, disk, setup, paths, taking)?;
    flag_looks(&looks, &taking.tracker, &mut taking.changed);
    Ok(())
}

// Takes the paths in turn, and flags the rows that are new or have grown.
fn take_each<T: Tree, D: Disk>(
    tree: &mut T,
    disk: &mut D,
    setup: &Setup<'_>,
    paths: &[Text],
    taking: &mut Taking,
) -> Result<(), PassFault>
    requires setup { KeepsLimits (settings_of setup.now.pipeline.now) × (setup.now.limit ≤ 2 ^ 40) }
    requires sane { IsSaneTaking setup.now taking.old }
    requires included { (path : List ℕ) → Contains paths.now path → Includes (rules_in setup.now) path }
    requires short { (path : List ℕ) → Contains paths.now path → IsShortText path }
    requires ends { IsTrue (D.meaning.images.tells disk.old) → length (D.meaning.images.seen disk.old DiskFile.Output) ≡ taking.old.end }
    ensures ok { OnOk result (TakesAll (meanings T.meaning D.meaning) setup.now paths.now (taking_at taking.old (moment tree.old disk.old)) (taking_at taking.new (moment tree.new disk.new))) }
    ensures sane { OnOk result (IsSaneTaking setup.now taking.new) }
    ensures flags { OnOk result (FlagsGrown setup.now taking.old taking.new) }
    ensures full { (size : ℕ) → result ≡ Err (PassFault.OutputFull size)
        → Told (AllFill (poll_of setup.now) (overflow setup.now.limit taking.old.end size) paths.now taking.old.tracker) (T.meaning.world tree.old) (T.meaning.world tree.new) }
    ensures tree { KeepsTreeAt T.meaning BUFFER_SIZE tree.old tree.new }
    ensures disk { KeepsDisk D.meaning taking.old.end disk.old disk.new }
    ensures cause { HasPassCause result (D.meaning.faults disk.old) (D.meaning.faults disk.new) }
{
    taking.counts.stand();
    let mut buffer = vec![in setup.alloc; 0; FRONT_SIZE + BUFFER_SIZE]?;
    for path in paths {
        take_path(tree, disk, setup, path, taking, &mut buffer)?;
    }
    Ok(())
}

// Takes one path, and counts what was found there.
fn take_path<T: Tree, D: Disk>(
    tree: &mut T,
    disk: &mut D,
    setup: &Setup<'_>,
    path: &Text,
    taking: &mut Taking,
    buffer: &mut [u8],
) -> Result<(), PassFault>
    requires setup { KeepsLimits (settings_of setup.now.pipeline.now) × (setup.now.limit ≤ 2 ^ 40) }
    requires sane { IsSaneTaking setup.now taking.old }
    requires included { Includes (rules_in setup.now) path.now }
    requires short { IsShortText path.now }
    requires room { (FRONT_SIZE < length buffer.old) × (length buffer.old ≤ FRONT_SIZE + BUFFER_SIZE) }
    requires ends { IsTrue (D.meaning.images.tells disk.old) → length (D.meaning.images.seen disk.old DiskFile.Output) ≡ taking.old.end }
    ensures ok { OnOk result (TakesOne (meanings T.meaning D.meaning) setup.now path.now (taking_at taking.old (moment tree.old disk.old)) (taking_at taking.new (moment tree.new disk.new))) }
    ensures sane { OnOk result (IsSaneTaking setup.now taking.new) }
    ensures flags { OnOk result (FlagsGrown setup.now taking.old taking.new) }
    ensures full { (size : ℕ) → result ≡ Err (PassFault.OutputFull size)
        → Told (PathFills (poll_of setup.now) (overflow setup.now.limit taking.old.end size) path.now taking.old.tracker) (T.meaning.world tree.old) (T.meaning.world tree.new) }
    ensures tree { KeepsTreeAt T.meaning BUFFER_SIZE tree.old tree.new }
    ensures disk { KeepsDisk D.meaning taking.old.end disk.old disk.new }
    ensures cause { HasPassCause result (D.meaning.faults disk.old) (D.meaning.faults disk.new) }
    ensures long { length buffer.new ≡ length buffer.old }
{
    a_pipeline_is_rules(setup.pipeline);
    let found = open_path(tree, disk, setup, path, taking, buffer)?;
    taking.counts = taking.counts.with(found);
    Ok(())
}

// Opens one path, takes the file that has it, and closes it.
fn open_path<T: Tree, D: Disk>(
    tree: &mut T,
    disk: &mut D,
    setup: &Setup<'_>,
    path: &Text,
    taking: &mut Taking,
    buffer: &mut [u8],
) -> Result<Found, PassFault>
    requires setup { KeepsLimits (settings_of setup.now.pipeline.now) × (setup.now.limit ≤ 2 ^ 40) }
    requires sane { IsSaneTaking setup.now taking.old }
    requires included { Includes (rules_in setup.now) path.now }
    requires short { IsShortText path.now }
    requires room { (FRONT_SIZE < length buffer.old) × (length buffer.old ≤ FRONT_SIZE + BUFFER_SIZE) }
    requires ends { IsTrue (D.meaning.images.tells disk.old) → length (D.meaning.images.seen disk.old DiskFile.Output) ≡ taking.old.end }
    ensures ok { IfOk result (λ found. Finds (meanings T.meaning D.meaning) (PathTaken (poll_of setup.now) path.now) found
        (rows_at taking.old (moment tree.old disk.old)) (rows_at taking.new (moment tree.new disk.new))) }
    ensures counts { taking.new.counts ≡ taking.old.counts }
    ensures sane { OnOk result (IsSaneTaking setup.now taking.new) }
    ensures flags { OnOk result (FlagsGrown setup.now taking.old taking.new) }
    ensures full { (size : ℕ) → result ≡ Err (PassFault.OutputFull size)
        → Told (PathFills (poll_of setup.now) (overflow setup.now.limit taking.old.end size) path.now taking.old.tracker) (T.meaning.world tree.old) (T.meaning.world tree.new) }
    ensures tree { KeepsTreeAt T.meaning BUFFER_SIZE tree.old tree.new }
    ensures disk { KeepsDisk D.meaning taking.old.end disk.old disk.new }
    ensures cause { HasPassCause result (D.meaning.faults disk.old) (D.meaning.faults disk.new) }
    ensures long { length buffer.new ≡ length buffer.old }
{
    match tree.open_file(setup.alloc, path.as_str()) {
        Ok(Opened::File { handle, size }) => {
            let file = OpenFile { handle, size };
            let opened = PathFile { path, file };
            let found = take_opened(tree, disk, setup, &opened, taking, buffer);
            tree.close(handle);
            found
        }
        Ok(Opened::Gone) => Ok(Found::Gone),
        Ok(Opened::NotAFile) => Ok(Found::Gone),
        Err(CallFault::Failed) => Ok(Found::Missed),
        Err(CallFault::Memory) => Err(PassFault::Memory),
    }
}

// Takes an open file that was found under this path.
fn take_opened<T: Tree, D: Disk>(
    tree: &mut T,
    disk: &mut D,
    setup: &Setup<'_>,
    opened: &PathFile<'_>,
    taking: &mut Taking,
    buffer: &mut [u8],
) -> Result<Found, PassFault>
    requires setup { KeepsLimits (settings_of setup.now.pipeline.now) × (setup.now.limit ≤ 2 ^ 40) }
    requires sane { IsSaneTaking setup.now taking.old }
    requires size { opened.now.file.size ≤ 2 ^ 62 }
    requires short { IsShortText opened.now.path.now }
    requires room { (FRONT_SIZE < length buffer.old) × (length buffer.old ≤ FRONT_SIZE + BUFFER_SIZE) }
    requires ends { IsTrue (D.meaning.images.tells disk.old) → length (D.meaning.images.seen disk.old DiskFile.Output) ≡ taking.old.end }
    ensures ok { IfOk result (λ found. Finds (meanings T.meaning D.meaning) (OpenTaken (poll_of setup.now) opened.now) found
        (rows_at taking.old (moment tree.old disk.old)) (rows_at taking.new (moment tree.new disk.new))) }
    ensures counts { taking.new.counts ≡ taking.old.counts }
    ensures sane { OnOk result (IsSaneTaking setup.now taking.new) }
    ensures flags { OnOk result (FlagsGrown setup.now taking.old taking.new) }
    ensures full { (size : ℕ) → result ≡ Err (PassFault.OutputFull size)
        → Told (OpenFills (poll_of setup.now) (overflow setup.now.limit taking.old.end size) opened.now taking.old.tracker) (T.meaning.world tree.old) (T.meaning.world tree.new) }
    ensures tree { KeepsTreeAt T.meaning BUFFER_SIZE tree.old tree.new }
    ensures disk { KeepsDisk D.meaning taking.old.end disk.old disk.new }
    ensures cause { HasPassCause result (D.meaning.faults disk.old) (D.meaning.faults disk.new) }
    ensures long { length buffer.new ≡ length buffer.old }
{
    let PathFile { path, file } = *opened;
    if file.size == 0 {
        return Ok(Found::Nothing);
    }
    let (first, pieces) = buffer.split_at_mut(FRONT_SIZE);
    let wanted = u64::from(setup.pipeline.settings().fingerprint_size).min(file.size) as usize;
    let front = &mut first[..wanted];
    let (_, ending) = read_front(tree, file, front);
    if !ending.is_whole() {
        return Ok(Found::Unread(ending));
    }
    let seen = SeenFile { path, file, front };
    let found = take_seen(tree, disk, setup, &seen, taking, pieces)?;
    Ok(found)
}

// Takes an open file of which the front was read.
fn take_seen<T: Tree, D: Disk>(
    tree: &mut T,
    disk: &mut D,
    setup: &Setup<'_>,
    seen: &SeenFile<'_>,
    taking: &mut Taking,
    buffer: &mut [u8],
) -> Result<Found, PassFault>
    requires setup { KeepsLimits (settings_of setup.now.pipeline.now) × (setup.now.limit ≤ 2 ^ 40) }
    requires sane { IsSaneTaking setup.now taking.old }
    requires size { seen.now.file.size ≤ 2 ^ 62 }
    requires short { IsShortText seen.now.path.now }
    requires begins { length seen.now.front.now ≤ seen.now.file.size }
    requires front { (1 ≤ length seen.now.front.now) × (length seen.now.front.now ≤ 4096) }
    requires room { (0 < length buffer.old) × (length buffer.old ≤ BUFFER_SIZE) }
    requires ends { IsTrue (D.meaning.images.tells disk.old) → length (D.meaning.images.seen disk.old DiskFile.Output) ≡ taking.old.end }
    ensures ok { IfOk result (λ found. Finds (meanings T.meaning D.meaning) (SeenTaken (poll_of setup.now) seen.now) found
        (rows_at taking.old (moment tree.old disk.old)) (rows_at taking.new (moment tree.new disk.new))) }
    ensures counts { taking.new.counts ≡ taking.old.counts }
    ensures sane { OnOk result (IsSaneTaking setup.now taking.new) }
    ensures flags { OnOk result (FlagsGrown setup.now taking.old taking.new) }
    ensures full { (size : ℕ) → result ≡ Err (PassFault.OutputFull size)
        → Told (SeenFills (poll_of setup.now) (overflow setup.now.limit taking.old.end size) seen.now taking.old.tracker) (T.meaning.world tree.old) (T.meaning.world tree.new) }
    ensures tree { KeepsTreeAt T.meaning BUFFER_SIZE tree.old tree.new }
    ensures disk { KeepsDisk D.meaning taking.old.end disk.old disk.new }
    ensures cause { HasPassCause result (D.meaning.faults disk.old) (D.meaning.faults disk.new) }
    ensures long { length buffer.new ≡ length buffer.old }
{
    a_pipeline_is_rules(setup.pipeline);
    // A gzip file begins so (RFC 1952, section 2.3.1).
    if seen.front.starts_with(&[0x1f, 0x8b]) {
        return Ok(Found::Compressed);
    }
    match settle(setup, seen, taking)? {
        Some(place) => {
            let file = seen.file;
            let at = RowFile { file, place };
            let found = take_row(tree, disk, setup, at, taking, buffer)?;
            Ok(found)
        }
        None => Ok(Found::NoRoom),
    }
}

// Reads on the open file whose row is at this place.
fn take_row<T: Tree, D: Disk>(
    tree: &mut T,
    disk: &mut D,
    setup: &Setup<'_>,
    at: RowFile,
    taking: &mut Taking,
    buffer: &mut [u8],
) -> Result<Found, PassFault>
    requires setup { KeepsLimits (settings_of setup.now.pipeline.now) × (setup.now.limit ≤ 2 ^ 40) }
    requires sane { IsSaneTaking setup.now taking.old }
    requires size { at.file.size ≤ 2 ^ 62 }
    requires in_range { at.place < length taking.old.tracker }
    requires room { (0 < length buffer.old) × (length buffer.old ≤ BUFFER_SIZE) }
    requires ends { IsTrue (D.meaning.images.tells disk.old) → length (D.meaning.images.seen disk.old DiskFile.Output) ≡ taking.old.end }
    ensures ok { IfOk result (λ found. Finds (meanings T.meaning D.meaning) (RowTaken (poll_of setup.now) at found) found
        (rows_at taking.old (moment tree.old disk.old)) (rows_at taking.new (moment tree.new disk.new))) }
    ensures counts { taking.new.counts ≡ taking.old.counts }
    ensures sane { OnOk result (IsSaneTaking setup.now taking.new) }
    ensures flags { OnOk result (FlagsGrown setup.now taking.old taking.new) }
    ensures full { (size : ℕ) → result ≡ Err (PassFault.OutputFull size)
        → Told (RowFills (poll_of setup.now) (overflow setup.now.limit taking.old.end size) at taking.old.tracker) (T.meaning.world tree.old) (T.meaning.world tree.new) }
    ensures tree { KeepsTreeAt T.meaning BUFFER_SIZE tree.old tree.new }
    ensures disk { KeepsDisk D.meaning taking.old.end disk.old disk.new }
    ensures cause { HasPassCause result (D.meaning.faults disk.old) (D.meaning.faults disk.new) }
    ensures long { length buffer.new ≡ length buffer.old }
{
    a_pipeline_is_rules(setup.pipeline);
    let RowFile { file, place } = at;
    let row = taking.tracker.row(place);
    if file.size < row.offset {
        return Ok(Found::Shorter);
    }
    let (offset, lines) = (row.offset, row.lines);
    let mut feeding = feeding_of(setup, file, row)?;
    let ending = feed_file(tree, disk, setup, &mut feeding, &mut taking.end, buffer)?;
    note_progress(setup, place, &feeding, taking)?;
    let looked = feeding.idle;
    taking.tracker.note(place, looked.seen, looked.quiet);
    Ok(Found::Read {
        ending,
        more: has_more(ending, file.size - offset),
        lines: feeding.state.lines - lines,
    })
}

// Whether a file that has so many bytes past its row's offset was read as far as one pass goes, and has more.
fn has_more(ending: Ending, past: u64) -> bool
    ensures whole { ending ≡ Ending.Whole → result ≡ nat_lt MOST_TAKEN past }
    ensures not_whole { (ending ≡ Ending.Whole → ⊥) → result ≡ false }
{
    ending.is_whole() && past > MOST_TAKEN
}

// Where reading of the row's file goes on.
fn feeding_of(setup: &Setup<'_>, file: OpenFile, row: &Row) -> Result<Feeding, AllocError>
    requires { IsTrue ((rules_in setup.now).is_state row.now.state) }
    ensures row { IfOk result (λ feeding. feeding_row feeding ≡ record row.now { front = []; start = 0; born = 0; ends = [] }) }
    ensures none { IfOk result (λ feeding. (feeding.carried.items ≡ []) × (feeding.flushed ≡ false)) }
    ensures file { IfOk result (λ feeding. feeding.file ≡ file) }
    ensures anew { IfOk result (λ feeding. feeding.searched ≡ 0) }
    ensures idle { IfOk result (λ feeding. (feeding.idle.seen < 2 ^ 64) × (feeding.idle.quiet < 2 ^ 32)) }
    ensures kinds { IfOk result (λ feeding. HaveKinds setup.now.pipeline.now feeding.state.states.items) }
{
    let path = row.path.share()?;
    let state = restored(setup, row, row.state.as_slice())?;
    Ok(Feeding {
        file,
        id: row.id,
        path,
        offset: row.offset,
        state,
        carried: Vec::new(setup.alloc),
        searched: 0,
        idle: idle(row),
        flushed: false,
    })
}

// The state that these bytes spell, with the counts of a row.
fn restored(setup: &Setup<'_>, row: &Row, bytes: &[u8]) -> Result<FileState, AllocError>
    requires { IsTrue ((rules_in setup.now).is_state bytes.now) }
    ensures state { IfOk result (IsStateOf setup.now.pipeline.now row.now.records row.now.lines bytes.now) }
    ensures kinds { IfOk result (λ state. HaveKinds setup.now.pipeline.now state.states.items) }
{
    a_row_tells_its_state(setup.pipeline);
    match setup
        .pipeline
        .restore(setup.alloc, row.records, row.lines, bytes)
    {
        Ok(state) => Ok(state),
        Err(CodecFault::Malformed { .. }) => unreachable!(),
        Err(CodecFault::Memory) => Err(AllocError),
    }
}

// Notes in the row how far it was read, where that is further than before or its groups were closed.
fn note_progress(
    setup: &Setup<'_>,
    place: usize,
    feeding: &Feeding,
    taking: &mut Taking,
) -> Result<(), AllocError>
    requires kinds { HaveKinds setup.now.pipeline.now feeding.now.state.states.items }
    requires in_range { place < length taking.old.tracker }
    requires flags { length taking.old.changed.items ≡ length taking.old.tracker }
    requires noted { (row : Row) → slice_get taking.old.tracker place ≡ Some row → MayBeNoted (rules_in setup.now) feeding.now row }
    ensures row { OnOk result ((row : Row) → slice_get taking.old.tracker place ≡ Some row → taking.new.tracker ≡ slice_set taking.old.tracker place (noted_row feeding.now row)) }
    ensures short { OnOk result ((row : Row) → slice_get taking.old.tracker place ≡ Some row → length row.state < 2 ^ 32
        → length (state_text feeding.now.state.states.items) < 2 ^ 32) }
    ensures flags { OnOk result (FlagsGrown setup.now taking.old taking.new) }
    ensures long { length taking.new.changed.items ≡ length taking.old.changed.items }
    ensures end { taking.new.end ≡ taking.old.end }
    ensures counts { taking.new.counts ≡ taking.old.counts }
{
    if has_grown(feeding, taking.tracker.row(place).offset) {
        let state = &feeding.state;
        let bytes = spelled(setup, state)?;
        taking.tracker.advance(
            place,
            feeding.offset,
            state.records,
            state.lines,
            bytes.into_vec(),
        );
        taking.changed[place] = true;
    }
    Ok(())
}

// Whether the file was read past this offset, or its groups were closed.
fn has_grown(feeding: &Feeding, offset: u64) -> bool
    ensures yes { result ≡ true → (feeding.now.flushed ≡ true) ⊎ (offset < feeding.now.offset) }
    ensures no { result ≡ false → (feeding.now.flushed ≡ false) × (feeding.now.offset ≤ offset) }
{
    if feeding.flushed {
        return true;
    }
    feeding.offset > offset
}
