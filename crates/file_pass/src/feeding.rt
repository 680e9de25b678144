// From the bytes of one file to lines of the output.
ghost use Rattle.std.specs.Prelude.{◌≡◌, ◌+◌, ◌-◌, ◌<◌, ◌≤◌, ◌^◌, ℕ, List, [], ◌++◌, false, length, drop, Err, IsTrue, IfOk, OnOk};
ghost use Rattle.outside.specs.declared.disk.DiskFile.{DiskFile};
ghost use Rattle.file_pass.specs.DiskTerms.{Appends, KeepsDisk};
ghost use Rattle.file_pass.specs.Fed.{poll_of, FillsPart, FillsUp, HasRead, IsSane, ReadsOn, feeding_row, last_in, last_of, rules_in};
ghost use Rattle.file_pass.specs.Flushed.{waiting};
ghost use Rattle.file_pass.specs.Full.{Crosses, lines_text};
ghost use Rattle.file_pass.specs.Moment.{feeding_at, meanings, moment};
ghost use Rattle.file_pass.specs.PassCause.{HasPassCause};
ghost use Rattle.file_pass.specs.TreeTerms.{KeepsTree};
ghost use Rattle.pipeline.specs.Parts.{HaveKinds, settings_of};
ghost use Rattle.pipeline.specs.Searched.{IsSearched, StaysSearched};
ghost use Rattle.settings_text.specs.Limits.{KeepsLimits};
ghost use Rattle.standing.specs.Look.{fed, lines_of};
ghost use Rattle.standing.specs.Tokens.{used};

use crate::ending::{Ending, OpenFile};
use crate::fault::PassFault;
use crate::flushing::{look_on, may_flush};
use crate::output::append;
use crate::reading::read_piece;
use crate::setup::Setup;
use entry_model::Text;
use idle_flush::Idle;
use outside::{Disk, Tree};
use pipeline::laws::{a_pipeline_is_rules, a_row_is_fed_by_the_rules, a_row_tells_its_state};
use pipeline::{FileState, LogFile, Piece};
use std::alloc::AllocError;

/// The most bytes past its offset that are taken of a file in one pass: 16 MiB.
pub const MOST_TAKEN: u64 = 16_777_216;

/// How far a file was read, and what its tokens left.
#[derive(Drop)]
pub(crate) struct Feeding {
    pub file: OpenFile,
    pub id: u32,
    pub path: Text,
    pub offset: u64,
    pub state: FileState,
    /// The bytes that were read behind the offset, which no token used.
    pub carried: Vec<u8>,
    /// How many of the bytes that are carried needn't be searched again for the end of a token.
    pub searched: usize,
    /// What is remembered of the looks at the file.
    pub idle: Idle,
    /// Whether what waited was flushed.
    pub flushed: bool,
}

/// Reads the file on from its offset, and puts the lines of what it has behind the output, which ends at `end`. Where it was
/// read to its end, what waits behind them is flushed at the look with which it has stood still for as many as the settings ask.
pub(crate) fn feed_file<T: Tree, D: Disk>(
    tree: &mut T,
    disk: &mut D,
    setup: &Setup<'_>,
    feeding: &mut Feeding,
    end: &mut u64,
    buffer: &mut [u8],
) -> Result<Ending, PassFault>
    requires setup { KeepsLimits (settings_of setup.now.pipeline.now) × (setup.now.limit ≤ 2 ^ 40) }
    requires sane { IsSane setup.now feeding.old end.old }
    requires none { feeding.old.carried.items ≡ [] }
    requires anew { feeding.old.searched ≡ 0 }
    requires stood { feeding.old.flushed ≡ false }
    requires begins { feeding.old.offset ≤ feeding.old.file.size }
    requires size { feeding.old.file.size ≤ 2 ^ 62 }
    requires room { (0 < length buffer.old) × (length buffer.old ≤ 65536) }
    requires ends { IsTrue (D.meaning.images.tells disk.old) → length (D.meaning.images.seen disk.old DiskFile.Output) ≡ end.old }
    ensures ok { IfOk result (λ ending. ReadsOn (meanings T.meaning D.meaning) setup.now ending
        (feeding_at feeding.old end.old (moment tree.old disk.old)) (feeding_at feeding.new end.new (moment tree.new disk.new))) }
    ensures sane { OnOk result (IsSane setup.now feeding.new end.new) }
    ensures full { (size : ℕ) → result ≡ Err (PassFault.OutputFull size)
        → FillsUp T.meaning setup.now size (feeding_at feeding.old end.old (moment tree.old disk.old)) tree.new }
    ensures tree { KeepsTree T.meaning (length buffer.old) (last_in feeding.old - feeding.old.offset) tree.old tree.new }
    ensures disk { KeepsDisk D.meaning end.old disk.old disk.new }
    ensures cause { HasPassCause result (D.meaning.faults disk.old) (D.meaning.faults disk.new) }
    ensures long { length buffer.new ≡ length buffer.old }
{
    a_pipeline_is_rules(setup.pipeline);
    let (size, offset) = (feeding.file.size, feeding.offset);
    let ending = read_on(tree, disk, setup, feeding, end, buffer)?;
    if may_flush(setup, size, offset, ending) {
        look_on(disk, setup, feeding, end)?;
    }
    Ok(ending)
}

// Reads the file on from its offset, and puts the lines of what it has behind the output, which ends at `end`.
fn read_on<T: Tree, D: Disk>(
    tree: &mut T,
    disk: &mut D,
    setup: &Setup<'_>,
    feeding: &mut Feeding,
    end: &mut u64,
    buffer: &mut [u8],
) -> Result<Ending, PassFault>
    requires setup { KeepsLimits (settings_of setup.now.pipeline.now) × (setup.now.limit ≤ 2 ^ 40) }
    requires sane { IsSane setup.now feeding.old end.old }
    requires none { feeding.old.carried.items ≡ [] }
    requires anew { feeding.old.searched ≡ 0 }
    requires begins { feeding.old.offset ≤ feeding.old.file.size }
    requires size { feeding.old.file.size ≤ 2 ^ 62 }
    requires room { (0 < length buffer.old) × (length buffer.old ≤ 65536) }
    requires ends { IsTrue (D.meaning.images.tells disk.old) → length (D.meaning.images.seen disk.old DiskFile.Output) ≡ end.old }
    ensures ok { IfOk result (λ ending. HasRead (meanings T.meaning D.meaning) setup.now ending
        (feeding_at feeding.old end.old (moment tree.old disk.old)) (feeding_at feeding.new end.new (moment tree.new disk.new))) }
    ensures sane { OnOk result (IsSane setup.now feeding.new end.new) }
    ensures full { (size : ℕ) → result ≡ Err (PassFault.OutputFull size)
        → FillsPart T.meaning setup.now size (feeding_at feeding.old end.old (moment tree.old disk.old)) tree.new }
    ensures tree { KeepsTree T.meaning (length buffer.old) (last_in feeding.old - feeding.old.offset) tree.old tree.new }
    ensures disk { KeepsDisk D.meaning end.old disk.old disk.new }
    ensures cause { HasPassCause result (D.meaning.faults disk.old) (D.meaning.faults disk.new) }
    ensures long { length buffer.new ≡ length buffer.old }
{
    a_pipeline_is_rules(setup.pipeline);
    a_row_tells_its_state(setup.pipeline);
    let file = feeding.file;
    let last = last_of(file.size, feeding.offset);
    let mut from = feeding.offset;
    while from < last {
        let (count, ending) = read_piece(tree, file.handle, from, last, buffer);
        if !ending.is_whole() {
            return Ok(ending);
        }
        from += count as u64;
        feeding.carried.extend_from_slice(&buffer[..count])?;
        feed_carried(disk, setup, feeding, end)?;
    }
    Ok(Ending::Whole)
}

// The place up to which a file of this size is read from an offset.
fn last_of(size: u64, offset: u64) -> u64
    requires { offset ≤ 2 ^ 62 }
    ensures { result ≡ last_of size offset }
{
    let most = offset + MOST_TAKEN;
    if size < most { size } else { most }
}

// Takes the tokens of the bytes that are carried, which stand from the offset on, and leaves those bytes that no token used.
fn feed_carried<D: Disk>(
    disk: &mut D,
    setup: &Setup<'_>,
    feeding: &mut Feeding,
    end: &mut u64,
) -> Result<(), PassFault>
    requires setup { KeepsLimits (settings_of setup.now.pipeline.now) × (setup.now.limit ≤ 2 ^ 40) }
    requires sane { IsSane setup.now feeding.old end.old }
    requires size { feeding.old.offset + length feeding.old.carried.items ≤ 2 ^ 62 }
    requires searched { IsSearched (settings_of setup.now.pipeline.now) feeding.old.carried.items feeding.old.searched }
    requires ends { IsTrue (D.meaning.images.tells disk.old) → length (D.meaning.images.seen disk.old DiskFile.Output) ≡ end.old }
    ensures ok { OnOk result (Appends D.meaning (lines_text (lines_of (poll_of setup.now) feeding.old.carried.items (feeding_row feeding.old))) end.old end.new disk.old disk.new) }
    ensures fed { OnOk result (feeding_row feeding.new ≡ fed (rules_in setup.now) feeding.old.carried.items (feeding_row feeding.old)) }
    ensures rest { OnOk result (feeding.new.carried.items ≡ waiting (rules_in setup.now) feeding.old.carried.items) }
    ensures searched { OnOk result (StaysSearched (settings_of setup.now.pipeline.now) feeding.new.carried.items feeding.new.searched) }
    ensures flushed { feeding.new.flushed ≡ feeding.old.flushed }
    ensures sane { OnOk result (IsSane setup.now feeding.new end.new) }
    ensures full { (size : ℕ) → result ≡ Err (PassFault.OutputFull size)
        → Crosses setup.now.limit end.old (lines_of (poll_of setup.now) feeding.old.carried.items (feeding_row feeding.old)) size }
    ensures disk { KeepsDisk D.meaning end.old disk.old disk.new }
    ensures cause { HasPassCause result (D.meaning.faults disk.old) (D.meaning.faults disk.new) }
{
    a_pipeline_is_rules(setup.pipeline);
    let mut lines = Vec::new(setup.alloc);
    let count = feed_bytes(setup, feeding, &mut lines)?;
    append(setup.alloc, disk, setup.limit, &lines, end)?;
    drop_front(&mut feeding.carried, count);
    Ok(())
}

// Drops so many bytes from the front.
fn drop_front(bytes: &mut Vec<u8>, count: usize)
    requires { count ≤ length bytes.old.items }
    ensures { bytes.new.items ≡ drop count bytes.old.items }
{
    bytes.rotate_left(count);
    bytes.truncate(bytes.len() - count);
}

// Takes the tokens of the bytes that are carried, which stand from the offset on, and answers how many bytes they used.
fn feed_bytes(
    setup: &Setup<'_>,
    feeding: &mut Feeding,
    lines: &mut Vec<u8>,
) -> Result<usize, AllocError>
    requires limits { KeepsLimits (settings_of setup.now.pipeline.now) }
    requires states { HaveKinds setup.now.pipeline.now feeding.old.state.states.items }
    requires few { (feeding.old.state.records ≤ feeding.old.offset) × (feeding.old.state.lines ≤ 2 ^ 40) }
    requires size { feeding.old.offset + length feeding.old.carried.items ≤ 2 ^ 62 }
    requires searched { IsSearched (settings_of setup.now.pipeline.now) feeding.old.carried.items feeding.old.searched }
    requires none { lines.old.items ≡ [] }
    ensures searched { IfOk result (λ count. StaysSearched (settings_of setup.now.pipeline.now) (drop count feeding.old.carried.items) feeding.new.searched) }
    ensures used { IfOk result (λ count. count ≡ used (rules_in setup.now) feeding.old.carried.items) }
    ensures fed { OnOk result (feeding_row feeding.new ≡ fed (rules_in setup.now) feeding.old.carried.items (feeding_row feeding.old)) }
    ensures lines { OnOk result (lines.new.items ≡ lines_text (lines_of (poll_of setup.now) feeding.old.carried.items (feeding_row feeding.old))) }
    ensures carried { feeding.new.carried.items ≡ feeding.old.carried.items }
    ensures flushed { feeding.new.flushed ≡ feeding.old.flushed }
    ensures states { OnOk result (HaveKinds setup.now.pipeline.now feeding.new.state.states.items) }
    ensures records { OnOk result (feeding.new.state.records ≤ feeding.new.offset) }
    ensures many { OnOk result (feeding.new.state.lines ≤ feeding.old.state.lines + length lines.new.items) }
{
    a_pipeline_is_rules(setup.pipeline);
    a_row_is_fed_by_the_rules(setup.pipeline);
    let file = LogFile {
        id: feeding.id,
        path: feeding.path.as_str(),
        observed: setup.observed,
    };
    let piece = Piece {
        bytes: &feeding.carried,
        searched: feeding.searched,
    };
    let state = &mut feeding.state;
    let taken = setup
        .pipeline
        .feed_behind(setup.alloc, state, &file, &piece, lines)?;
    feeding.searched = taken.searched;
    feeding.offset += taken.used as u64;
    Ok(taken.used)
}
