//! The agent's memory as bytes: a checkpoint, which is all of it, and changes, each of which turns one checkpoint into the
//! next.
//!
//! **The contract for the layer above.** A checkpoint has one spelling in each version (`checkpoint_spelling`); [`encode`]
//! appends that of the newest one, and [`decode`] reads any. A change has one under a base of each version
//! (`change_spelling`); [`encode_change`] appends the newest, and [`apply`] reads it and answers what it makes of the
//! checkpoint before it (`changed`). Both are spelled from parts that are kept elsewhere ([`CheckpointParts`],
//! [`ChangeParts`]), and how many bytes they take is told before ([`checkpoint_size`], [`change_size`]). A row has one
//! spelling in both (`row_spelling`), which [`put_row`] appends, and keeps one set of rules (`KeepsRules`). What keeps the
//! rules, and of a change what fits the checkpoint before it (`Fits`), is read; all else is refused at the exact byte, a
//! number against the rules at its first one. No spelling begins another of its kind, exactly the rows of a change are
//! changed, and what was spelled by an older version can be spelled by the newest ([`laws`]).
//!
//! Version 3 of a checkpoint is the byte 03, a u32 count of eras (1 to 64), the eras as bytes, a u64 output length (at most
//! 2^40), the u64 observed time, a u32 next id, a u32 count of rows, the rows with the ids 1, 2, .. in order, and nothing
//! after. A row is a u32 id, the path as text, the front as bytes (1 to 4,096), u64 start, offset, records and lines, the
//! state as bytes, u32 born, a u32 count of ends, the ends, u64 seen and u32 quiet; an end is u64 offset, records and lines.
//! Born and the count of ends are together the number of eras. No number falls from the start over the ends to the row's
//! own. A change is a u64 output length, the u64 observed time, a u32 next id, a u32 count of rows, the rows by ascending
//! id, and nothing after. None of the first three falls by a change, and each id from the next one before up to the new one
//! is there; where one is missing, the count of rows is refused. No change has other eras.
//!
//! Version 2 is the byte 02, the one era as bytes, and then as version 3 from the output length on, with rows that end
//! behind their state: they are born under era 1 and have no ends, and what they say of looks is 0. Version 1 is the byte 01
//! and the same without the observed time, which stands still at 0. A change under a base of one of them has rows of that
//! version, and under version 1 no observed time.
#![tactic(auto)]

ghost use Rattle.std.specs.Prelude.{◌≡◌};
ghost use Rattle.checkpoint_store.specs.Limits.{newest, era_limit, front_limit, offset_limit, output_limit};

mod beside;
mod changes;
mod eras;
mod in_parts;
pub mod laws;
mod past;
mod put;
mod read;
mod rows;
mod sizes;

pub use beside::Beside;
pub use changes::apply;
pub use eras::Eras;
pub use in_parts::{ChangeParts, CheckpointParts};
pub use past::Past;
pub use put::{encode, encode_change, put_row};
pub use read::decode;
pub use rows::Rows;
pub use sizes::{change_size, checkpoint_size};

/// The version that is spelled.
pub const NEWEST_VERSION: u8 = 3;

/// The most settings texts.
pub const ERA_LIMIT: usize = 64;

/// The greatest length of the output.
pub const OUTPUT_LIMIT: u64 = 1_099_511_627_776;

/// The greatest offset of a row.
pub const OFFSET_LIMIT: u64 = 4_611_686_018_427_387_904;

/// The most bytes of a front.
pub const FRONT_LIMIT: usize = 4_096;

/// The constants are the limits that the definitions have.
pub fn constants_are_the_limits()
    ensures version { NEWEST_VERSION ≡ newest }
    ensures eras { ERA_LIMIT ≡ era_limit }
    ensures output { OUTPUT_LIMIT ≡ output_limit }
    ensures offset { OFFSET_LIMIT ≡ offset_limit }
    ensures front { FRONT_LIMIT ≡ front_limit }
{}

/// All that the agent remembers between two runs.
#[derive(Drop)]
pub struct Checkpoint {
    /// The settings in force, with those before them.
    pub eras: Eras,
    /// How many bytes of the output are kept.
    pub output_length: u64,
    /// The last time that a line has, in nanoseconds since 1970, or 0.
    pub observed: u64,
    /// The id of the next file that is admitted.
    pub next_id: u32,
    /// The files that are known, with the ids 1, 2, .. in order.
    pub rows: Rows,
}

/// What a poll changed: the new output length, observed time and next id, and exactly the rows that are new or differ.
#[derive(Drop)]
pub struct Change {
    pub output_length: u64,
    pub observed: u64,
    pub next_id: u32,
    /// By ascending id.
    pub rows: Rows,
}
