//! A frame in a file: a gate byte, a sequence number and a length of 8 bytes each, the more significant byte first, and
//! a payload of that length. It counts once its gate is a5.
ghost use Rattle.std.specs.Prelude.{◌≡◌, ℕ, ◌+◌, ◌≤◌, ◌<◌, ◌^◌, List, ◌∷◌, ◌++◌, length, take, drop, IsTrue, OnOk, IfOk, IfSome, IfNone};
ghost use Rattle.outside.specs.Count.{HasCause, HasOneCause};
ghost use Rattle.outside.specs.Crash.{Passes};
ghost use Rattle.outside.specs.DiskCalls.{last_end};
ghost use Rattle.outside.specs.Image.{AtFile};
ghost use Rattle.slot_store.specs.Counted.{HasDone, DoneFewer, HasWritten};
ghost use Rattle.slot_store.specs.Frame.{open_gate, frame_body, HasParts, IsClosedAt, Opens, StaysClosed};
ghost use Rattle.slot_store.specs.OnlyRead.{OnlyRead, KeepsTerms};
ghost use Rattle.slot_store.specs.Synced.{EachLeft, LeavesChanged};

use crate::reading::fill;
use crate::writing::write_synced;
use outside::{CallFault, Disk, DiskFile, Failed};
use std::alloc::{AllocError, Global};

/// The gate of a frame that doesn't count.
pub const CLOSED: u8 = 0;

/// The gate of a frame that counts.
pub const OPEN: u8 = 0xa5;

/// The number of bytes before the payload, the gate among them.
pub const HEAD_SIZE: u64 = 17;

/// What stands between the gate and the payload of a frame.
#[derive(Clone, Copy, Debug, PartialEq, Eq)]
pub struct Head {
    pub sequence: u64,
    /// The payload's length in bytes.
    pub length: u64,
}

impl Head {
    ghost use Rattle.slot_store.specs.Head.{head_at};

    /// The head of the frame with which these bytes begin, where it is open. The bytes stand at this place of a file
    /// of `size` bytes, and are at least 17 or go to its end.
    pub fn read(front: &[u8], place: u64, size: u64) -> Option<Head>
        ensures { (content : List ℕ) → length content ≡ size → take 17 (drop place content) ≡ take 17 front.now
            → result ≡ head_at place content }
    {
        let (gate, head) = parts_of(front)?;
        // In 128 bits no sum of these wraps.
        let end = u128::from(place) + u128::from(HEAD_SIZE) + u128::from(head.length);
        if gate == OPEN && end <= u128::from(size) {
            Some(head)
        } else {
            None
        }
    }

    /// The head of the frame at this place of a file, where it is open.
    pub fn find<D: Disk>(disk: &mut D, file: DiskFile, place: u64) -> Result<Option<Head>, Failed>
        requires { place + 17 < 2 ^ 64 }
        ensures head { IfOk result (λ head. IsTrue (D.meaning.images.tells disk.old)
            → head ≡ head_at place (D.meaning.images.seen disk.old file)) }
        ensures only_read { OnlyRead D.meaning disk.old disk.new }
        ensures cause { HasOneCause result (D.meaning.faults disk.old) (D.meaning.faults disk.new) }
    {
        let size = disk.length(file)?;
        let mut front = [0; HEAD_SIZE as usize];
        let count = fill(disk, file, place, &mut front)?;
        Ok(Head::read(&front[..count], place, size))
    }
}

// The gate and the numbers of a head that is there whole.
fn parts_of(front: &[u8]) -> Option<(u8, Head)>
    ensures short { IfNone result (length front.now < 17) }
    ensures parts { IfSome result (λ parts. HasParts front.now parts.0 parts.1.sequence parts.1.length) }
{
    let (gate, rest) = front.split_first()?;
    let (sequence, rest) = rest.split_first_chunk()?;
    let (length, _) = rest.split_first_chunk()?;
    let head = Head {
        sequence: u64::from_be_bytes(*sequence),
        length: u64::from_be_bytes(*length),
    };
    Some((*gate, head))
}

/// What stands behind the gate of a frame. It takes no further memory where `payload` has room for 16 bytes more.
pub fn body(sequence: u64, payload: Vec<u8>) -> Result<Vec<u8>, AllocError>
    ensures { IfOk result (λ bytes. bytes.items ≡ frame_body sequence payload.items) }
{
    let length = payload.len();
    let mut bytes = payload;
    bytes.extend_from_slice(&sequence.to_be_bytes())?;
    bytes.extend_from_slice(&(length as u64).to_be_bytes())?;
    bytes.rotate_right(16);
    Ok(bytes)
}

/// Writes what stands behind a closed gate at a file's end, and opens the gate once that is on the disk. A crash leaves
/// the frame closed or whole.
pub fn write<D: Disk>(
    alloc: Global,
    disk: &mut D,
    file: DiskFile,
    place: u64,
    body: &[u8],
) -> Result<(), CallFault>
    requires closed { EachLeft D.meaning.images disk.old (λ image. IsClosedAt place (image file)) }
    requires ends { place + 1 + length body.now ≤ last_end file }
    ensures opened { OnOk result (LeavesChanged D.meaning.images
        (AtFile file (λ old new. new ≡ take place old ++ open_gate ∷ body.now)) disk.old disk.new) }
    ensures seen { IsTrue (D.meaning.images.tells disk.old)
        → AtFile file (Opens place body.now) (D.meaning.images.seen disk.old) (D.meaning.images.seen disk.new) }
    ensures crash { Passes D.meaning.images (AtFile file (Opens place body.now)) disk.old disk.new }
    ensures early { DoneFewer 2 (D.meaning.done disk.old) (D.meaning.done disk.new)
        → Passes D.meaning.images (AtFile file (StaysClosed place)) disk.old disk.new }
    ensures cause { HasCause result (D.meaning.faults disk.old) (D.meaning.faults disk.new) }
    ensures done { HasDone result 4 (D.meaning.done disk.old) (D.meaning.done disk.new) }
    ensures counted { HasWritten result file (length body.now + 1) (D.meaning.written disk.old) (D.meaning.written disk.new) }
    ensures terms { KeepsTerms D.meaning disk.old disk.new }
{
    write_synced(alloc, disk, file, place + 1, body)?;
    write_synced(alloc, disk, file, place, &[OPEN])?;
    Ok(())
}
