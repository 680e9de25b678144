// The records in bytes.
ghost use Rattle.std.specs.Prelude.{◌≡◌, ◌+◌, ◌≤◌, length, map, true, false, IfOk, IfSome, IfNone};
ghost use Rattle.record_log.specs.Records.{counts_at, end_at, HasRecords};

use slot_store::frame::{HEAD_SIZE, Head};
use std::alloc::{AllocError, Global};

/// The records in bytes, where they end, and the last sequence number.
#[derive(Debug, Drop)]
pub struct Tail {
    pub records: Vec<Vec<u8>>,
    pub end: usize,
    pub sequence: u64,
}

/// The records with which these bytes begin, behind this sequence number.
pub fn parse(alloc: Global, bytes: &[u8], sequence: u64) -> Result<Tail, AllocError>
    ensures records { IfOk result (λ tail. HasRecords bytes.now 0 sequence (map (λ payload. payload.items) tail.records.items) tail.end tail.sequence) }
    ensures within { IfOk result (λ tail. tail.end ≤ length bytes.now) }
{
    let mut tail = Tail {
        records: Vec::new(alloc),
        end: 0,
        sequence,
    };
    while let Some(head) = record_at(bytes, tail.end, tail.sequence) {
        let start = tail.end + HEAD_SIZE as usize;
        let end = start + head.length as usize;
        let payload = bytes[start..end].to_vec(alloc)?;
        tail.records.push(payload)?;
        tail.end = end;
        tail.sequence = head.sequence;
    }
    Ok(tail)
}

// The head of the record at this place, if it counts behind this sequence number.
fn record_at(bytes: &[u8], place: usize, sequence: u64) -> Option<Head>
    requires { place ≤ length bytes.now }
    ensures none { IfNone result (counts_at place sequence bytes.now ≡ false) }
    ensures some { IfSome result (λ head. (counts_at place sequence bytes.now ≡ true) × (head.sequence ≡ sequence + 1)
        × (place + 17 + head.length ≡ end_at place bytes.now)) }
    ensures within { IfSome result (λ head. place + 17 + head.length ≤ length bytes.now) }
{
    let head = Head::read(&bytes[place..], place as u64, bytes.len() as u64)?;
    let before = head.sequence.checked_sub(1)?;
    if before == sequence { Some(head) } else { None }
}
