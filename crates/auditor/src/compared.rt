// What was gathered of a row against its kept lines.
ghost use Rattle.std.specs.Prelude.{◌≡◌, ◌+◌, ◌≤◌, length, map, IfOk, MatchBool};
ghost use Rattle.auditor.specs.Inner.Compared.{made_of, made_in, mark_line, IsNextTime, last_behind};
ghost use Rattle.auditor.specs.Verdicts.{Agree};
ghost use Rattle.standing.specs.Times.{IsNotBefore};

use crate::gathered::Item;
use kept_lines::observed_in;
use otlp_json::laws::line_tells_its_time;
use std::alloc::{AllocError, Global};

/// Whether a time isn't before the last one, where there are both.
fn is_not_before(last: Option<u64>, time: Option<u64>) -> bool
    ensures { MatchBool result (IsNotBefore last time) (IsNotBefore last time → ⊥) }
{
    let Some(last) = last else {
        return true;
    };
    match time {
        Some(time) => last <= time,
        None => true,
    }
}

/// The last time once there was another, or none, behind it.
fn last_behind(last: Option<u64>, time: Option<u64>) -> Option<u64>
    ensures { result ≡ last_behind last time }
{
    match time {
        Some(time) => Some(time),
        None => last,
    }
}

/// The time of the line, where the line with this number is that of the item and goes on from the last time.
fn next_time(
    alloc: Global,
    id: u32,
    number: u64,
    item: &Item,
    line: &[u8],
    last: Option<u64>,
) -> Result<Option<Option<u64>>, AllocError>
    ensures { IfOk result (IsNextTime id number (made_of item.now) line.now last) }
{
    line_tells_its_time();
    let entry = item.entry.entry();
    let Some(time) = observed_in(alloc, id, number, item.stamped, entry, line)? else {
        return Ok(None);
    };
    if !is_not_before(last, time) {
        return Ok(None);
    }
    Ok(Some(time))
}

fn lesser(count: usize, other: usize) -> usize
    ensures lesser { result ≤ count }
    ensures than_other { result ≤ other }
    ensures least { (result ≡ count → ⊥) → result ≡ other }
{
    if count < other { count } else { other }
}

/// How many of the lines, from the first on, are those of the items, with times that never fall.
pub(crate) fn agreed_lines(
    alloc: Global,
    id: u32,
    items: &[Item],
    own: &[&[u8]],
) -> Result<usize, AllocError>
    ensures agree { IfOk result (Agree mark_line id (made_in items.now) (map (λ line. line.now) own.now)) }
    ensures no_more { IfOk result (λ agreed. Agree mark_line id (made_in items.now) (map (λ line. line.now) own.now) (agreed + 1) → ⊥) }
{
    let mut last = None;
    let most = lesser(items.len(), own.len());
    for place in 0..most {
        let number = place as u64 + 1;
        let Some(time) = next_time(alloc, id, number, &items[place], own[place], last)? else {
            return Ok(place);
        };
        last = last_behind(last, time);
    }
    Ok(most)
}
