// Control lines.
ghost use Rattle.std.specs.Prelude.{◌≡◌, ◌≢◌, ◌<◌, List, ℕ, ◌∷◌, [], length, Ok, IfOk, MatchOption};
ghost use Rattle.std.specs.Str.Lines.{strip_carriage_return};
ghost use Rattle.outside.specs.Count.{HasOneCause};
ghost use Rattle.outside.specs.World.{Told};
ghost use Rattle.agent_commands.specs.Control.{asked_by, Asks, GivesByte, Spends, Takes};

use outside::{Failed, Source};

/// The most bytes of a control line. A CR before its LF counts, the LF doesn't.
const MAX_LINE: usize = 64;

/// What a control line asks for.
#[derive(Clone, Copy, Debug)]
pub enum Request {
    Poll,
    Quit,
    /// The input has ended.
    End,
    /// The line is none of these, or too long.
    Faulty,
    /// No more bytes may be taken, and the line hasn't ended.
    Exhausted,
}

/// What comes, and how many bytes may be taken, determine what the next line asks for and what is left behind it.
pub fn a_line_asks_one_thing()
    ensures { (left : ℕ) (one other : Request) (old new rest : List ℕ)
        → Takes left one old new → Takes left other old rest → (one ≡ other) × (new ≡ rest) }
{}

/// Takes the next control line, byte by byte, so that nothing behind it is taken.
///
/// `left` is the number of bytes that may be taken, from which those that are taken go off.
pub fn next_request<S: Source>(control: &mut S, left: &mut u64) -> Result<Request, Failed>
    ensures asks { Told (Asks left.old result) (S.meaning.rest control.old) (S.meaning.rest control.new) }
    ensures spends { Told (Spends left.old left.new) (S.meaning.rest control.old) (S.meaning.rest control.new) }
    ensures fewer { result ≡ Ok Request.Poll → left.new < left.old }
    ensures cause { HasOneCause result (S.meaning.faults control.old) (S.meaning.faults control.new) }
{
    a_line_asks_one_thing();
    let mut line = [0; MAX_LINE];
    let mut filled = 0;
    while *left > 0 {
        let Some(byte) = next_byte(control)? else {
            return Ok(last_request(&line[..filled]));
        };
        *left -= 1;
        if byte == b'\n' {
            return Ok(line_request(&line[..filled]));
        }
        if filled == MAX_LINE {
            return Ok(Request::Faulty);
        }
        line[filled] = byte;
        filled += 1;
    }
    Ok(Request::Exhausted)
}

fn next_byte<S: Source>(control: &mut S) -> Result<Option<u8>, Failed>
    ensures byte { Told (GivesByte result) (S.meaning.rest control.old) (S.meaning.rest control.new) }
    ensures cause { HasOneCause result (S.meaning.faults control.old) (S.meaning.faults control.new) }
{
    let mut byte = [0];
    if control.read(&mut byte)? == 0 {
        return Ok(None);
    }
    Ok(Some(byte[0]))
}

// What a line asks for, without one CR at its end.
fn line_request(line: &[u8]) -> Request
    ensures { result ≡ asked_by (strip_carriage_return line.now) }
{
    match line.split_last() {
        Some((b'\r', text)) => text_request(text),
        _ => text_request(line),
    }
}

// What a line asks for that the input's end ends.
fn last_request(text: &[u8]) -> Request
    ensures end { text.now ≡ [] → result ≡ Request.End }
    ensures some { text.now ≢ [] → result ≡ asked_by text.now }
{
    if text.is_empty() {
        return Request::End;
    }
    text_request(text)
}

fn text_request(text: &[u8]) -> Request
    ensures { result ≡ asked_by text.now }
{
    if text == b"poll".as_slice() {
        Request::Poll
    } else if text == b"quit".as_slice() {
        Request::Quit
    } else {
        Request::Faulty
    }
}
