// The first LF that may end a token.
ghost use Rattle.std.specs.Prelude.{◌≡◌, ◌<◌, ◌≤◌, length, slice_index, IfOk};
ghost use Rattle.regex.specs.Strings.{regex_source};
ghost use Rattle.multiline.specs.Cutting.{cutting_at};
ghost use Rattle.multiline.specs.MultilineTokens.{judged, window};
ghost use Rattle.multiline.specs.Searched.{IsSearched};
ghost use Rattle.multiline.specs.Stops.{IsStop};

use crate::cutter::Boundary;
use crate::lines::{line_feed, start_of_line, text_of, window_end};
use crate::pattern::Search;
use line_splitter::next;
use std::alloc::{AllocError, Global};

/// The place of the first LF among the first `max + 1` bytes whose line is marked or not decided.
pub enum Stop {
    Marked(usize),
    Undecided(usize),
    Nowhere,
}

impl<'p> Search<'p> {
    /// `from` bytes were searched already.
    pub fn stop(
        &mut self,
        alloc: Global,
        boundary: Boundary,
        max: usize,
        bytes: &[u8],
        from: usize,
    ) -> Result<Stop, AllocError>
        requires max { 1 ≤ max }
        requires searched { IsSearched (cutting_at boundary (regex_source self.old.pattern.now.regex)) max bytes.now from }
        ensures { IfOk result (IsStop (cutting_at boundary (regex_source self.old.pattern.now.regex)) max bytes.now) }
    {
        let end = window_end(max, bytes);
        let mut at = from;
        while let Some(place) = line_feed(bytes, at, end) {
            match self.judge(alloc, boundary, max, bytes, place)? {
                Some(true) => return Ok(Stop::Marked(place)),
                None => return Ok(Stop::Undecided(place)),
                Some(false) => at = place + 1,
            }
        }
        Ok(Stop::Nowhere)
    }

    /// Whether the line is marked that is judged at the LF at `place`; `None` where it isn't decided.
    fn judge(
        &mut self,
        alloc: Global,
        boundary: Boundary,
        max: usize,
        bytes: &[u8],
        place: usize,
    ) -> Result<Option<bool>, AllocError>
        requires max { 1 ≤ max }
        requires within { place < length bytes.now }
        ensures judged { IfOk result (λ marked. marked ≡ judged (cutting_at boundary (regex_source self.old.pattern.now.regex)) max bytes.now place) }
        ensures pattern { self.new.pattern.now ≡ self.old.pattern.now }
    {
        match boundary {
            Boundary::Start => {
                let rest = &bytes[place + 1..];
                match next(max, rest) {
                    Some(line) => Ok(Some(self.marks(alloc, &rest[line.from..line.to])?)),
                    None => Ok(None),
                }
            }
            Boundary::End => {
                let start = start_of_line(bytes, place);
                Ok(Some(self.marks(alloc, text_of(&bytes[start..place]))?))
            }
        }
    }
}
