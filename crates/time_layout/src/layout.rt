// Layouts.
ghost use Rattle.std.specs.Prelude.{◌≡◌, IfOk, IfErr, Ok};
ghost use Rattle.time_layout.specs.GoLayouts.{go_parts};
ghost use Rattle.time_layout.specs.Instant.{IsTimeOf};
ghost use Rattle.time_layout.specs.LayoutFaults.{IsFaultOf};
ghost use Rattle.time_layout.specs.LayoutText.{layout_parts};
ghost use Rattle.time_layout.specs.Parts.{layout_read};

use crate::calendar::instant_of;
use crate::directives::read_parts_of;
use crate::go_layouts::read_names_of;
use crate::parts::{Part, read_layout};
use crate::{LayoutFault, TimeFault};
use std::alloc::Global;
use std::marker::Model;

/// The form in which texts name times, and the distance from UTC at which they are said where they have no zone.
#[derive(Drop)]
pub struct Layout {
    parts: Vec<Part>,
    location: i32,
}

impl Model for Layout {
    ghost use Rattle.time_layout.specs.Meaning.{Meaning};

    ghost Value = { Meaning };

    ghost view = { λ layout. record { parts = layout.parts.items; location = layout.location } };
}

impl Layout {
    /// The layout that a text of `strptime` directives spells. Where texts of it have no `%z`, they are said `location`
    /// seconds east of UTC.
    ///
    /// | Directive | What stands for it |
    /// |---|---|
    /// | `%Y` | a year of four digits |
    /// | `%y` | two digits of a year from 1969 to 2068 |
    /// | `%m`, `%d` | a month and a day of two digits |
    /// | `%e` | a day as two digits, as a space and a digit, or as one digit |
    /// | `%b`, `%a` | the English name of a month or a weekday in three letters, in any case; a weekday says nothing |
    /// | `%H`, `%M`, `%S` | an hour from 00 to 23, a minute and a second from 00 to 59 |
    /// | `%I`, `%p` | an hour from 01 to 12, and AM or PM in any case |
    /// | `%L`, `%f` | one to nine digits of a second's fraction |
    /// | `%z` | `Z`, `+hhmm`, `-hhmm`, `+hh:mm` or `-hh:mm` |
    /// | `%T` | as `%H:%M:%S` |
    /// | `%%` | a percent sign |
    ///
    /// Every other byte stands for itself. `Directive` at the first place of every other text that is wrong: of an
    /// unknown directive, of one that gives once more what one before it gives, of a `%` at the end; at the text's
    /// length where the year, the month or the day is missing, or one of `%I` and `%p`.
    pub fn read(alloc: Global, text: &str, location: i32) -> Result<Layout, LayoutFault>
        ensures parts { IfOk result (λ layout. layout_parts text.now ≡ Ok layout.parts) }
        ensures location { IfOk result (λ layout. layout.location ≡ location) }
        ensures fault { IfErr result (IsFaultOf (layout_parts text.now)) }
    {
        let parts = read_parts_of(alloc, text)?;
        Ok(Layout { parts, location })
    }

    /// The layout that a text spells as Go's package [`time`](https://pkg.go.dev/time#pkg-constants) writes layouts: as its
    /// reference time, Mon Jan 2 15:04:05 2006 at seven hours west of UTC. Where texts of it have no zone, they are said
    /// `location` seconds east of UTC. At each place stands the longest of these names that begins there.
    ///
    /// | Name | What stands for it |
    /// |---|---|
    /// | `2006`, `06` | a year of four digits, and two digits of a year from 1969 to 2068 |
    /// | `01`, `1` | a month of two digits, and of two or one |
    /// | `Jan`, `January` | a month's English name in three letters, and the whole name, in any case |
    /// | `02`, `2`, `_2` | a day of two digits, of two or one, and as two digits, as a space and a digit, or as one digit |
    /// | `Mon`, `Monday` | a weekday's English name in three letters, and the whole name, in any case; it says nothing |
    /// | `15` | an hour from 00 to 23 |
    /// | `03`, `3`, `PM` | an hour from 1 to 12 of two digits, and of two or one, and AM or PM in any case |
    /// | `04`, `05` | a minute and a second from 00 to 59; behind a second a point and one to nine digits may stand where no fraction is named there |
    /// | `.000`, `.000000`, `.000000000` | a point and so many digits of a second's fraction |
    /// | `-0700`, `-07:00` | a sign, and hours and minutes in this form |
    /// | `Z0700`, `Z07:00` | the same, or `Z` |
    /// | `MST` | `UTC` or `GMT` |
    ///
    /// Every other byte but a digit stands for itself. `Directive` at the first place of every other text that is wrong:
    /// of a digit that begins no name, of a name that gives once more what one before it gives; at the text's length
    /// where the year, the month or the day is missing, or one of `PM` and `03` or `3`.
    pub fn read_go(alloc: Global, text: &str, location: i32) -> Result<Layout, LayoutFault>
        ensures parts { IfOk result (λ layout. go_parts text.now ≡ Ok layout.parts) }
        ensures location { IfOk result (λ layout. layout.location ≡ location) }
        ensures fault { IfErr result (IsFaultOf (go_parts text.now)) }
    {
        let parts = read_names_of(alloc, text)?;
        Ok(Layout { parts, location })
    }

    /// The nanoseconds from 1970-01-01T00:00:00Z to the time that a text names. Times of day that the layout doesn't
    /// have are 0.
    ///
    /// `Mismatch` at the first place of every text that isn't of this layout; then `OutOfRange` exactly where the
    /// calendar doesn't have the day, or the instant is before 1970 or doesn't fit 64 bits.
    pub fn instant(&self, text: &str) -> Result<u64, TimeFault>
        ensures { IsTimeOf (layout_read self.now.parts self.now.location text.now) result }
    {
        let (said, _) = read_layout(&self.parts, self.location, text.as_bytes())?;
        instant_of(said)
    }
}
