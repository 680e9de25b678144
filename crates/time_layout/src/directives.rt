// Reading the text of a layout.
ghost use Rattle.std.specs.Prelude.{◌≡◌, ◌∷◌, ◌++◌, [], OnOk, IfOk, IfErr, cond, Some, None, Ok};
ghost use Rattle.time_layout.specs.LayoutFaults.{IsFaultOf};
ghost use Rattle.time_layout.specs.LayoutText.{part_of, once, nothing_given, with_part, is_complete, clock_parts, added, directed, step, finished, start, layout_parts};

use crate::LayoutFault;
use crate::parts::{Colon, Part};
use std::alloc::{AllocError, Global};

/// The parts of a layout's text.
pub(crate) fn read_parts_of(alloc: Global, text: &str) -> Result<Vec<Part>, LayoutFault>
    ensures ok { IfOk result (λ parts. layout_parts text.now ≡ Ok parts.items) }
    ensures fault { IfErr result (IsFaultOf (layout_parts text.now)) }
{
    let bytes = text.as_bytes();
    let mut sketch = Sketch::new(alloc);
    for (at, byte) in bytes.iter().enumerate() {
        sketch.take(at, *byte)?;
    }
    sketch.finish(bytes.len())
}

/// Which parts a layout has.
#[derive(Clone, Copy, Debug, PartialEq, Eq)]
pub(crate) struct Given {
    pub(crate) year: bool,
    pub(crate) month: bool,
    pub(crate) day: bool,
    pub(crate) weekday: bool,
    pub(crate) hour: bool,
    /// The hour is one of twelve.
    pub(crate) twelve: bool,
    pub(crate) meridiem: bool,
    pub(crate) minute: bool,
    pub(crate) second: bool,
    pub(crate) fraction: bool,
    pub(crate) zone: bool,
}

/// What was read of a layout's text.
#[derive(Drop)]
struct Sketch {
    parts: Vec<Part>,
    given: Given,
    /// The place of a percent sign that was the last byte.
    percent: Option<usize>,
}

impl Sketch {
    ghost use Rattle.time_layout.specs.Drafts.{draft_of};

    fn new(alloc: Global) -> Sketch
        ensures { draft_of result ≡ start }
    {
        Sketch {
            parts: Vec::new(alloc),
            given: Given::nothing(),
            percent: None,
        }
    }

    /// Reads the byte at this place.
    fn take(&mut self, at: usize, byte: u8) -> Result<(), LayoutFault>
        ensures ok { OnOk result (step (draft_of self.old) at byte ≡ Ok (draft_of self.new)) }
        ensures fault { IfErr result (IsFaultOf (step (draft_of self.old) at byte)) }
    {
        match self.percent {
            Some(percent) => {
                self.percent = None;
                if !self.direct(byte)? {
                    return Err(LayoutFault::Directive { at: percent });
                }
                Ok(())
            }
            None => {
                if byte == b'%' {
                    self.percent = Some(at);
                } else {
                    self.push(Part::Literal(byte))?;
                }
                Ok(())
            }
        }
    }

    /// Adds what a byte behind a percent sign stands for. Answers whether it stands for something new.
    fn direct(&mut self, byte: u8) -> Result<bool, AllocError>
        ensures { IfOk result (λ taken. directed (draft_of self.old) byte ≡ cond taken (Some (draft_of self.new)) None) }
    {
        if byte == b'T' {
            return self.add_clock();
        }
        match part_of(byte) {
            Some(part) => self.add(part),
            None => Ok(false),
        }
    }

    fn add_clock(&mut self) -> Result<bool, AllocError>
        ensures { IfOk result (λ taken. added clock_parts (draft_of self.old) ≡ cond taken (Some (draft_of self.new)) None) }
    {
        Ok(
            self.add(Part::Hour)?
                && self.add(Part::Literal(b':'))?
                && self.add(Part::Minute)?
                && self.add(Part::Literal(b':'))?
                && self.add(Part::Second)?,
        )
    }

    fn add(&mut self, part: Part) -> Result<bool, AllocError>
        ensures { IfOk result (λ taken. added (part ∷ []) (draft_of self.old) ≡ cond taken (Some (draft_of self.new)) None) }
    {
        match self.given.with(part) {
            Some(given) => {
                self.push(part)?;
                self.given = given;
                Ok(true)
            }
            None => Ok(false),
        }
    }

    fn push(&mut self, part: Part) -> Result<(), AllocError>
        ensures parts { OnOk result (self.new.parts.items ≡ self.old.parts.items ++ part ∷ []) }
        ensures given { self.new.given ≡ self.old.given }
        ensures percent { self.new.percent ≡ self.old.percent }
    {
        self.parts.push(part)?;
        Ok(())
    }

    /// The parts, where the text may end at this place.
    fn finish(self, at: usize) -> Result<Vec<Part>, LayoutFault>
        ensures ok { IfOk result (λ parts. finished (draft_of self) at ≡ Ok parts.items) }
        ensures fault { IfErr result (IsFaultOf (finished (draft_of self) at)) }
    {
        let Sketch {
            parts,
            given,
            percent,
        } = self;
        if let Some(at) = percent {
            return Err(LayoutFault::Directive { at });
        }
        if !given.is_complete() {
            return Err(LayoutFault::Directive { at });
        }
        Ok(parts)
    }
}

impl Given {
    /// Nothing.
    pub(crate) fn nothing() -> Given
        ensures { result ≡ nothing_given }
    {
        Given {
            year: false,
            month: false,
            day: false,
            weekday: false,
            hour: false,
            twelve: false,
            meridiem: false,
            minute: false,
            second: false,
            fraction: false,
            zone: false,
        }
    }

    /// With one part more, where it gives nothing twice.
    pub(crate) fn with(self, part: Part) -> Option<Given>
        ensures { result ≡ with_part part self }
    {
        match part {
            Part::Literal(_) => Some(self),
            Part::Year | Part::ShortYear => once(self.year, Given { year: true, ..self }),
            Part::Month | Part::MonthName | Part::UnpaddedMonth | Part::FullMonthName => once(
                self.month,
                Given {
                    month: true,
                    ..self
                },
            ),
            Part::Day | Part::PaddedDay | Part::UnpaddedDay => once(
                self.day,
                Given { day: true, ..self },
            ),
            Part::WeekdayName | Part::FullWeekdayName => once(
                self.weekday,
                Given {
                    weekday: true,
                    ..self
                },
            ),
            Part::Hour => once(self.hour, Given { hour: true, ..self }),
            Part::TwelveHour | Part::UnpaddedTwelveHour => once(
                self.hour,
                Given {
                    hour: true,
                    twelve: true,
                    ..self
                },
            ),
            Part::Meridiem => once(
                self.meridiem,
                Given {
                    meridiem: true,
                    ..self
                },
            ),
            Part::Minute => once(
                self.minute,
                Given {
                    minute: true,
                    ..self
                },
            ),
            Part::Second => once(
                self.second,
                Given {
                    second: true,
                    ..self
                },
            ),
            Part::Fraction
            | Part::PointFraction(_)
            | Part::FixedFraction(_)
            | Part::FractionPoint => once(
                self.fraction,
                Given {
                    fraction: true,
                    ..self
                },
            ),
            Part::Zone(_) | Part::Offset(_) | Part::ZoneName => once(
                self.zone,
                Given { zone: true, ..self },
            ),
        }
    }

    /// Whether there is a year, a month and a day, and both a twelve-hour clock and its half of the day or none.
    pub(crate) fn is_complete(self) -> bool
        ensures { result ≡ is_complete self }
    {
        self.year && self.month && self.day && self.twelve == self.meridiem
    }
}

fn once(twice: bool, given: Given) -> Option<Given>
    ensures { result ≡ once twice given }
{
    if twice { None } else { Some(given) }
}

/// The part for which a byte behind a percent sign stands. `%T` stands for several.
fn part_of(byte: u8) -> Option<Part>
    ensures { result ≡ part_of byte }
{
    let part = match byte {
        b'%' => Part::Literal(b'%'),
        b'Y' => Part::Year,
        b'y' => Part::ShortYear,
        b'm' => Part::Month,
        b'b' => Part::MonthName,
        b'd' => Part::Day,
        b'e' => Part::PaddedDay,
        b'a' => Part::WeekdayName,
        b'H' => Part::Hour,
        b'I' => Part::TwelveHour,
        b'p' => Part::Meridiem,
        b'M' => Part::Minute,
        b'S' => Part::Second,
        b'L' | b'f' => Part::Fraction,
        b'z' => Part::Zone(Colon::Optional),
        _ => return None,
    };
    Some(part)
}
