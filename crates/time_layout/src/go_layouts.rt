// Reading the text of a layout as Go's package `time` writes it.
ghost use Rattle.std.specs.Prelude.{◌≡◌, ◌+◌, ◌≤◌, ◌<◌, ◌++◌, length, drop, OnOk, IfOk, IfErr, IfSome, cond, Some, None, Ok, Err};
ghost use Rattle.time_layout.specs.LayoutFaults.{IsFaultOf};
ghost use Rattle.time_layout.specs.GoLayouts.{part_named, name_of, longest_name, is_fraction, second_before, named_symbol, symbol_at, parts_with, names_start, with_symbol, names_step, names_from, names_finished, drafted_parts, go_parts};

use crate::LayoutFault;
use crate::atoms::stands;
use crate::directives::Given;
use crate::parts::{Colon, Part};
use case_table::{find_bytes, gotime};
use std::alloc::{AllocError, Global};

/// How many bytes the longest name has.
const LONGEST: usize = 10;

/// The parts of a layout's text.
pub(crate) fn read_names_of(alloc: Global, text: &str) -> Result<Vec<Part>, LayoutFault>
    ensures ok { IfOk result (λ parts. go_parts text.now ≡ Ok parts.items) }
    ensures fault { IfErr result (IsFaultOf (go_parts text.now)) }
{
    let bytes = text.as_bytes();
    let mut sketch = NameSketch::new(alloc);
    for (at, _byte) in bytes.iter().enumerate() {
        sketch.take(at, bytes)?;
    }
    sketch.finish(bytes.len())
}

/// What a layout's text begins with.
#[derive(Clone, Copy, Debug, PartialEq, Eq)]
pub(crate) struct Symbol {
    pub(crate) part: Part,
    /// What times may have behind the part.
    pub(crate) more: Option<Part>,
    /// In bytes.
    pub(crate) size: usize,
}

impl Symbol {
    fn of(part: Part, size: usize) -> Symbol
        ensures part { result.part ≡ part }
        ensures more { result.more ≡ None }
        ensures size { result.size ≡ size }
    {
        Symbol {
            part,
            more: None,
            size,
        }
    }
}

/// What was read of a layout's text.
#[derive(Drop)]
struct NameSketch {
    parts: Vec<Part>,
    given: Given,
    /// How many bytes of the last name are still to be passed over.
    inside: usize,
}

impl NameSketch {
    ghost use Rattle.time_layout.specs.GoDrafts.{name_draft_of};

    fn new(alloc: Global) -> NameSketch
        ensures { name_draft_of result ≡ names_start }
    {
        NameSketch {
            parts: Vec::new(alloc),
            given: Given::nothing(),
            inside: 0,
        }
    }

    /// Reads the byte at this place of the text.
    fn take(&mut self, at: usize, text: &[u8]) -> Result<(), LayoutFault>
        requires { at < length text.now }
        ensures ok { OnOk result (names_from (drop at text.now) at (name_draft_of self.old) ≡ names_from (drop (at + 1) text.now) (at + 1) (name_draft_of self.new)) }
        ensures fault { IfErr result (IsFaultOf (drafted_parts (names_from (drop at text.now) at (name_draft_of self.old)))) }
    {
        self.take_first(at, &text[at..])
    }

    /// Reads the byte at this place, from which on the text is this.
    fn take_first(&mut self, at: usize, text: &[u8]) -> Result<(), LayoutFault>
        requires { 1 ≤ length text.now }
        ensures ok { OnOk result (names_step (name_draft_of self.old) at text.now ≡ Ok (name_draft_of self.new)) }
        ensures fault { IfErr result (IsFaultOf (names_step (name_draft_of self.old) at text.now)) }
    {
        if self.inside > 0 {
            self.inside -= 1;
            return Ok(());
        }
        match symbol_at(text) {
            Some(found) => {
                if !self.add(found)? {
                    return Err(LayoutFault::Directive { at });
                }
                Ok(())
            }
            None => Err(LayoutFault::Directive { at }),
        }
    }

    /// Adds a symbol. Answers whether it gives nothing twice.
    fn add(&mut self, symbol: Symbol) -> Result<bool, AllocError>
        requires { 1 ≤ symbol.size }
        ensures { IfOk result (λ taken. with_symbol symbol (name_draft_of self.old) ≡ cond taken (Some (name_draft_of self.new)) None) }
    {
        match self.given.with(symbol.part) {
            Some(given) => {
                self.push(symbol.part, symbol.more)?;
                self.given = given;
                self.inside = symbol.size - 1;
                Ok(true)
            }
            None => Ok(false),
        }
    }

    fn push(&mut self, part: Part, more: Option<Part>) -> Result<(), AllocError>
        ensures parts { OnOk result (self.new.parts.items ≡ self.old.parts.items ++ parts_with part more) }
        ensures given { self.new.given ≡ self.old.given }
        ensures inside { self.new.inside ≡ self.old.inside }
    {
        self.parts.push(part)?;
        if let Some(more) = more {
            self.parts.push(more)?;
        }
        Ok(())
    }

    /// The parts, where the text may end at this place.
    fn finish(self, at: usize) -> Result<Vec<Part>, LayoutFault>
        ensures ok { IfOk result (λ parts. drafted_parts (names_finished (name_draft_of self) at) ≡ Ok parts.items) }
        ensures fault { IfErr result (IsFaultOf (drafted_parts (names_finished (name_draft_of self) at))) }
    {
        let NameSketch { parts, given, .. } = self;
        if !given.is_complete() {
            return Err(LayoutFault::Directive { at });
        }
        Ok(parts)
    }
}

/// The longest name, or a byte that stands for itself, which no digit does.
#[tactic(auto, unfolding(crate::specs::GoLayouts::symbol_at))]
fn symbol_at(text: &[u8]) -> Option<Symbol>
    requires { 1 ≤ length text.now }
    ensures is { result ≡ symbol_at text.now }
    ensures some { IfSome result (λ symbol. 1 ≤ symbol.size) }
{
    match longest_name(text) {
        Some((code, size)) => Some(named_symbol(code, size, text)),
        None => {
            if text[0].is_ascii_digit() {
                None
            } else {
                Some(Symbol::of(Part::Literal(text[0]), 1))
            }
        }
    }
}

/// What the text begins with, where that is a name.
fn named_symbol(code: u16, size: usize, text: &[u8]) -> Symbol
    requires some { 1 ≤ size }
    requires few { size ≤ 10 }
    requires within { size ≤ length text.now }
    ensures is { result ≡ named_symbol text.now code size }
    ensures some { 1 ≤ result.size }
{
    if code == 10 {
        return second_before(&text[size..], size);
    }
    Symbol::of(part_named(code), size)
}

/// `05`, which has so many bytes, before the text behind it.
fn second_before(behind: &[u8], size: usize) -> Symbol
    requires some { 1 ≤ size }
    requires few { size ≤ 10 }
    ensures is { result ≡ second_before behind.now size }
    ensures some { 1 ≤ result.size }
{
    if begins_fraction(behind) {
        return Symbol::of(Part::Second, size);
    }
    if stands(b'.', behind, 0) {
        return Symbol {
            part: Part::Second,
            more: Some(Part::FractionPoint),
            size: size + 1,
        };
    }
    Symbol {
        part: Part::Second,
        more: Some(Part::PointFraction(9)),
        size,
    }
}

/// Whether the text begins with the name of a fraction.
fn begins_fraction(text: &[u8]) -> bool
    ensures { result ≡ is_fraction (longest_name text.now) }
{
    match longest_name(text) {
        Some((code, _)) => 3 <= code && code <= 5,
        None => false,
    }
}

/// The code and the length of the longest name with which the text begins.
#[tactic(auto, unfolding(crate::specs::GoLayouts::longest_name))]
fn longest_name(text: &[u8]) -> Option<(u16, usize)>
    ensures is { result ≡ longest_name text.now }
    ensures some { IfSome result (λ name. 1 ≤ name.1) }
    ensures few { IfSome result (λ name. name.1 ≤ 10) }
    ensures within { IfSome result (λ name. name.1 ≤ length text.now) }
{
    for fewer in 0..LONGEST {
        let size = LONGEST - fewer;
        if let Some(code) = name_of(size, text) {
            return Some((code, size));
        }
    }
    None
}

/// The code of the name that is just so many bytes of the text.
fn name_of(size: usize, text: &[u8]) -> Option<u16>
    ensures is { result ≡ name_of size text.now }
    ensures within { IfSome result (λ code. size ≤ length text.now) }
{
    if text.len() < size {
        return None;
    }
    find_bytes(&gotime(), &text[..size])
}

/// The part for which the name with this code stands.
fn part_named(code: u16) -> Part
    ensures { result ≡ part_named code }
{
    match code {
        1 => Part::Offset(Colon::Missing),
        2 => Part::Offset(Colon::Required),
        3 => Part::FixedFraction(3),
        4 => Part::FixedFraction(6),
        5 => Part::FixedFraction(9),
        6 => Part::Month,
        7 => Part::Day,
        8 => Part::TwelveHour,
        9 => Part::Minute,
        10 => Part::Second,
        11 => Part::ShortYear,
        12 => Part::UnpaddedMonth,
        13 => Part::Hour,
        14 => Part::UnpaddedDay,
        15 => Part::Year,
        16 => Part::UnpaddedTwelveHour,
        17 => Part::MonthName,
        18 => Part::FullMonthName,
        19 => Part::ZoneName,
        20 => Part::WeekdayName,
        21 => Part::FullWeekdayName,
        22 => Part::Meridiem,
        23 => Part::Zone(Colon::Missing),
        24 => Part::Zone(Colon::Required),
        _ => Part::PaddedDay,
    }
}
