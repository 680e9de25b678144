// What is read of a string.
ghost use Rattle.std.specs.Prelude.{◌≡◌, ◌++◌, ◌&&◌, ◌<◌, IfOk, OnOk, Some, None, true};
ghost use Rattle.std.specs.Char.{encode_utf8};
ghost use Rattle.std.specs.Char.Utf16.{is_high_surrogate, is_low_surrogate};
ghost use Rattle.json_text.specs.Machine.{no_content, text_so_far, with_piece, with_unit, with_run};
ghost use Rattle.json_text.specs.Pieces.{IsAsciiPiece, lone_unit, pair_of_units};

use entry_model::Text;
use std::alloc::{AllocError, Global};
use std::char;
use std::marker::Model;

/// A part of a string that spells a character, or half of one.
#[derive(Clone, Copy)]
pub enum Piece {
    Byte(u8),
    /// A unit of UTF-16.
    Unit(u16),
}

/// The characters so far. A unit waits until it is known whether the next piece makes it a pair.
#[derive(Drop)]
pub struct Content {
    done: String,
    waiting: Option<u16>,
}

impl Model for Content {
    ghost use Rattle.json_text.specs.Machine.{Content as Read};
    ghost use Rattle.std.specs.Prelude.{string_bytes};

    ghost Value = { Read };

    ghost view = { λ content. record { done = string_bytes content.done; waiting = content.waiting } };
}

impl Content {
    pub fn new(alloc: Global) -> Content
        ensures { result ≡ no_content }
    {
        Content {
            done: String::new(alloc),
            waiting: None,
        }
    }

    /// Adds characters that stand for themselves.
    pub fn push_plain(&mut self, run: &str) -> Result<(), AllocError>
        ensures { OnOk result (self.new ≡ with_run self.old run.now) }
    {
        if !run.is_empty() {
            self.settle()?;
            self.done.push_str(run)?;
        }
        Ok(())
    }

    /// Adds what an escape stands for.
    pub fn push(&mut self, piece: Piece) -> Result<(), AllocError>
        requires { IsAsciiPiece piece }
        ensures { OnOk result (self.new ≡ with_piece self.old piece) }
    {
        match piece {
            Piece::Byte(byte) => {
                self.settle()?;
                self.done.push(byte as char)
            }
            Piece::Unit(unit) => self.push_unit(unit),
        }
    }

    fn push_unit(&mut self, unit: u16) -> Result<(), AllocError>
        ensures { OnOk result (self.new ≡ with_unit self.old.done self.old.waiting unit) }
    {
        if let Some(high) = self.waiting {
            if is_pair(high, unit) {
                self.waiting = None;
                return self.done.push(pair_char(high, unit));
            }
        }
        self.settle()?;
        self.waiting = Some(unit);
        Ok(())
    }

    /// Adds the unit that waits: no other makes it a pair.
    fn settle(&mut self) -> Result<(), AllocError>
        ensures done { OnOk result (self.new.done ≡ text_so_far self.old) }
        ensures waiting { OnOk result (self.new.waiting ≡ None) }
    {
        if let Some(unit) = self.waiting {
            self.done.push(lone_char(unit))?;
            self.waiting = None;
        }
        Ok(())
    }

    pub fn finish(mut self) -> Result<Text, AllocError>
        ensures { IfOk result (λ text. text ≡ text_so_far self) }
    {
        self.settle()?;
        let Content { done, waiting: _ } = self;
        Text::new(done)
    }
}

fn is_pair(high: u16, low: u16) -> bool
    ensures { result ≡ (is_high_surrogate high && is_low_surrogate low) }
{
    (0xd800..0xdc00).contains(&high) && (0xdc00..0xe000).contains(&low)
}

/// The character of two units that are a pair.
fn pair_char(high: u16, low: u16) -> char
    requires { (is_high_surrogate high && is_low_surrogate low) ≡ true }
    ensures { encode_utf8 result ≡ pair_of_units high low }
{
    let code = 0x1_0000 + (high as u32 - 0xd800) * 0x400 + (low as u32 - 0xdc00);
    char::from_u32(code).unwrap_or(char::REPLACEMENT_CHARACTER)
}

/// The character of a unit alone, U+FFFD for half a pair.
fn lone_char(unit: u16) -> char
    ensures { encode_utf8 result ≡ lone_unit unit }
{
    char::from_u32(unit as u32).unwrap_or(char::REPLACEMENT_CHARACTER)
}
