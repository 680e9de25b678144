// Reading a path out of its text.
ghost use Rattle.std.specs.Prelude.{◌≡◌, IfOk, OnOk, IfErr, None, Some, cond};
ghost use Rattle.std.specs.Str.{IsUtf8};
ghost use Rattle.field_paths.specs.Inner.NameIsText.{NameIsText};
ghost use Rattle.field_paths.specs.PathText.{IsPathText, is_name_byte as is_name, is_quote as is_quote_byte, is_escaped as is_escaped_byte, root_name};
ghost use Rattle.field_paths.specs.ReadFault.{IsReadFault};
ghost use Rattle.field_paths.specs.Reader.{state_of, step, begun, gone_on, opened, closed, entered, named, named_on, quoted, left, names_read};

use crate::{FieldPath, PathFault, Root};
use entry_model::Text;
use std::alloc::{AllocError, Global};
use std::mem;

/// The most members that a path has.
const MAX_MEMBERS: usize = 32;

impl FieldPath {
    /// The path that a text spells: `body`, `attributes` or `resource`, then at most 32 members. A member is `.` and
    /// one or more ASCII letters, digits, `_` or `-`, or it is any text in `["` and `"]` or in `['` and `']`, where
    /// `\\`, `\"` and `\'` stand for the character behind the backslash.
    ///
    /// `NotAPath` exactly for every other text, at the first byte from which it can't go on, or at its length where
    /// only more is missing.
    pub fn read(alloc: Global, text: &str) -> Result<FieldPath, PathFault>
        ensures ok { IfOk result (λ path. IsPathText text.now path) }
        ensures fault { IfErr result (λ fault. IsReadFault text.now fault) }
    {
        let bytes = text.as_bytes();
        let mut reader = Reader {
            phase: Phase::Start,
            root: Root::Body,
            name: Vec::new(alloc),
            names: Vec::new(alloc),
        };
        for (at, byte) in bytes.iter().enumerate() {
            if !reader.step(alloc, *byte)? {
                return Err(PathFault::NotAPath { at });
            }
        }
        if !reader.end(alloc)? {
            return Err(PathFault::NotAPath { at: bytes.len() });
        }
        Ok(FieldPath {
            root: reader.root,
            names: reader.names,
        })
    }
}

/// What a text was read up to.
#[derive(Clone, Copy)]
enum Phase {
    Start,
    /// This many bytes of the root's name.
    Root(usize),
    /// The root's name, or a member that is closed.
    Between,
    Dot,
    /// One or more bytes of a name behind a dot.
    Name,
    Bracket,
    /// This quote, and perhaps some of the name.
    Quoted(u8),
    /// A backslash behind this quote.
    Escape(u8),
    /// The second quote.
    Closing,
}

#[derive(Drop)]
struct Reader {
    phase: Phase,
    root: Root,
    name: Vec<u8>,
    names: Vec<Text>,
}

#[tactic(auto, unfolding(crate::specs::Reader::begun, crate::specs::Reader::gone_on, crate::specs::Reader::opened, crate::specs::Reader::quoted))]
impl Reader {
    /// Reads one more byte. Answers whether a path can go on so.
    fn step(&mut self, alloc: Global, byte: u8) -> Result<bool, AllocError>
        requires { NameIsText self.old.phase self.old.name.items }
        ensures { IfOk result (λ taken. step (state_of self.old) byte ≡ cond taken (Some (state_of self.new)) None) }
    {
        match self.phase {
            Phase::Start => Ok(self.begin(byte)),
            Phase::Root(matched) => Ok(self.go_on(matched, byte)),
            Phase::Between => Ok(self.open(byte)),
            Phase::Dot => self.add_if(is_name_byte(byte), Phase::Name, byte),
            Phase::Name => self.name_on(alloc, byte),
            Phase::Bracket => Ok(self.enter(byte)),
            Phase::Quoted(quote) => self.quote(quote, byte),
            Phase::Escape(quote) => self.add_if(is_escaped(byte), Phase::Quoted(quote), byte),
            Phase::Closing => self.leave(alloc, byte),
        }
    }

    fn begin(&mut self, byte: u8) -> bool
        ensures { begun (state_of self.old) byte ≡ cond result (Some (state_of self.new)) None }
    {
        self.root = match byte {
            b'b' => Root::Body,
            b'a' => Root::Attributes,
            b'r' => Root::Resource,
            _ => return false,
        };
        self.phase = Phase::Root(1);
        true
    }

    fn go_on(&mut self, matched: usize, byte: u8) -> bool
        ensures { gone_on (state_of self.old) matched byte ≡ cond result (Some (state_of self.new)) None }
    {
        let name = name_of(self.root);
        if matched >= name.len() || byte != name[matched] {
            return false;
        }
        self.phase = if matched + 1 == name.len() {
            Phase::Between
        } else {
            Phase::Root(matched + 1)
        };
        true
    }

    fn open(&mut self, byte: u8) -> bool
        ensures { opened (state_of self.old) byte ≡ cond result (Some (state_of self.new)) None }
    {
        if self.names.len() >= MAX_MEMBERS {
            return false;
        }
        self.phase = match byte {
            b'.' => Phase::Dot,
            b'[' => Phase::Bracket,
            _ => return false,
        };
        self.name.clear();
        true
    }

    fn enter(&mut self, byte: u8) -> bool
        ensures { entered (state_of self.old) byte ≡ cond result (Some (state_of self.new)) None }
    {
        if is_quote(byte) {
            self.phase = Phase::Quoted(byte);
            return true;
        }
        false
    }

    fn add_if(&mut self, fits: bool, next: Phase, byte: u8) -> Result<bool, AllocError>
        ensures { IfOk result (λ taken. cond fits (Some (named (state_of self.old) next byte)) None
            ≡ cond taken (Some (state_of self.new)) None) }
    {
        if fits {
            self.add(next, byte)?;
        }
        Ok(fits)
    }

    fn add(&mut self, next: Phase, byte: u8) -> Result<(), AllocError>
        ensures { OnOk result (state_of self.new ≡ named (state_of self.old) next byte) }
    {
        self.name.push(byte)?;
        self.phase = next;
        Ok(())
    }

    fn name_on(&mut self, alloc: Global, byte: u8) -> Result<bool, AllocError>
        requires { IsUtf8 self.old.name.items }
        ensures { IfOk result (λ taken. named_on (state_of self.old) byte ≡ cond taken (Some (state_of self.new)) None) }
    {
        if is_name_byte(byte) {
            self.add(Phase::Name, byte)?;
            return Ok(true);
        }
        self.close(alloc)?;
        Ok(self.open(byte))
    }

    fn quote(&mut self, quote: u8, byte: u8) -> Result<bool, AllocError>
        ensures { IfOk result (λ taken. Some (quoted (state_of self.old) quote byte)
            ≡ cond taken (Some (state_of self.new)) None) }
    {
        if byte == quote {
            self.phase = Phase::Closing;
        } else if byte == b'\\' {
            self.phase = Phase::Escape(quote);
        } else {
            self.add(Phase::Quoted(quote), byte)?;
        }
        Ok(true)
    }

    fn leave(&mut self, alloc: Global, byte: u8) -> Result<bool, AllocError>
        requires { IsUtf8 self.old.name.items }
        ensures { IfOk result (λ taken. left (state_of self.old) byte ≡ cond taken (Some (state_of self.new)) None) }
    {
        if byte != b']' {
            return Ok(false);
        }
        self.close(alloc)?;
        self.phase = Phase::Between;
        Ok(true)
    }

    /// Answers whether the path may end here, and closes its last name.
    fn end(&mut self, alloc: Global) -> Result<bool, AllocError>
        requires { NameIsText self.old.phase self.old.name.items }
        ensures names { IfOk result (λ whole. names_read (state_of self.old) ≡ cond whole (Some self.new.names.items) None) }
        ensures root { self.new.root ≡ self.old.root }
    {
        match self.phase {
            Phase::Between => Ok(true),
            Phase::Name => {
                self.close(alloc)?;
                Ok(true)
            }
            _ => Ok(false),
        }
    }

    /// Puts the name that was read behind the others.
    fn close(&mut self, alloc: Global) -> Result<(), AllocError>
        requires { IsUtf8 self.old.name.items }
        ensures closed { OnOk result (state_of self.new ≡ closed (state_of self.old)) }
        ensures root { self.new.root ≡ self.old.root }
    {
        let name = mem::replace(&mut self.name, Vec::new(alloc));
        let Ok(text) = String::from_utf8(name) else {
            unreachable!()
        };
        self.names.push(Text::new(text)?)?;
        Ok(())
    }
}

#[tactic(auto, unfolding(crate::specs::PathText::root_name))]
fn name_of(root: Root) -> &'static [u8]
    ensures { result.now ≡ root_name root }
{
    match root {
        Root::Body => b"body",
        Root::Attributes => b"attributes",
        Root::Resource => b"resource",
    }
}

#[tactic(auto, unfolding(crate::specs::PathText::is_name_byte))]
fn is_name_byte(byte: u8) -> bool
    ensures { result ≡ is_name byte }
{
    byte.is_ascii_alphanumeric() || byte == b'_' || byte == b'-'
}

#[tactic(auto, unfolding(crate::specs::PathText::is_quote))]
fn is_quote(byte: u8) -> bool
    ensures { result ≡ is_quote_byte byte }
{
    byte == b'"' || byte == b'\''
}

#[tactic(auto, unfolding(crate::specs::PathText::is_escaped, crate::specs::PathText::is_quote))]
fn is_escaped(byte: u8) -> bool
    ensures { result ≡ is_escaped_byte byte }
{
    is_quote(byte) || byte == b'\\'
}
