// Members out of keys and values, as `level=info msg="it began"`.
ghost use Rattle.std.specs.Prelude.{◌≡◌, ◌≢◌, ◌+◌, ◌^◌, ◌<◌, [], ◌∷◌, Some, length, option_map, IfOk, IfErr, OnOk};
ghost use Rattle.std.specs.BTreeMap.{insert_entry};
ghost use Rattle.std.specs.Cmp.Lexicographic.{slice_cmp};
ghost use Rattle.std.specs.Option.{ForSome};
ghost use Rattle.std.specs.Ordering.{nat_cmp};
ghost use Rattle.entry_model.specs.Datum.{datum, text as text_datum, members_of};
ghost use Rattle.entry_model.specs.Seen.{seen};
ghost use Rattle.text_parsers.specs.Pairs.{IsPairsText, IsPairsFault, IsFirstFault, TakesPiece, cleaned};
ghost use Rattle.text_parsers.specs.Pieces.{piece, filled};
ghost use Rattle.text_parsers.specs.TextValue.{IsTextWith, IsValueFault};
ghost use Rattle.text_parsers.specs.declared.fault.ParseFault.TheVariants.{Memory};

use crate::ParseFault;
use crate::blanks::{blanks_before, trim};
use crate::cuts::{Delimiter, first_cut};
use crate::members::put;
use crate::quotes::{unclosed_quote, unquote};
use entry_model::{Fields, FieldsBuilder, Text, Value};
use std::alloc::{AllocError, Global};
use std::marker::Model;

/// Takes the pairs of a text that is keys and values.
#[derive(Drop)]
pub struct KeyValueOp {
    within: Delimiter,
    between: Delimiter,
}

impl Model for KeyValueOp {
    ghost use Rattle.text_parsers.specs.Pairs.{Delimiters};

    ghost Value = { Delimiters };

    ghost view = { λ op. record { within = op.within; between = op.between } };
}

impl KeyValueOp {
    /// A key and its value stand around `delimiter`, and pairs around `pair_delimiter`, or around blanks where it is
    /// `None`.
    pub fn new(
        alloc: Global,
        delimiter: &str,
        pair_delimiter: Option<&str>,
    ) -> Result<KeyValueOp, AllocError>
        requires delimiter { delimiter.now ≢ [] }
        requires pair_delimiter { ForSome pair_delimiter (λ text. text.now ≢ []) }
        ensures { IfOk result (λ op. op ≡ record { within = Some delimiter.now; between = option_map (λ text. text.now) pair_delimiter.entry }) }
    {
        let within = Delimiter::new(alloc, delimiter)?;
        let between = match pair_delimiter {
            Some(text) => Delimiter::new(alloc, text)?,
            None => Delimiter::blank(),
        };
        Ok(KeyValueOp { within, between })
    }

    /// The values by their keys, as texts. A `"` or a `'` begins a quoted part, in which nothing is a delimiter and
    /// which the next same character ends. Blanks around a key or a value are taken away, and then one pair of quotes
    /// around it. Of a repeated key the last value stays. Pieces that have blanks alone are none.
    ///
    /// `Syntax` at a quote that isn't closed; then, of the first piece that is no pair, `NoDelimiter` or, where the key
    /// is empty, `Syntax`, at the first byte of the piece without its blanks. `NoDelimiter` at 0 where there is no piece.
    pub fn apply(&self, alloc: Global, value: &Value) -> Result<Fields, ParseFault>
        ensures ok { IfOk result (λ members. IsTextWith (datum value.now) (IsPairsText self.now (members_of (seen members.entries)))) }
        ensures fault { IfErr result (IsValueFault (IsPairsFault self.now) (datum value.now)) }
    {
        match value {
            Value::Text(text) => self.pairs(alloc, text.as_str()),
            Value::Null | Value::Bool(_) | Value::Int(_) | Value::List(_) | Value::Map(_) => {
                Err(ParseFault::NotText)
            }
        }
    }

    fn pairs(&self, alloc: Global, text: &str) -> Result<Fields, ParseFault>
        ensures ok { IfOk result (λ members. IsPairsText self.now (members_of (seen members.entries)) text.now) }
        ensures fault { IfErr result (IsPairsFault self.now text.now) }
    {
        if let Some(at) = unclosed_quote(text) {
            return Err(ParseFault::Syntax { at });
        }
        let mut members = FieldsBuilder::new(alloc);
        let mut rest = text;
        let mut at = 0;
        'pieces: while let Some(cut) = first_cut(&self.between, rest) {
            if let Err(fault) = take_piece(alloc, &self.within, &mut members, at, &rest[..cut]) {
                return Err(fault);
            }
            let next = cut + self.between.len();
            rest = &rest[next..];
            at += next;
        }
        if let Err(fault) = take_piece(alloc, &self.within, &mut members, at, rest) {
            return Err(fault);
        }
        if members.is_empty() {
            return Err(ParseFault::NoDelimiter { at: 0 });
        }
        match members.finish() {
            Ok(members) => Ok(members),
            Err(_) => Err(ParseFault::Memory),
        }
    }
}

/// Puts the pair of a piece that begins at this place into the members, unless it has blanks alone.
fn take_piece(
    alloc: Global,
    within: &Delimiter,
    members: &mut FieldsBuilder,
    at: usize,
    raw: &str,
) -> Result<(), ParseFault>
    requires { at + length raw.now < 2 ^ 64 }
    ensures ok { OnOk result (TakesPiece within.now (piece at raw.now) (seen members.old.entries) (seen members.new.entries)) }
    ensures fault { IfErr result (λ fault. fault ≢ Memory → IsFirstFault within.now (filled (piece at raw.now ∷ [])) fault) }
{
    let bytes = trim(raw);
    if bytes.is_empty() {
        return Ok(());
    }
    let at = at + blanks_before(raw);
    let Some(cut) = first_cut(within, bytes) else {
        return Err(ParseFault::NoDelimiter { at });
    };
    let key = clean(&bytes[..cut]);
    if key.is_empty() {
        return Err(ParseFault::Syntax { at });
    }
    let name = Text::from_str(alloc, key)?;
    put(alloc, members, name, clean(&bytes[cut + within.len()..]))?;
    Ok(())
}

/// The text without blanks, and then without a pair of quotes around it.
fn clean(part: &str) -> &str
    ensures { result.now ≡ cleaned part.now }
{
    unquote(trim(part))
}
