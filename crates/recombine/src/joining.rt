// A recombine, and what it does with an entry.
ghost use Rattle.std.specs.Prelude.{◌≡◌, ◌≤◌, ◌∷◌, ◌++◌, [], false, OnOk, IfOk, unwrap_or};
ghost use Rattle.entry_model.specs.LogRecord.{log_record};
ghost use Rattle.entry_model.specs.Datum.{datum, text};
ghost use Rattle.field_paths.specs.Change.{set_at};
ghost use Rattle.recombine.specs.Limits.{batch_limit};
ghost use Rattle.recombine.specs.Item.{is_first};
ghost use Rattle.recombine.specs.Recombined.{joined_text, text_in, recombined, entries_of};
ghost use Rattle.recombine.specs.Steps.{is_done};
ghost use Rattle.recombine.specs.Stepped.{IsStepped, effect, seen};
ghost use Rattle.recombine.specs.Table.{held_seen, item_seen};

use crate::group::{Coming, OpenGroup};
use crate::{Groups, StepFault};
use entry_model::{Entry, Text, Value};
use field_paths::{FieldPath, SetFault};
use state_codec::LEVELS;
use std::alloc::{AllocError, Global};
use std::marker::Model;

/// How entries of one source are joined. Contracts see it as what its settings say.
#[derive(Drop)]
pub struct Recombine {
    first: bool,
    field: FieldPath,
    with: Text,
    max: u32,
    newest: bool,
}

impl Model for Recombine {
    ghost use Rattle.std.specs.Prelude.{◌≤◌};
    ghost use Rattle.recombine.specs.Limits.{batch_limit};
    ghost use Rattle.recombine.specs.Joining.{Joining};

    ghost Value = { Joining };

    ghost view = { λ op. record { first_marks = op.first; field = op.field; separator = op.with; most_entries = op.max; newest = op.newest } };

    ghost invariant = { λ op. (1 ≤ op.max) × (op.max ≤ batch_limit) };
}

impl Recombine {
    /// Joins the texts at `field`, with `with` between two. `first` says whether marks are those of first entries or those of
    /// last ones; a group of `max` entries is ended. What goes on is the group's newest entry or its oldest.
    pub fn new(first: bool, field: FieldPath, with: Text, max: u32, newest: bool) -> Recombine
        requires some { 1 ≤ max }
        requires most { max ≤ batch_limit }
        ensures { result ≡ record { first_marks = first; field = field; separator = with; most_entries = max; newest = newest } }
    {
        Recombine {
            first,
            field,
            with,
            max,
            newest,
        }
    }

    /// Takes an entry of a source, with its mark, and puts behind `out` the entries that are sent on for it.
    ///
    /// `NotText` exactly where there is no text at the field, and else `TooDeep` exactly where the entry's body, attributes or
    /// resource are nested more than [`state_codec::LEVELS`] deep: then the entry comes back, and groups and `out` stay.
    pub fn step(
        &self,
        alloc: Global,
        groups: &mut Groups,
        mark: bool,
        source: &Text,
        entry: Entry,
        out: &mut Vec<Entry>,
    ) -> Result<(), StepFault>
        ensures { IsStepped (recombined self.now groups.old (record { source = source.now; mark = mark; entry = log_record entry }))
            (log_record entry) (effect groups.old groups.new out.old.items out.new.items) result }
    {
        let Some(text) = self.text_of(&entry)? else {
            return Err(StepFault::NotText { entry });
        };
        if !entry.nests_within(LEVELS as u32) {
            return Err(StepFault::TooDeep { entry });
        }
        let coming = Coming {
            source: source.share()?,
            text,
            mark,
            entry,
        };
        self.join(alloc, groups, coming, out)?;
        Ok(())
    }

    /// Ends all open groups, in order, and puts what they make behind `out`.
    pub fn close(
        &self,
        alloc: Global,
        groups: &mut Groups,
        out: &mut Vec<Entry>,
    ) -> Result<(), AllocError>
        ensures left { groups.new ≡ [] }
        ensures sent { OnOk result (seen out.new.items ≡ seen out.old.items ++ entries_of self.now groups.old) }
    {
        for group in groups.take_all(alloc) {
            self.send(alloc, group, out)?;
        }
        Ok(())
    }

    /// Sends a group on.
    pub(crate) fn send(
        &self,
        alloc: Global,
        group: Box<OpenGroup>,
        out: &mut Vec<Entry>,
    ) -> Result<(), AllocError>
        ensures { OnOk result (seen out.new.items ≡ seen out.old.items ++ entries_of self.now (held_seen group ∷ [])) }
    {
        let group = Box::into_inner(group);
        let text = Text::new(group.text)?;
        self.send_with(alloc, text, group.base, out)
    }

    /// Sends an entry on with this text at the field, or as it is where that can't be put there.
    pub(crate) fn send_with(
        &self,
        alloc: Global,
        joined: Text,
        base: Entry,
        out: &mut Vec<Entry>,
    ) -> Result<(), AllocError>
        ensures { OnOk result (seen out.new.items ≡ seen out.old.items ++ unwrap_or (set_at self.now.field (text joined) (log_record base)) (log_record base) ∷ []) }
    {
        let mut entry = base;
        match self.field.set(alloc, &mut entry, Value::Text(joined)) {
            Ok(()) | Err(SetFault::NotAMap) => {
                out.push(entry)?;
                Ok(())
            }
            Err(SetFault::Memory) => Err(AllocError),
        }
    }

    pub(crate) fn is_first(&self, x: &Coming) -> bool
        ensures { result ≡ is_first self.now (item_seen x.now) }
    {
        self.first && x.mark
    }

    pub(crate) fn is_newest(&self) -> bool
        ensures { result ≡ self.now.newest }
    {
        self.newest
    }

    pub(crate) fn separator(&self) -> &str
        ensures { result.now ≡ self.now.separator }
    {
        self.with.as_str()
    }

    /// Whether a group that has so many entries with this one is ended.
    pub(crate) fn is_done(&self, x: &Coming, entries: u32) -> bool
        ensures value { result ≡ is_done self.now (item_seen x.now) entries }
        ensures few { result ≡ false → entries ≤ batch_limit }
    {
        if entries >= self.max {
            return true;
        }
        if !self.first && x.mark {
            return true;
        }
        x.text.len() > crate::BYTE_LIMIT
    }

    #[tactic(auto, unfolding(crate::specs::Recombined::joined_text))]
    fn text_of(&self, entry: &Entry) -> Result<Option<Text>, AllocError>
        ensures { IfOk result (λ found. found ≡ joined_text self.now (log_record entry.now)) }
    {
        match self.field.get(entry) {
            Some(value) => text_in(value),
            None => Ok(None),
        }
    }
}

/// The text that a value is, where it is one.
fn text_in(value: &Value) -> Result<Option<Text>, AllocError>
    ensures { IfOk result (λ found. found ≡ text_in (datum value.now)) }
{
    match value {
        Value::Text(text) => Ok(Some(text.share()?)),
        Value::Null | Value::Bool(_) | Value::Int(_) | Value::List(_) | Value::Map(_) => Ok(None),
    }
}
