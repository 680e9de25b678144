// The list of operators.
ghost use Rattle.std.specs.Prelude.{◌≡◌, ◌++◌, [], codes, IfOk, string_bytes};
ghost use Rattle.serde_json.specs.View.{view, items_view};
ghost use Rattle.settings_text.specs.Kinds as kinds;
ghost use Rattle.settings_text.specs.Operators as operators;
ghost use Rattle.settings_text.specs.Outcome.{Gives};

use crate::fault::SettingsFault;
use crate::ids::default_id;
use crate::kinds::{check_known, optional_text, optional_texts, text};
use crate::lists::Operators;
use crate::place::{item_place, place};
use crate::settings::{OnError, OpKind, OpSpec};
use crate::texts::Texts;
use crate::types::{
    adding, container_reading, copying, csv_parsing, filtering, flattening, json_parsing,
    key_value_parsing, moving, recombining, regex_parsing, removing, retaining, routing,
    severity_parsing, syslog_parsing, time_parsing,
};
use crate::words::{Words, is_one_of, meaning, named_or};
use entry_model::Text;
use serde_json::Value;
use std::alloc::{AllocError, Global};

/// The most operators that a list may have.
const MOST_OPERATORS: usize = 64;

#[derive(Clone, Copy)]
enum OpType {
    Noop,
    Container,
    Move,
    Copy,
    Add,
    Remove,
    Flatten,
    Retain,
    Filter,
    Csv,
    Json,
    KeyValue,
    Regex,
    Time,
    Severity,
    Syslog,
    Router,
    Recombine,
}

impl OpType {
    fn named(name: &str) -> Option<OpType>
        ensures { result ≡ operators.type_named name.now }
    {
        let words = [
            ("noop", OpType::Noop),
            ("container", OpType::Container),
            ("move", OpType::Move),
            ("copy", OpType::Copy),
            ("add", OpType::Add),
            ("remove", OpType::Remove),
            ("flatten", OpType::Flatten),
            ("retain", OpType::Retain),
            ("filter", OpType::Filter),
            ("csv_parser", OpType::Csv),
            ("json_parser", OpType::Json),
            ("key_value_parser", OpType::KeyValue),
            ("regex_parser", OpType::Regex),
            ("time_parser", OpType::Time),
            ("severity_parser", OpType::Severity),
            ("syslog_parser", OpType::Syslog),
            ("router", OpType::Router),
            ("recombine", OpType::Recombine),
        ];
        meaning(&words, name)
    }

    fn has_own_key(self, object: &Value, name: &str) -> bool
        ensures { result ≡ operators.is_own_key self (view object.now) name.now }
    {
        match self {
            OpType::Noop => false,
            OpType::Container => container_reading::is_key(name),
            OpType::Move => moving::is_key(name),
            OpType::Copy => copying::is_key(name),
            OpType::Add => adding::is_key(name),
            OpType::Remove => removing::is_key(name),
            OpType::Flatten => flattening::is_key(name),
            OpType::Retain => retaining::is_key(name),
            OpType::Filter => filtering::is_key(name),
            OpType::Csv => csv_parsing::is_key(name),
            OpType::Json => json_parsing::is_key(name),
            OpType::KeyValue => key_value_parsing::is_key(name),
            OpType::Regex => regex_parsing::is_key(name),
            OpType::Time => time_parsing::is_key(name),
            OpType::Severity => severity_parsing::is_key(name),
            OpType::Syslog => syslog_parsing::is_key(object, name),
            OpType::Router => routing::is_key(name),
            OpType::Recombine => recombining::is_key(name),
        }
    }

    /// What the type's own keys say.
    fn read(self, alloc: Global, object: &Value, at: &str) -> Result<OpKind, SettingsFault>
        ensures { Gives (λ kind. kind) result (operators.kind_of self at.now (view object.now)) }
    {
        match self {
            OpType::Noop => Ok(OpKind::Noop),
            OpType::Container => container_reading::read(alloc, object, at),
            OpType::Move => moving::read(alloc, object, at),
            OpType::Copy => copying::read(alloc, object, at),
            OpType::Add => adding::read(alloc, object, at),
            OpType::Remove => removing::read(alloc, object, at),
            OpType::Flatten => flattening::read(alloc, object, at),
            OpType::Retain => retaining::read(alloc, object, at),
            OpType::Filter => filtering::read(alloc, object, at),
            OpType::Csv => csv_parsing::read(alloc, object, at),
            OpType::Json => json_parsing::read(alloc, object, at),
            OpType::KeyValue => key_value_parsing::read(alloc, object, at),
            OpType::Regex => regex_parsing::read(alloc, object, at),
            OpType::Time => time_parsing::read(alloc, object, at),
            OpType::Severity => severity_parsing::read(alloc, object, at),
            OpType::Syslog => syslog_parsing::read(alloc, object, at),
            OpType::Router => routing::read(alloc, object, at),
            OpType::Recombine => recombining::read(alloc, object, at),
        }
    }

    fn has_shared_key(self, name: &str) -> bool
        ensures { result ≡ operators.is_shared_key self name.now }
    {
        match self {
            OpType::Router => is_one_of(name, &["type", "id", "on_error"]),
            _ => is_one_of(name, &["type", "id", "on_error", "output", "if"]),
        }
    }
}

/// The keys of an object that is an operator of a type.
#[derive(Clone, Copy)]
struct OperatorKeys<'v> {
    op_type: OpType,
    object: &'v Value,
}

impl Words for OperatorKeys<'_> {
    ghost use Rattle.serde_json.specs.View.{view};
    ghost use Rattle.settings_text.specs.Operators.{is_key_of};

    ghost test = { λ keys. is_key_of keys.op_type (view keys.object.now) };

    fn has(&self, name: &str) -> bool {
        self.op_type.has_shared_key(name) || self.op_type.has_own_key(self.object, name)
    }
}

/// An operator before its id is settled.
struct Draft {
    type_name: Text,
    id: Option<Text>,
    output: Option<Texts>,
    condition: Option<Text>,
    on_error: OnError,
    kind: OpKind,
}

impl Drop for Draft {
    fn drop(self) {
        let Draft {
            type_name: _type_name,
            id: _id,
            output: _output,
            condition: _condition,
            on_error: _on_error,
            kind: _kind,
        } = self;
    }
}

impl Draft {
    fn settle(self, id: Text) -> OpSpec
        ensures { result ≡ operators.with_id id self }
    {
        let Draft {
            type_name: _type_name,
            id: _written,
            output,
            condition,
            on_error,
            kind,
        } = self;
        OpSpec {
            id,
            condition,
            on_error,
            output,
            kind,
        }
    }
}

#[tactic(auto, unfolding(crate::specs::Operators::front))]
fn front(alloc: Global, index: usize) -> Result<String, AllocError>
    ensures { IfOk result (λ text. string_bytes text ≡ operators.front index) }
{
    let place = item_place(alloc, "", "operators", index)?;
    format!(in alloc; "{place}.")
}

fn on_error(alloc: Global, object: &Value, at: &str) -> Result<OnError, SettingsFault>
    ensures { Gives (λ on_error. on_error) result
        (kinds.may at.now (codes "on_error") (kinds.name operators.on_error_named) OnError.Send (view object.now)) }
{
    let words = [
        ("send", OnError::Send),
        ("drop", OnError::Drop),
        ("send_quiet", OnError::SendQuiet),
        ("drop_quiet", OnError::DropQuiet),
    ];
    named_or(alloc, object, at, "on_error", &words, OnError::Send)
}

#[tactic(auto, unfolding(crate::specs::Operators::draft))]
fn draft_of(alloc: Global, object: &Value, index: usize) -> Result<Draft, SettingsFault>
    ensures { Gives (λ draft. draft) result (operators.draft index (view object.now)) }
{
    let Some(members) = object.as_object() else {
        return Err(SettingsFault::WrongKind {
            key: item_place(alloc, "", "operators", index)?,
        });
    };
    let front = front(alloc, index)?;
    let at = front.as_str();
    let type_name = text(alloc, object, at, "type")?;
    let Some(op_type) = OpType::named(type_name.as_str()) else {
        return Err(SettingsFault::OutOfRange {
            key: place(alloc, at, "type")?,
        });
    };
    check_known(alloc, members, at, &OperatorKeys { op_type, object })?;
    let id = optional_text(alloc, object, at, "id")?;
    let output = optional_texts(alloc, object, at, "output")?;
    let condition = optional_text(alloc, object, at, "if")?;
    let on_error = on_error(alloc, object, at)?;
    let kind = op_type.read(alloc, object, at)?;
    Ok(Draft {
        type_name,
        id,
        output,
        condition,
        on_error,
        kind,
    })
}

fn drafts_of(alloc: Global, values: &Vec<Value>) -> Result<Vec<Draft>, SettingsFault>
    ensures { Gives (λ drafts. drafts.items) result
        (kinds.each operators.draft 0 (items_view values.now.items)) }
{
    let mut drafts = Vec::new(alloc);
    for (index, value) in values.iter().enumerate() {
        let draft = draft_of(alloc, value, index)?;
        drafts.push(draft)?;
    }
    Ok(drafts)
}

fn written_ids(alloc: Global, drafts: &[Draft]) -> Result<Vec<Text>, AllocError>
    ensures { IfOk result (λ ids. ids.items ≡ operators.written_ids drafts.now) }
{
    let mut ids = Vec::new(alloc);
    for draft in drafts {
        if let Some(id) = &draft.id {
            ids.push(id.share()?)?;
        }
    }
    Ok(ids)
}

fn id_of(alloc: Global, taken: &[Text], draft: &Draft) -> Result<Text, AllocError>
    ensures { IfOk result (λ id. id ≡ operators.id_of taken.now draft.now) }
{
    match &draft.id {
        Some(id) => id.share(),
        None => default_id(alloc, draft.type_name.as_str(), taken),
    }
}

fn settle_all(
    alloc: Global,
    mut taken: Vec<Text>,
    mut drafts: Vec<Draft>,
) -> Result<Vec<OpSpec>, AllocError>
    ensures { IfOk result (λ settled. settled.items ≡ operators.with_ids taken.items drafts.items) }
{
    let mut settled = Vec::new(alloc);
    'settling: while !drafts.as_slice().is_empty() {
        let draft = drafts.remove(0);
        let id = id_of(alloc, &taken, &draft)?;
        taken.push(id.share()?)?;
        settled.push(draft.settle(id))?;
    }
    Ok(settled)
}

/// The operators, none where the key is missing.
pub fn operators(alloc: Global, object: &Value) -> Result<Operators, SettingsFault>
    ensures { Gives (λ all. all) result
        (kinds.may [] (codes "operators") operators.operators [] (view object.now)) }
{
    let Some(value) = object.get("operators") else {
        return Ok(Operators::new(Vec::new(alloc)));
    };
    let Some(values) = value.as_array() else {
        return Err(SettingsFault::WrongKind {
            key: place(alloc, "", "operators")?,
        });
    };
    if values.as_slice().len() > MOST_OPERATORS {
        return Err(SettingsFault::OutOfRange {
            key: place(alloc, "", "operators")?,
        });
    }
    let drafts = drafts_of(alloc, values)?;
    let taken = written_ids(alloc, &drafts)?;
    Ok(Operators::new(settle_all(alloc, taken, drafts)?))
}
