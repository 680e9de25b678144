//! What the definitions of operators imply.
ghost use Rattle.std.specs.Prelude.{◌≡◌, ◌↔◌, ℕ, ℤ, List, Some, ◌<◌};
ghost use Rattle.entry_model.specs.Datum.{Members};
ghost use Rattle.entry_model.specs.LogRecord.{LogRecord};
ghost use Rattle.op_kinds.specs.Compilable.{IsCompilable};
ghost use Rattle.op_kinds.specs.Compiled.{IsCompiledTo};
ghost use Rattle.op_kinds.specs.Kept.{Kept, keeps_groups};
ghost use Rattle.op_kinds.specs.Operator.{Operator, behavior_of, has_groups};
ghost use Rattle.op_kinds.specs.Readings.{Reading, IsLeastCause, readings};
ghost use Rattle.op_kinds.specs.Said.{groups_in, object_in, pairs_in, record_in};
ghost use Rattle.op_kinds.specs.Syslog.{told_by};
ghost use Rattle.op_kinds.specs.declared.cause.OpCause.{OpCause};
ghost use Rattle.op_kinds.specs.declared.types.syslog_parsing.Protocol.TheVariants as protocol;
ghost use Rattle.settings_text.specs.declared.settings.OpSpec.{OpSpec};
ghost use Rattle.syslog_parser.specs.Faults.{Tells3164, Tells5424};
ghost use Rattle.syslog_parser.specs.Told.{Meaning};
ghost use Rattle.settings_text.specs.Limits.{KindKeepsLimits};
ghost use Rattle.settings_text.specs.declared.settings.OpKind.{OpKind};
ghost use Rattle.text_parsers.specs.CsvRecords.{Columns, IsRecordText};
ghost use Rattle.text_parsers.specs.Cuts.{delimiter_len};
ghost use Rattle.text_parsers.specs.Groups.{IsMatchedText};
ghost use Rattle.text_parsers.specs.JsonObjects.{IsObjectText};
ghost use Rattle.text_parsers.specs.Pairs.{Delimiters, IsPairsText};

/// Operators can be compiled whose settings are within their limits.
pub fn kept_limits_suffice()
    ensures { (kind : OpKind) → KindKeepsLimits kind → IsCompilable kind }
{}

/// Settings ask for one operator at most.
pub fn settings_make_one_operator()
    ensures { (spec : OpSpec) (operator other : Operator) → IsCompiledTo spec operator → IsCompiledTo spec other → operator ≡ other }
{}

/// There is one cause at most for which settings make no operator, and none where they make one.
pub fn settings_have_one_cause()
    ensures one { (all : List Reading) (cause other : OpCause) → IsLeastCause all cause → IsLeastCause all other → cause ≡ other }
    ensures none { (spec : OpSpec) (operator : Operator) (cause : OpCause) → IsCompiledTo spec operator → IsLeastCause (readings spec) cause → ⊥ }
{}

/// An operator begins with a state of its kind, and keeps one of its kind behind each entry.
pub fn states_keep_their_kind()
    ensures first { (operator : Operator) → keeps_groups (behavior_of operator).first ≡ has_groups operator }
    ensures after { (operator : Operator) (kept : Kept) (entry : LogRecord) → keeps_groups kept ≡ has_groups operator
        → keeps_groups ((behavior_of operator).after kept entry) ≡ has_groups operator }
{}

/// A text says the members that the grammar of its parser gives it, and none where that gives none.
pub fn texts_say_members()
    ensures groups { (pattern text : List ℕ) (members : Members) → (groups_in pattern text ≡ Some members) ↔ IsMatchedText pattern members text }
    ensures object { (text : List ℕ) (members : Members) → (object_in text ≡ Some members) ↔ IsObjectText members text }
    ensures csv { (columns : Columns) (text : List ℕ) (members : Members) → (record_in columns text ≡ Some members) ↔ IsRecordText columns members text }
    ensures pairs { (delimiters : Delimiters) (text : List ℕ) (members : Members) → 0 < delimiter_len delimiters.between
        → (pairs_in delimiters text ≡ Some members) ↔ IsPairsText delimiters members text }
{}

/// A text tells what the message of syslog tells that it is by the grammar of its protocol, and nothing where it is none.
pub fn messages_tell_meanings()
    ensures rfc5424 { (text : List ℕ) (meaning : Meaning) → (told_by protocol.Rfc5424 text ≡ Some meaning) ↔ Tells5424 text meaning }
    ensures rfc3164 { (year : ℕ) (location : ℤ) (text : List ℕ) (meaning : Meaning) → (told_by (protocol.Rfc3164 year location) text ≡ Some meaning)
        ↔ Tells3164 year location text meaning }
{}
