//! What the definitions imply.
ghost use Rattle.std.specs.List.{list_all};
ghost use Rattle.std.specs.Prelude.{◌≡◌, ℕ, ◌+◌, [], ◌++◌, List, length, true, false};
ghost use Rattle.std.specs.Str.{bytes_eq};
ghost use Rattle.entry_model.specs.LogRecord.{LogRecord};
ghost use Rattle.graph_core.specs.Traces.{Network, start_states};
ghost use Rattle.line_splitter.specs.Cuts.{IsCutRule};
ghost use Rattle.op_kinds.specs.Kept.{Kept, is_fresh};
ghost use Rattle.op_kinds.specs.StateTexts.{Tells, states_in};
ghost use Rattle.op_kinds.specs.States.{states_spelling, kinds_of, Spell, SpellNone};
ghost use Rattle.pipeline.specs.AsRules.{rules_of};
ghost use Rattle.pipeline.specs.Closed.{Finished};
ghost use Rattle.pipeline.specs.Fed.{Fed};
ghost use Rattle.pipeline.specs.GraphOutput.{graph_output, kept_from, given_from};
ghost use Rattle.pipeline.specs.Origin.{origin_of};
ghost use Rattle.pipeline.specs.Parts.{settings_of, network};
ghost use Rattle.pipeline.specs.RowStates.{AreBytes, IsStateOfRow, TakesRest, TakesTokens};
ghost use Rattle.pipeline.specs.Tokens.{first_cut_of, tokens_of, used_of};
ghost use Rattle.pipeline.specs.Wired.{IsNetwork};
ghost use Rattle.settings_text.specs.Limits.{KeepsLimits};
ghost use Rattle.settings_text.specs.declared.settings.OpSpec.{OpSpec};
ghost use Rattle.pipeline.specs.declared.state.FileState.{FileState};
ghost use Rattle.standing.specs.AreRules.{AreRules};
ghost use Rattle.standing.specs.Poll.{Poll};
ghost use Rattle.standing.specs.Rows.{Row};
ghost use Rattle.standing.specs.Tokens.{used};

use crate::Pipeline;
use graph_core::laws as graph;
use line_splitter::laws::lines_are_cut_by_a_rule;
use multiline::laws as several;
use otlp_json::laws::{line_is_one_line, line_tells_all, lines_append};

/// What comes out for some tokens is a prefix of what comes out for them and more.
pub fn keep_prefix(pipeline: &Pipeline)
    ensures { (path : List ℕ) (tokens more : List (List ℕ))
        → (rest : List LogRecord) × (graph_output (settings_of pipeline.now) (network pipeline.now) path (tokens ++ more)
        ≡ graph_output (settings_of pipeline.now) (network pipeline.now) path tokens ++ rest) }
{
    graph::begin(&pipeline.graph);
    graph::go_on(&pipeline.graph);
}

/// Operators make one network: what is built of the same settings at a restart goes on as what was built before it.
pub fn operators_make_one_network()
    ensures { (operators : List OpSpec) (network other : Network Kept LogRecord) → IsNetwork operators network → IsNetwork operators other → network ≡ other }
{}

/// The tokens of a file are cut by a rule, so the laws of line_splitter hold of them: more bytes change none of them, and
/// behind some of them stand the others.
pub fn tokens_are_cut_by_a_rule(pipeline: &Pipeline)
    ensures { IsCutRule (first_cut_of (settings_of pipeline.now)) }
{
    let max = pipeline.settings.max_log_size as usize;
    lines_are_cut_by_a_rule(max);
    several::tokens_are_cut_by_a_rule(max);
}

/// What the operators keep and what comes out for one list of tokens and then another: that of the first, and then that of
/// the second from there.
pub fn go_on(pipeline: &Pipeline)
    ensures none { (path : List ℕ) (before : ℕ) (states : List Kept) → kept_from (settings_of pipeline.now) (network pipeline.now) path before states [] ≡ states }
    ensures nothing { (path : List ℕ) (before : ℕ) (states : List Kept) → given_from (settings_of pipeline.now) (network pipeline.now) path before states [] ≡ [] }
    ensures kept { (path : List ℕ) (before : ℕ) (states : List Kept) (earlier later : List (List ℕ))
        → kept_from (settings_of pipeline.now) (network pipeline.now) path before states (earlier ++ later)
        ≡ kept_from (settings_of pipeline.now) (network pipeline.now) path (before + length earlier)
        (kept_from (settings_of pipeline.now) (network pipeline.now) path before states earlier) later }
    ensures given { (path : List ℕ) (before : ℕ) (states : List Kept) (earlier later : List (List ℕ))
        → given_from (settings_of pipeline.now) (network pipeline.now) path before states (earlier ++ later)
        ≡ given_from (settings_of pipeline.now) (network pipeline.now) path before states earlier
        ++ given_from (settings_of pipeline.now) (network pipeline.now) path (before + length earlier)
        (kept_from (settings_of pipeline.now) (network pipeline.now) path before states earlier) later }
{
    graph::begin(&pipeline.graph);
    graph::go_on(&pipeline.graph);
}

/// What [`Pipeline::feed`] does to the state of a row is what the rules say of the row, from any state that the row tells:
/// the tokens use as many bytes, the state is that of the row which has taken them, and their lines were appended.
pub fn a_row_is_fed_by_the_rules(pipeline: &Pipeline)
    ensures used { (settings_text bytes : List ℕ) → used (rules_of settings_text pipeline.now) bytes ≡ used_of (settings_of pipeline.now) bytes }
    ensures fed { (settings_text bytes : List ℕ) (poll : Poll) (row : Row) (before after : FileState) (out_before out_after : List ℕ)
        → poll.rules ≡ rules_of settings_text pipeline.now → IsStateOfRow pipeline.now row before
        → Fed (settings_of pipeline.now) (network pipeline.now) (origin_of row.id row.path poll.stamp) (tokens_of (settings_of pipeline.now) bytes) before after out_before out_after
        → TakesTokens pipeline.now poll bytes row after out_before out_after }
{
    lines_append();
}

/// What [`Pipeline::finish`] does to the state of a row is what the rules say of a rest, from any state that the row tells, where no
/// token of the bytes is one that more bytes can't change: no group is open then, and the lines of the rest and of the groups
/// were appended. A group is open exactly where the row's state isn't the first one.
pub fn a_row_is_flushed_by_the_rules(pipeline: &Pipeline)
    ensures flushed { (settings_text bytes : List ℕ) (poll : Poll) (row : Row) (before after : FileState × List ℕ)
        → poll.rules ≡ rules_of settings_text pipeline.now → IsStateOfRow pipeline.now row before.0 → poll.rules.cuts bytes ≡ []
        → Finished pipeline.now (origin_of row.id row.path poll.stamp) bytes before after → TakesRest pipeline.now poll bytes row before.1 after }
    ensures groups { (settings_text : List ℕ) (row : Row) (state : FileState) → IsStateOfRow pipeline.now row state
        → bytes_eq row.state (rules_of settings_text pipeline.now).fresh ≡ list_all is_fresh state.states.items }
{
    lines_append();
}

/// What a row keeps of its operators is a state by the rules exactly where it can be restored, and then there is one state.
/// What is spelled stands for what it spells.
pub fn a_row_tells_its_state(pipeline: &Pipeline)
    ensures fresh { (settings_text : List ℕ) → (rules_of settings_text pipeline.now).fresh ≡ states_spelling (start_states (network pipeline.now)) }
    ensures restored { (settings_text text : List ℕ) (states : List Kept) → Tells pipeline.now.graph text states
        → (rules_of settings_text pipeline.now).is_state text ≡ true }
    ensures refused { (settings_text text : List ℕ) (at : ℕ) → AreBytes text → SpellNone pipeline.now.graph text at
        → (rules_of settings_text pipeline.now).is_state text ≡ false }
    ensures one { (text : List ℕ) (states others : List Kept) → Tells pipeline.now.graph text states → Tells pipeline.now.graph text others
        → states ≡ others }
    ensures spelled { (text : List ℕ) (states : List Kept) → AreBytes text → Spell pipeline.now.graph text states → Tells pipeline.now.graph text states }
    ensures spells { (settings_text text : List ℕ) → AreBytes text → (rules_of settings_text pipeline.now).is_state text ≡ true
        → Spell pipeline.now.graph text (states_in (kinds_of pipeline.now.graph) text) }
{}

/// A pipeline of settings within their limits is rules for the polls of files, with which a promise on what they leave can be
/// made. `settings_text` is the text that the settings were read of.
pub fn a_pipeline_is_rules(pipeline: &Pipeline)
    ensures { (settings_text : List ℕ) → KeepsLimits (settings_of pipeline.now) → AreRules (rules_of settings_text pipeline.now) }
{
    graph::begin(&pipeline.graph);
    graph::go_on(&pipeline.graph);
    tokens_are_cut_by_a_rule(pipeline);
    line_is_one_line();
    line_tells_all();
}
