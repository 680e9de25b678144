// Trees out of tokens.
ghost use Rattle.std.specs.Prelude.{◌≡◌, IfOk, IfErr, map, option_map, Some, ◌∷◌};
ghost use Rattle.entry_model.specs.Datum.{datum};
ghost use Rattle.expr_lang.specs.Begun.{takes_operand, wanted_by};
ghost use Rattle.expr_lang.specs.Grammar.{constant_of as constant, leaf_of as leaf};
ghost use Rattle.expr_lang.specs.Machine.{start, waiting, standing, settled, joined, closed, ended, opened, operand_step, operator_step, pattern_step, item_step, listed, frame, frames_of, phase as phase_of, wants_pattern, state_of, step, tree_at};
ghost use Rattle.expr_lang.specs.StepFault.{IsStepFault};
ghost use Rattle.expr_lang.specs.TreeOf.{tree};
ghost use Rattle.expr_lang.specs.Tree.{matching};
ghost use Rattle.regex.specs.Strings.{regex_source};

use crate::ExprReadFault;
use crate::frames::{Frame, has_group, has_room, join_all, join_and};
use crate::pattern::Pattern;
use crate::token::{Comparison, Token};
use crate::tree::Node;
use entry_model::{Value, Values};
use std::alloc::{AllocError, Global};

/// What came last, and what may come next.
#[derive(Drop)]
pub enum Phase {
    Operand,
    Operator { operand: Node, compared: bool },
    Pattern { at: usize, left: Node },
    FirstItem,
    NextItem(Values),
    AfterItem(Values),
}

/// The tokens so far.
pub struct Parser {
    phase: Phase,
    /// From the outermost to the innermost.
    frames: Vec<Frame>,
}

// By hand, so that what drops one goes by this call, and not by what each phase may hold.
impl Drop for Parser {
    fn drop(self) {
        let Parser {
            phase: _phase,
            frames: _frames,
        } = self;
    }
}

/// The kinds of tokens that may come next.
#[derive(Clone, Copy, Debug, PartialEq, Eq)]
pub enum Wanted {
    Operand { nests: bool },
    Operator { compared: bool, grouped: bool },
    Pattern,
    FirstItem,
    NextItem,
    AfterItem,
}

impl Wanted {
    pub fn takes_operand(&self) -> bool
        ensures { result ≡ takes_operand self.now }
    {
        matches!(self, Wanted::Operand { .. })
    }
}

impl Parser {
    pub fn new(alloc: Global) -> Parser
        ensures { state_of result ≡ start }
    {
        Parser {
            phase: Phase::Operand,
            frames: Vec::new(alloc),
        }
    }

    pub fn wanted(&self) -> Wanted
        ensures { result ≡ wanted_by (state_of self.now) }
    {
        match &self.phase {
            Phase::Operand => Wanted::Operand {
                nests: has_room(&self.frames),
            },
            Phase::Operator { compared, .. } => Wanted::Operator {
                compared: *compared,
                grouped: has_group(&self.frames),
            },
            Phase::Pattern { .. } => Wanted::Pattern,
            Phase::FirstItem => Wanted::FirstItem,
            Phase::NextItem(_) => Wanted::NextItem,
            Phase::AfterItem(_) => Wanted::AfterItem,
        }
    }

    /// The parser behind one more token, or `None` where that can't come next.
    pub fn step(
        self,
        alloc: Global,
        token: Token,
        at: usize,
    ) -> Result<Option<Parser>, ExprReadFault>
        ensures ok { IfOk result (λ next. step (state_of self) token at ≡ option_map state_of next) }
        ensures fault { IfErr result (IsStepFault (phase_of self.phase) token at) }
    {
        let Parser { phase, frames } = self;
        match phase {
            Phase::Operand => Ok(take_operand(alloc, frames, token, at)?),
            Phase::Operator { operand, compared } => {
                Ok(take_operator(alloc, frames, operand, compared, token, at)?)
            }
            Phase::Pattern { at: operator, left } => {
                take_pattern(alloc, frames, operator, left, token, at)
            }
            Phase::FirstItem => match token {
                Token::CloseList => Ok(Some(close_list(alloc, frames, Values::new(alloc))?)),
                token => Ok(take_item(frames, Values::new(alloc), token)?),
            },
            Phase::NextItem(items) => Ok(take_item(frames, items, token)?),
            Phase::AfterItem(items) => match token {
                Token::Comma => Ok(Some(Parser {
                    phase: Phase::NextItem(items),
                    frames,
                })),
                Token::CloseList => Ok(Some(close_list(alloc, frames, items)?)),
                _ => Ok(None),
            },
        }
    }

    /// The tree, or `None` where more tokens must come.
    pub fn end(self, alloc: Global) -> Result<Option<Node>, AllocError>
        ensures { IfOk result (λ root. tree_at (state_of self) ≡ option_map tree root) }
    {
        let Parser { phase, frames } = self;
        let Phase::Operator { operand, .. } = phase else {
            return Ok(None);
        };
        let (frames, operand) = join_all(alloc, frames, operand)?;
        Ok(whole(frames, operand))
    }
}

fn whole(mut frames: Vec<Frame>, operand: Node) -> Option<Node>
    ensures { ended (frames_of frames.items, tree operand) ≡ option_map tree result }
{
    match frames.pop() {
        Some(frame) => {
            drop(frame);
            drop(operand);
            None
        }
        None => Some(operand),
    }
}

/// The constant of a token that is one.
fn constant_of(token: Token) -> Option<Value>
    ensures { constant token ≡ option_map datum result }
{
    match token {
        Token::Null => Some(Value::Null),
        Token::Bool(flag) => Some(Value::Bool(flag)),
        Token::Int(number) => Some(Value::Int(number)),
        Token::Text(text) => Some(Value::Text(text)),
        _ => None,
    }
}

fn leaf_of(token: Token) -> Option<Node>
    ensures { leaf token ≡ option_map tree result }
{
    match token {
        Token::Path(path) => Some(Node::Path(path)),
        Token::SeverityNumber => Some(Node::SeverityNumber),
        Token::SeverityText => Some(Node::SeverityText),
        token => Some(Node::Constant(constant_of(token)?)),
    }
}

fn take_operand(
    alloc: Global,
    frames: Vec<Frame>,
    token: Token,
    at: usize,
) -> Result<Option<Parser>, AllocError>
    ensures { IfOk result (λ next. operand_step (frames_of frames.items) token at ≡ option_map state_of next) }
{
    match token {
        Token::Not => open(frames, Frame::Not { at }),
        Token::OpenGroup => open(frames, Frame::Group),
        Token::OpenList => Ok(open_list(frames)),
        token => match leaf_of(token) {
            Some(leaf) => Ok(Some(settle(alloc, frames, leaf)?)),
            None => Ok(None),
        },
    }
}

fn open(frames: Vec<Frame>, last: Frame) -> Result<Option<Parser>, AllocError>
    ensures { IfOk result (λ next. opened (frames_of frames.items) (waiting (frame last ∷ frames_of frames.items)) ≡ option_map state_of next) }
{
    if !has_room(&frames) {
        return Ok(None);
    }
    Ok(Some(wait(frames, last)?))
}

fn open_list(frames: Vec<Frame>) -> Option<Parser>
    ensures { operand_step (frames_of frames.items) Token.OpenList 0 ≡ option_map state_of result }
{
    if !has_room(&frames) {
        return None;
    }
    Some(Parser {
        phase: Phase::FirstItem,
        frames,
    })
}

/// The parser that waits for the frame's last operand.
fn wait(mut frames: Vec<Frame>, last: Frame) -> Result<Parser, AllocError>
    ensures { IfOk result (λ next. state_of next ≡ waiting (frame last ∷ frames_of frames.items)) }
{
    frames.push(last)?;
    Ok(Parser {
        phase: Phase::Operand,
        frames,
    })
}

/// The parser behind an operand, with the negations and the comparison of which it is the last part.
fn settle(alloc: Global, mut frames: Vec<Frame>, operand: Node) -> Result<Parser, AllocError>
    ensures { IfOk result (λ next. state_of next ≡ settled (frames_of frames.items) (tree operand)) }
{
    match frames.pop() {
        Some(Frame::Not { at }) => {
            let operand = Box::new(alloc, operand)?;
            settle(alloc, frames, Node::Not { at, operand })
        }
        Some(
            Frame::Compares {
                at,
                comparison,
                left,
            },
        ) => {
            let operand = Node::Compares {
                at,
                comparison,
                left: Box::new(alloc, left)?,
                right: Box::new(alloc, operand)?,
            };
            Ok(stand(frames, operand, true))
        }
        Some(frame) => {
            frames.push(frame)?;
            Ok(stand(frames, operand, false))
        }
        None => Ok(stand(frames, operand, false)),
    }
}

fn stand(frames: Vec<Frame>, operand: Node, compared: bool) -> Parser
    ensures { state_of result ≡ standing (frames_of frames.items) (tree operand) compared }
{
    Parser {
        phase: Phase::Operator { operand, compared },
        frames,
    }
}

fn take_operator(
    alloc: Global,
    frames: Vec<Frame>,
    operand: Node,
    compared: bool,
    token: Token,
    at: usize,
) -> Result<Option<Parser>, AllocError>
    ensures { IfOk result (λ next. operator_step (frames_of frames.items) (tree operand) compared token at ≡ option_map state_of next) }
{
    match token {
        Token::Compares(comparison) => compare(frames, operand, compared, comparison, at),
        Token::Matches => Ok(search(frames, operand, compared, at)),
        Token::And => {
            let (frames, left) = join_and(alloc, frames, operand)?;
            Ok(Some(wait(frames, Frame::And { at, left })?))
        }
        Token::Or => {
            let (frames, left) = join_all(alloc, frames, operand)?;
            Ok(Some(wait(frames, Frame::Or { at, left })?))
        }
        Token::CloseGroup => close_group(alloc, frames, operand),
        _ => Ok(None),
    }
}

fn compare(
    frames: Vec<Frame>,
    left: Node,
    compared: bool,
    comparison: Comparison,
    at: usize,
) -> Result<Option<Parser>, AllocError>
    ensures { IfOk result (λ next. operator_step (frames_of frames.items) (tree left) compared (Token.Compares comparison) at ≡ option_map state_of next) }
{
    if compared {
        return Ok(None);
    }
    let frame = Frame::Compares {
        at,
        comparison,
        left,
    };
    Ok(Some(wait(frames, frame)?))
}

fn search(frames: Vec<Frame>, left: Node, compared: bool, at: usize) -> Option<Parser>
    ensures { operator_step (frames_of frames.items) (tree left) compared Token.Matches at ≡ option_map state_of result }
{
    if compared {
        return None;
    }
    Some(Parser {
        phase: Phase::Pattern { at, left },
        frames,
    })
}

fn close_group(
    alloc: Global,
    frames: Vec<Frame>,
    operand: Node,
) -> Result<Option<Parser>, AllocError>
    ensures { IfOk result (λ next. closed (joined (frames_of frames.items) (tree operand)) ≡ option_map state_of next) }
{
    let (frames, operand) = join_all(alloc, frames, operand)?;
    leave_group(alloc, frames, operand)
}

fn leave_group(
    alloc: Global,
    mut frames: Vec<Frame>,
    operand: Node,
) -> Result<Option<Parser>, AllocError>
    ensures { IfOk result (λ next. closed (frames_of frames.items, tree operand) ≡ option_map state_of next) }
{
    match frames.pop() {
        Some(Frame::Group) => Ok(Some(settle(alloc, frames, operand)?)),
        Some(frame) => {
            drop(frame);
            drop(operand);
            Ok(None)
        }
        None => {
            drop(operand);
            Ok(None)
        }
    }
}

fn take_pattern(
    alloc: Global,
    frames: Vec<Frame>,
    operator: usize,
    left: Node,
    token: Token,
    at: usize,
) -> Result<Option<Parser>, ExprReadFault>
    ensures ok { IfOk result (λ next. pattern_step (frames_of frames.items) operator (tree left) token ≡ option_map state_of next) }
    ensures fault { IfErr result (IsStepFault (wants_pattern operator (tree left)) token at) }
{
    let Token::Text(source) = token else {
        return Ok(None);
    };
    let pattern = Pattern::new(alloc, source.as_str(), at)?;
    let operand = matches(alloc, operator, left, pattern)?;
    Ok(Some(stand(frames, operand, true)))
}

fn matches(alloc: Global, at: usize, left: Node, pattern: Pattern) -> Result<Node, AllocError>
    ensures { IfOk result (λ node. tree node ≡ matching at (tree left) (regex_source pattern.regex)) }
{
    let left = Box::new(alloc, left)?;
    let pattern = Box::new(alloc, pattern)?;
    Ok(Node::Matches { at, left, pattern })
}

fn take_item(
    frames: Vec<Frame>,
    mut items: Values,
    token: Token,
) -> Result<Option<Parser>, AllocError>
    ensures { IfOk result (λ next. item_step (frames_of frames.items) (map datum items.items) token ≡ option_map state_of next) }
{
    let Some(item) = constant_of(token) else {
        return Ok(None);
    };
    items.push(item)?;
    Ok(Some(Parser {
        phase: Phase::AfterItem(items),
        frames,
    }))
}

fn close_list(alloc: Global, frames: Vec<Frame>, items: Values) -> Result<Parser, AllocError>
    ensures { IfOk result (λ next. state_of next ≡ listed (frames_of frames.items) (map datum items.items)) }
{
    settle(alloc, frames, Node::Constant(Value::List(items)))
}
