// The parts of a tree that are open, and what ends them.
ghost use Rattle.std.specs.Prelude.{◌≡◌, ◌∷◌, ◌++◌, [], IfOk};
ghost use Rattle.std.specs.List.{count_by, list_any};
ghost use Rattle.expr_lang.specs.Begun.{is_group};
ghost use Rattle.expr_lang.specs.Machine.{joined_and, joined_or, joined, nests, has_room as have_room, frame, frames_of};
ghost use Rattle.expr_lang.specs.TreeOf.{tree};

use crate::token::Comparison;
use crate::tree::Node;
use std::alloc::{AllocError, Global};

/// The most levels of nesting: groups, lists and negations that are open at once.
const MAX_DEPTH: usize = 32;

/// A part of the tree whose last operand has not come yet.
#[derive(Drop)]
pub enum Frame {
    Group,
    Not {
        at: usize,
    },
    Compares {
        at: usize,
        comparison: Comparison,
        left: Node,
    },
    And {
        at: usize,
        left: Node,
    },
    Or {
        at: usize,
        left: Node,
    },
}

impl Frame {
    fn nests(&self) -> bool
        ensures { result ≡ nests (frame self.now) }
    {
        matches!(self, Frame::Group | Frame::Not { .. })
    }

    fn is_group(&self) -> bool
        ensures { result ≡ is_group (frame self.now) }
    {
        matches!(self, Frame::Group)
    }
}

/// Whether a group is open.
#[tactic(auto, using(crate::proofs::Stacks::groups_found, crate::proofs::Stacks::group_step, crate::proofs::Stacks::group_end))]
pub fn has_group(frames: &Vec<Frame>) -> bool
    ensures { result ≡ list_any is_group (frames_of frames.now.items) }
{
    for frame in frames {
        if frame.is_group() {
            return true;
        }
    }
    false
}

/// How many groups and negations are open.
fn open_levels(frames: &Vec<Frame>) -> usize
    ensures { result ≡ count_by (λ one. nests (frame one)) frames.now.items }
{
    let mut count = 0;
    for frame in frames {
        if frame.nests() {
            count += 1;
        }
    }
    count
}

#[tactic(auto, using(crate::proofs::Stacks::levels_counted))]
pub fn has_room(frames: &Vec<Frame>) -> bool
    ensures { result ≡ have_room (frames_of frames.now.items) }
{
    open_levels(frames) < MAX_DEPTH
}

fn boxed(alloc: Global, left: Node, right: Node) -> Result<(Box<Node>, Box<Node>), AllocError>
    ensures left { IfOk result (λ sides. sides.0.value ≡ left) }
    ensures right { IfOk result (λ sides. sides.1.value ≡ right) }
{
    let left = Box::new(alloc, left)?;
    let right = Box::new(alloc, right)?;
    Ok((left, right))
}

/// The operand, where the last frame stays.
fn put_back(
    mut frames: Vec<Frame>,
    frame: Frame,
    operand: Node,
) -> Result<(Vec<Frame>, Node), AllocError>
    ensures frames { IfOk result (λ join. join.0.items ≡ frames.items ++ (frame ∷ [])) }
    ensures operand { IfOk result (λ join. join.1 ≡ operand) }
{
    frames.push(frame)?;
    Ok((frames, operand))
}

/// An operand with the conjunction of which it is the last part.
pub fn join_and(
    alloc: Global,
    mut frames: Vec<Frame>,
    operand: Node,
) -> Result<(Vec<Frame>, Node), AllocError>
    ensures frames { IfOk result (λ join. frames_of join.0.items ≡ (joined_and (frames_of frames.items) (tree operand)).0) }
    ensures operand { IfOk result (λ join. tree join.1 ≡ (joined_and (frames_of frames.items) (tree operand)).1) }
{
    match frames.pop() {
        Some(Frame::And { at, left }) => {
            let (left, right) = boxed(alloc, left, operand)?;
            Ok((frames, Node::And { at, left, right }))
        }
        Some(frame) => put_back(frames, frame, operand),
        None => Ok((frames, operand)),
    }
}

/// An operand with the disjunction of which it is the last part.
fn join_or(
    alloc: Global,
    mut frames: Vec<Frame>,
    operand: Node,
) -> Result<(Vec<Frame>, Node), AllocError>
    ensures frames { IfOk result (λ join. frames_of join.0.items ≡ (joined_or (frames_of frames.items) (tree operand)).0) }
    ensures operand { IfOk result (λ join. tree join.1 ≡ (joined_or (frames_of frames.items) (tree operand)).1) }
{
    match frames.pop() {
        Some(Frame::Or { at, left }) => {
            let (left, right) = boxed(alloc, left, operand)?;
            Ok((frames, Node::Or { at, left, right }))
        }
        Some(frame) => put_back(frames, frame, operand),
        None => Ok((frames, operand)),
    }
}

pub fn join_all(
    alloc: Global,
    frames: Vec<Frame>,
    operand: Node,
) -> Result<(Vec<Frame>, Node), AllocError>
    ensures frames { IfOk result (λ join. frames_of join.0.items ≡ (joined (frames_of frames.items) (tree operand)).0) }
    ensures operand { IfOk result (λ join. tree join.1 ≡ (joined (frames_of frames.items) (tree operand)).1) }
{
    let (frames, operand) = join_and(alloc, frames, operand)?;
    join_or(alloc, frames, operand)
}
