//! Which lines statements hold.

ghost use Rattle.std.specs.Prelude.{◌≡◌, ◌||◌, map};
ghost use Rattle.loop_stages.specs.Holding.{any_of, holds, holds_in_branch, is_break, is_exit, is_reduce};

use loop_data::{Branch, Statement};

/// Which lines a statement is or holds, or one of several statements.
#[derive(Clone, Copy, Debug)]
pub(crate) struct Held {
    /// An `@reduce`.
    pub(crate) reduces: bool,
    /// A `break`.
    pub(crate) breaks: bool,
    /// A `break`, a `continue` or an `@keep`.
    pub(crate) exits: bool,
}

impl Held {
    /// No such line.
    const NONE: Held = Held {
        reduces: false,
        breaks: false,
        exits: false,
    };

    /// What the one or the other holds.
    fn or(self, other: Held) -> Held
        ensures reduces { result.reduces ≡ (self.reduces || other.reduces) }
        ensures breaks { result.breaks ≡ (self.breaks || other.breaks) }
        ensures exits { result.exits ≡ (self.exits || other.exits) }
    {
        Held {
            reduces: self.reduces || other.reduces,
            breaks: self.breaks || other.breaks,
            exits: self.exits || other.exits,
        }
    }
}

/// What a statement is or holds.
#[tactic(auto, using(crate::proofs::HoldLemmas::ors))]
#[cycle(holding)]
pub(crate) fn held_in(statement: &Statement) -> Held
    ensures reduces { result.reduces ≡ holds is_reduce statement.now }
    ensures breaks { result.breaks ≡ holds is_break statement.now }
    ensures exits { result.exits ≡ holds is_exit statement.now }
{
    match statement {
        Statement::If {
            line: _,
            branches,
            else_line: _,
            other,
            end_line: _,
        } => held_in_branches(branches.as_slice()).or(held_in_block(other.as_slice())),
        Statement::Reduce {
            line: _,
            name: _,
            tower: _,
            start: _,
        } => Held {
            reduces: true,
            ..Held::NONE
        },
        Statement::Break { line: _ } => Held {
            breaks: true,
            exits: true,
            ..Held::NONE
        },
        Statement::Continue { line: _ } => Held {
            exits: true,
            ..Held::NONE
        },
        Statement::Keep {
            line: _,
            name: _,
            expr: _,
        } => Held {
            exits: true,
            ..Held::NONE
        },
        _ => Held::NONE,
    }
}

/// What the blocks of conditions hold.
#[tactic(auto, using(crate::proofs::HoldLemmas::ors))]
#[cycle(holding)]
fn held_in_branches(branches: &[Branch]) -> Held
    ensures reduces { result.reduces ≡ any_of (map (holds_in_branch is_reduce) branches.now) }
    ensures breaks { result.breaks ≡ any_of (map (holds_in_branch is_break) branches.now) }
    ensures exits { result.exits ≡ any_of (map (holds_in_branch is_exit) branches.now) }
{
    let mut held = Held::NONE;
    for branch in branches {
        held = held.or(held_in_block(branch.block.as_slice()));
    }
    held
}

/// What the statements of a block are or hold.
#[tactic(auto, using(crate::proofs::HoldLemmas::ors))]
#[cycle(holding)]
fn held_in_block(block: &[Statement]) -> Held
    ensures reduces { result.reduces ≡ any_of (map (holds is_reduce) block.now) }
    ensures breaks { result.breaks ≡ any_of (map (holds is_break) block.now) }
    ensures exits { result.exits ≡ any_of (map (holds is_exit) block.now) }
{
    let mut held = Held::NONE;
    for statement in block {
        held = held.or(held_in(statement));
    }
    held
}
