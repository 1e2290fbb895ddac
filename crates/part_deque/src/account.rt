//! What is kept of each end of a deque, the rule that each step keeps, and what each step tells. No value of these types is
//! made: they exist for the proofs.

ghost use Rattle.std.specs.Prelude.{◌≡◌, ℕ, List};

use crossbeam_deque::protocol::{Join, Lesson, Outcome, Protocol, Split};
use crossbeam_deque::{Pass, Stealer, Worker};
use splittable::Part;
use std::alloc::Global;
use std::collections::LinkedList;
use std::marker::{Brand, PhantomData};

/// What is kept of an end. No value of it is made.
pub struct Account {
    /// How much it has of the right to know the whole deque.
    pub weight: u64,
    /// The lengths of the crew's shape.
    pub lens: LinkedList<u64>,
    /// The crew's least part size.
    pub least: u64,
    /// The parts that it pushed, in order.
    pub pushed: LinkedList<Part>,
    /// The parts that it popped or stole, in order.
    pub taken: LinkedList<Part>,
    /// Of the owner: what its pushes and pops leave.
    pub kept: LinkedList<Part>,
    /// How many of the taken parts were stolen.
    pub stolen: u64,
}

/// What was pushed is what was taken and what the deque holds.
pub struct Conserving;

impl Protocol<Part, Account> for Conserving {
    ghost use Rattle.part_deque.specs.Rule.{DequeRule, opening, spent};

    ghost holds = { DequeRule };

    ghost first = { opening };

    ghost guest = { spent };
}

/// The worker's side of a deque under the rule.
pub(crate) type RuledWorker = Worker<Part, Global, Account, Conserving>;

/// The thieves' side.
pub(crate) type RuledStealer = Stealer<Part, Global, Account, Conserving>;

/// A right to take a step, with the account of what was done by it. It has no bytes.
pub(crate) type Right = Pass<Part, Account>;

/// A push at the back.
pub(crate) struct Pushing;

impl Outcome<Part, Account> for Pushing {
    ghost use Rattle.part_deque.specs.Tells.{Pushed};

    ghost then = { Pushed };
}

/// A pop at the back.
pub(crate) struct Popping;

impl Outcome<Part, Account> for Popping {
    ghost use Rattle.part_deque.specs.Tells.{Popped, KnowsAllGone};

    ghost then = { Popped };

    ghost empty = { KnowsAllGone };
}

/// A steal at the front.
pub(crate) struct Stealing;

impl Outcome<Part, Account> for Stealing {
    ghost use Rattle.part_deque.specs.Tells.{Stolen};

    ghost then = { Stolen };
}

/// The shape and the least part size that a deque is made for. Each making picks them.
pub(crate) trait Crew {
    ghost lens: { List ℕ };

    ghost least: { ℕ };
}

impl Crew for Brand {
    ghost use Rattle.std.specs.Prelude.{[]};

    ghost lens = { [] };

    ghost least = { 0 };
}

/// The first cut of a new deque's right, which names the shape and the least part size.
pub(crate) struct Opening<C: Crew> {
    crew: PhantomData<C>,
}

impl<C: Crew> Split<Account> for Opening<C> {
    ghost use Rattle.part_deque.specs.Steps.{named, right_of};

    ghost left = { λ v. named C.lens C.least v };

    ghost right = { λ v. right_of C.lens C.least };
}

/// Cuts one right off.
pub(crate) struct Cutting;

impl Split<Account> for Cutting {
    ghost use Rattle.part_deque.specs.Steps.{lighter, right_of};

    ghost left = { lighter };

    ghost right = { λ v. right_of v.lens v.least };
}

/// The owner takes in a right, with what was done by it.
pub(crate) struct Joining;

impl Join<Account> for Joining {
    ghost use Rattle.part_deque.specs.Rule.{spent};
    ghost use Rattle.part_deque.specs.Steps.{together};

    ghost both = { together };

    ghost spent = { spent };
}

/// No end weighs more than all together.
pub(crate) struct Weighing;

impl Lesson<Part, Account> for Weighing {
    ghost use Rattle.std.specs.Prelude.{◌≤◌};
    ghost use Rattle.part_deque.specs.Rule.{whole_weight};

    ghost fact = { λ v parts. v.weight ≤ whole_weight };
}
