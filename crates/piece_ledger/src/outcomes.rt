//! What became of a part, and what one worker logged.

ghost use Rattle.std.specs.Prelude.{◌≡◌, ◌++◌, ◌∷◌, [], List, OnOk, OnErr};

use fold_seq::Reduced;
use no_memory::NoMemory;
use splittable::Part;
use std::alloc::Global;
use std::marker::Model;

/// What became of a part.
#[derive(Drop)]
pub enum OutcomeKind<S> {
    /// It was run, and gave this answer.
    Ran(Reduced<S>),
    /// It was skipped, since a stop at this place lies left of it.
    Skipped { seen: u64 },
}

/// A part, and what became of it.
#[derive(Drop)]
pub struct Outcome<S> {
    pub part: Part,
    pub kind: OutcomeKind<S>,
}

/// What one worker logged, in order.
#[derive(Drop)]
pub struct WorkerLog<S> {
    pub(crate) outcomes: Vec<Outcome<S>>,
}

impl<S> Model for WorkerLog<S> {
    ghost use Rattle.std.specs.Prelude.{List};
    ghost use Rattle.piece_ledger.specs.declared.outcomes.Outcome.{Outcome};

    ghost Value = { List (Outcome S) };

    ghost view = { λ log. log.outcomes.items };
}

impl<S: Drop> WorkerLog<S> {
    /// No outcomes.
    pub fn new(alloc: Global) -> WorkerLog<S>
        ensures { result ≡ [] }
    {
        WorkerLog {
            outcomes: Vec::new(alloc),
        }
    }

    /// Puts an outcome last. Refused, the log is as before, and the outcome is given up.
    pub fn push(&mut self, _alloc: Global, outcome: Outcome<S>) -> Result<(), NoMemory>
        ensures ok { OnOk result (self.new ≡ self.old ++ outcome ∷ []) }
        ensures err { OnErr result (self.new ≡ self.old) }
    {
        self.outcomes.push(outcome)?;
        Ok(())
    }

    /// Makes room for one outcome more, so that the next one is put there with no memory taken.
    pub fn make_room(&mut self) -> Result<(), NoMemory>
        ensures { self.new ≡ self.old }
    {
        self.outcomes.reserve(1)?;
        Ok(())
    }

    /// The outcomes, in order.
    pub fn as_slice(&self) -> &[Outcome<S>]
        ensures { result.now ≡ self.now }
    {
        self.outcomes.as_slice()
    }
}
