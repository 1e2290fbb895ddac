//! A reducer that is chosen at run time.

ghost use Rattle.std.specs.Prelude.{◌≡◌, true, IfOk};
ghost use Rattle.loop_values.specs.Fits.{fits_tower};
ghost use Rattle.reducer_tower.specs.Stands.{Stands};

use crate::TowerState;
use crate::leaves::{
    count_merge, count_next, count_unit, found_merge, found_next, found_unit, list_merge,
    list_next, list_unit, placed_merge, placed_next, placed_unit, prod_merge, prod_next, prod_unit,
    sum_merge, sum_next, sum_unit, truth_merge, truth_next, truth_unit,
};
use crate::nested::{
    Nested, both_merge, both_next, both_unit, grouped_merge, grouped_next, grouped_unit,
};
use loop_data::{Kind, Value};
use no_memory::NoMemory;
use reducer_laws::{AllOf, AnyOf, FirstOf, Greatest, GreatestAt, LastOf, Least, LeastAt, Reducer};
use std::alloc::Global;

/// A reducer over values, chosen at run time by a kind of tower. It takes the inputs that fit the kind.
#[derive(Drop)]
pub struct Tower {
    /// What the inputs are folded into.
    pub kind: Kind,
}

impl Tower {
    /// The tower of a kind. Refused only for want of memory.
    pub fn new(alloc: Global, kind: &Kind) -> Result<Tower, NoMemory>
        ensures { IfOk result (λ tower. tower.kind ≡ kind.now) }
    {
        let kind = kind.copy(alloc)?;
        Ok(Tower { kind })
    }
}

impl Reducer for Tower {
    type Input = Value;

    type State = TowerState;

    ghost stands = { λ tower. Stands tower.kind };

    ghost accepts = { λ tower input. fits_tower tower.kind input ≡ true };

    ghost is_free = { λ _. ⊥ };

    ghost unit_is_free = { λ _. ⊥ };

    fn unit(&self, alloc: Global) -> Result<TowerState, NoMemory> {
        Nested::unit(&self.kind, alloc)
    }

    fn next(&self, alloc: Global, state: &mut TowerState, input: Value) -> Result<(), NoMemory> {
        Nested::next(&self.kind, alloc, state, input)
    }

    fn merge(
        &self,
        alloc: Global,
        left: TowerState,
        right: TowerState,
    ) -> Result<TowerState, NoMemory> {
        Nested::merge(&self.kind, alloc, left, right)
    }
}

impl Nested for Kind {
    ghost stands = { Stands };

    ghost accepts = { λ kind input. fits_tower kind input ≡ true };

    #[cycle(tower)]
    fn unit(&self, alloc: Global) -> Result<TowerState, NoMemory> {
        match self {
            Kind::Sum => sum_unit(alloc),
            Kind::Prod => prod_unit(alloc),
            Kind::Count => count_unit(alloc),
            Kind::Least => found_unit(alloc, &Least::<Value>::new()),
            Kind::Greatest => found_unit(alloc, &Greatest::<Value>::new()),
            Kind::LeastAt => placed_unit(alloc, &LeastAt::<Value>::new()),
            Kind::GreatestAt => placed_unit(alloc, &GreatestAt::<Value>::new()),
            Kind::First => found_unit(alloc, &FirstOf::<Value>::new()),
            Kind::Last => found_unit(alloc, &LastOf::<Value>::new()),
            Kind::Any => truth_unit(alloc, &AnyOf::new()),
            Kind::All => truth_unit(alloc, &AllOf::new()),
            Kind::Listed => list_unit(alloc),
            Kind::Grouped(inner) => grouped_unit(alloc, inner.get()),
            Kind::Both(left, right) => both_unit(alloc, left.get(), right.get()),
        }
    }

    #[cycle(tower)]
    fn next(&self, alloc: Global, state: &mut TowerState, input: Value) -> Result<(), NoMemory> {
        match self {
            Kind::Sum => sum_next(alloc, state, input),
            Kind::Prod => prod_next(alloc, state, input),
            Kind::Count => count_next(alloc, state, input),
            Kind::Least => found_next(alloc, &Least::<Value>::new(), state, input),
            Kind::Greatest => found_next(alloc, &Greatest::<Value>::new(), state, input),
            Kind::LeastAt => placed_next(alloc, &LeastAt::<Value>::new(), state, input),
            Kind::GreatestAt => placed_next(alloc, &GreatestAt::<Value>::new(), state, input),
            Kind::First => found_next(alloc, &FirstOf::<Value>::new(), state, input),
            Kind::Last => found_next(alloc, &LastOf::<Value>::new(), state, input),
            Kind::Any => truth_next(alloc, &AnyOf::new(), state, input),
            Kind::All => truth_next(alloc, &AllOf::new(), state, input),
            Kind::Listed => list_next(alloc, state, input),
            Kind::Grouped(inner) => grouped_next(alloc, inner.get(), state, input),
            Kind::Both(left, right) => both_next(alloc, left.get(), right.get(), state, input),
        }
    }

    #[cycle(tower)]
    fn merge(
        &self,
        alloc: Global,
        left: TowerState,
        right: TowerState,
    ) -> Result<TowerState, NoMemory> {
        match self {
            Kind::Sum => sum_merge(alloc, left, right),
            Kind::Prod => prod_merge(alloc, left, right),
            Kind::Count => count_merge(alloc, left, right),
            Kind::Least => found_merge(alloc, &Least::<Value>::new(), left, right),
            Kind::Greatest => found_merge(alloc, &Greatest::<Value>::new(), left, right),
            Kind::LeastAt => placed_merge(alloc, &LeastAt::<Value>::new(), left, right),
            Kind::GreatestAt => placed_merge(alloc, &GreatestAt::<Value>::new(), left, right),
            Kind::First => found_merge(alloc, &FirstOf::<Value>::new(), left, right),
            Kind::Last => found_merge(alloc, &LastOf::<Value>::new(), left, right),
            Kind::Any => truth_merge(alloc, &AnyOf::new(), left, right),
            Kind::All => truth_merge(alloc, &AllOf::new(), left, right),
            Kind::Listed => list_merge(alloc, left, right),
            Kind::Grouped(inner) => grouped_merge(alloc, inner.get(), left, right),
            Kind::Both(one, other) => both_merge(alloc, one.get(), other.get(), left, right),
        }
    }
}
