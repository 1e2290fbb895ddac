ghost use Rattle.std.specs.Prelude.{◌≡◌, IfOk};

use crate::{Boxed, Expr};
use no_memory::NoMemory;
use std::alloc::Global;

/// A kind of tower, which says what the inputs of a name are folded into. `{:?}` of it is its words.
#[derive(PartialEq, Eq, Drop)]
pub enum Kind {
    /// `sum`: the exact sum.
    Sum,
    /// `prod`: the product, wrapped to 64 bits.
    Prod,
    /// `count`: the number of inputs.
    Count,
    /// `min`
    Least,
    /// `max`
    Greatest,
    /// `argmin`: the least with the least place where it stands.
    LeastAt,
    /// `argmax`: the greatest with the least place where it stands.
    GreatestAt,
    /// `first`
    First,
    /// `last`
    Last,
    /// `any`
    Any,
    /// `all`
    All,
    /// `list`: all inputs in order.
    Listed,
    /// `group`: the inputs of each key, folded by the inner tower.
    Grouped(Boxed<Kind>),
    /// `both`: two towers side by side.
    Both(Boxed<Kind>, Boxed<Kind>),
}

impl Kind {
    /// The same once more. Refused only for want of memory.
    pub fn copy(&self, alloc: Global) -> Result<Kind, NoMemory>
        ensures { IfOk result (λ k. k ≡ self.now) }
    {
        match self {
            Kind::Sum => Ok(Kind::Sum),
            Kind::Prod => Ok(Kind::Prod),
            Kind::Count => Ok(Kind::Count),
            Kind::Least => Ok(Kind::Least),
            Kind::Greatest => Ok(Kind::Greatest),
            Kind::LeastAt => Ok(Kind::LeastAt),
            Kind::GreatestAt => Ok(Kind::GreatestAt),
            Kind::First => Ok(Kind::First),
            Kind::Last => Ok(Kind::Last),
            Kind::Any => Ok(Kind::Any),
            Kind::All => Ok(Kind::All),
            Kind::Listed => Ok(Kind::Listed),
            Kind::Grouped(inner) => {
                let inner = Boxed::new(alloc, inner.get().copy(alloc)?)?;
                Ok(Kind::Grouped(inner))
            }
            Kind::Both(left, right) => {
                let left = Boxed::new(alloc, left.get().copy(alloc)?)?;
                let right = Boxed::new(alloc, right.get().copy(alloc)?)?;
                Ok(Kind::Both(left, right))
            }
        }
    }
}

/// What an `@reduce` line feeds: a tower with the expressions of its inputs.
#[derive(Debug, PartialEq, Eq, Drop)]
pub enum TowerExpr {
    /// A tower of one expression, so neither `Count` nor `Grouped` nor `Both`.
    Leaf { kind: Kind, expr: Expr },
    Count,
    Grouped { key: Expr, inner: Boxed<TowerExpr> },
    Both(Boxed<TowerExpr>, Boxed<TowerExpr>),
}

impl TowerExpr {
    /// The same once more. Refused only for want of memory.
    pub fn copy(&self, alloc: Global) -> Result<TowerExpr, NoMemory>
        ensures { IfOk result (λ t. t ≡ self.now) }
    {
        match self {
            TowerExpr::Leaf { kind, expr } => {
                let kind = kind.copy(alloc)?;
                let expr = expr.copy(alloc)?;
                Ok(TowerExpr::Leaf { kind, expr })
            }
            TowerExpr::Count => Ok(TowerExpr::Count),
            TowerExpr::Grouped { key, inner } => {
                let key = key.copy(alloc)?;
                let inner = Boxed::new(alloc, inner.get().copy(alloc)?)?;
                Ok(TowerExpr::Grouped { key, inner })
            }
            TowerExpr::Both(left, right) => {
                let left = Boxed::new(alloc, left.get().copy(alloc)?)?;
                let right = Boxed::new(alloc, right.get().copy(alloc)?)?;
                Ok(TowerExpr::Both(left, right))
            }
        }
    }
}
