//! The kind of a tower, its expressions aside.

ghost use Rattle.std.specs.Prelude.{◌≡◌, ◌↔◌, IfOk, IsTrue};
ghost use Rattle.tower_inputs.specs.Towers.{kind_of_tower, same_tower};

use loop_data::{Boxed, Kind, TowerExpr};
use no_memory::NoMemory;
use std::alloc::Global;

/// The kind of a tower, its expressions aside. Refused only for want of memory.
pub fn kind_of_tower(alloc: Global, tower: &TowerExpr) -> Result<Kind, NoMemory>
    ensures { IfOk result (λ kind. kind ≡ kind_of_tower tower.now) }
{
    match tower {
        TowerExpr::Leaf { kind, expr: _ } => kind.copy(alloc),
        TowerExpr::Count => Ok(Kind::Count),
        TowerExpr::Grouped { key: _, inner } => {
            let inner = kind_of_tower(alloc, inner.get())?;
            Ok(Kind::Grouped(Boxed::new(alloc, inner)?))
        }
        TowerExpr::Both(left, right) => {
            let left = Boxed::new(alloc, kind_of_tower(alloc, left.get())?)?;
            let right = Boxed::new(alloc, kind_of_tower(alloc, right.get())?)?;
            Ok(Kind::Both(left, right))
        }
    }
}

/// Whether two kinds of tower are one, down their trees. It takes no memory.
pub fn is_same_tower(a: &Kind, b: &Kind) -> bool
    ensures value { result ≡ same_tower a.now b.now }
    ensures same { IsTrue result ↔ (a.now ≡ b.now) }
{
    same_tower(a, b)
}

/// Whether two kinds of tower are one, as the definition tests it.
fn same_tower(a: &Kind, b: &Kind) -> bool
    ensures { result ≡ same_tower a.now b.now }
{
    match a {
        Kind::Sum => matches!(b, Kind::Sum),
        Kind::Prod => matches!(b, Kind::Prod),
        Kind::Count => matches!(b, Kind::Count),
        Kind::Least => matches!(b, Kind::Least),
        Kind::Greatest => matches!(b, Kind::Greatest),
        Kind::LeastAt => matches!(b, Kind::LeastAt),
        Kind::GreatestAt => matches!(b, Kind::GreatestAt),
        Kind::First => matches!(b, Kind::First),
        Kind::Last => matches!(b, Kind::Last),
        Kind::Any => matches!(b, Kind::Any),
        Kind::All => matches!(b, Kind::All),
        Kind::Listed => matches!(b, Kind::Listed),
        Kind::Grouped(inner) => match b {
            Kind::Grouped(other) => same_tower(inner.get(), other.get()),
            _ => false,
        },
        Kind::Both(left, right) => match b {
            Kind::Both(l, r) => same_tower(left.get(), l.get()) && same_tower(right.get(), r.get()),
            _ => false,
        },
    }
}
