ghost use Rattle.std.specs.Prelude.{◌≡◌, ◌↔◌, [], ◌∷◌, ◌++◌, length, IsTrue, IfOk, OnOk, OnErr};

use no_memory::NoMemory;
use std::alloc::Global;
use std::cmp::Ordering;
use std::marker::Model;

/// A list, which contracts see as the list of its items.
#[derive(Debug, Drop)]
pub struct Many<T> {
    held: Vec<T>,
}

impl<T> Model for Many<T> {
    ghost use Rattle.std.specs.Prelude.{List};
    ghost use Rattle.std.specs.Coded.{coded_list};

    ghost Value = { List T };

    ghost coded = { coded_list T.code };

    ghost view = { λ m. m.held.items };
}

impl<T> Many<T> {
    /// The empty list. It takes no memory; the list keeps the allocator.
    pub fn new(alloc: Global) -> Many<T>
        ensures { result ≡ [] }
    {
        let held = Vec::new(alloc);
        Many { held }
    }

    /// The list of a `Vec`'s elements. It takes no memory.
    pub fn from_vec(held: Vec<T>) -> Many<T>
        ensures { result ≡ held.items }
    {
        Many { held }
    }

    /// The items as a `Vec`, to move them out. It takes no memory.
    pub fn into_vec(self) -> Vec<T>
        ensures { result.items ≡ self }
    {
        let Many { held } = self;
        held
    }

    /// The items from first to last. It takes no memory.
    pub fn as_slice(&self) -> &[T]
        ensures { result.now ≡ self.now }
    {
        self.held.as_slice()
    }

    /// How many items there are.
    pub fn len(&self) -> usize
        ensures { result ≡ length self.now }
    {
        self.held.len()
    }

    /// Whether there is no item.
    pub fn is_empty(&self) -> bool
        ensures { IsTrue result ↔ (self.now ≡ []) }
    {
        self.held.is_empty()
    }
}

impl<T: Drop> Many<T> {
    /// Puts an item last. Refused only for want of memory: then the list is as before and the item is given up. The list
    /// uses the allocator that it was made with, which is this one: there is one `Global`.
    pub fn push(&mut self, _alloc: Global, item: T) -> Result<(), NoMemory>
        ensures ok { OnOk result (self.new ≡ self.old ++ item ∷ []) }
        ensures err { OnErr result (self.new ≡ self.old) }
    {
        self.held.push(item)?;
        Ok(())
    }
}

/// What can be had once more, item by item, in `Many::copy`.
pub trait CopyIn: Sized {
    /// The same once more. Refused only for want of memory.
    fn copy_in(&self, alloc: Global) -> Result<Self, NoMemory>
        ensures { IfOk result (λ x. x ≡ self.now) };
}

impl<T: CopyIn + Drop> Many<T> {
    /// The same items once more. Refused only for want of memory.
    pub fn copy(&self, alloc: Global) -> Result<Many<T>, NoMemory>
        ensures { IfOk result (λ m. m ≡ self.now) }
    {
        let mut copies = Many::new(alloc);
        for item in self.as_slice() {
            copies.push(alloc, item.copy_in(alloc)?)?;
        }
        Ok(copies)
    }
}

impl<T: PartialEq> PartialEq for Many<T> {
    ghost use Rattle.std.specs.Cmp.Lexicographic.{pointwise, lists_per};

    ghost eq = { pointwise T.eq };

    ghost laws = { lists_per T.laws };

    fn eq(&self, other: &Many<T>) -> bool {
        self.as_slice() == other.as_slice()
    }
}

impl<T: Eq> Eq for Many<T> {
    ghost use Rattle.std.specs.Cmp.Lexicographic.{lists_equiv};

    ghost laws = { lists_equiv T.Eq.laws };
}

impl<T: PartialOrd> PartialOrd for Many<T> {
    ghost use Rattle.std.specs.Cmp.Lexicographic.{slice_partial_cmp, lists_po};

    ghost partial_cmp = { slice_partial_cmp T.partial_cmp };

    ghost laws = { lists_po T.PartialOrd.laws };

    fn partial_cmp(&self, other: &Many<T>) -> Option<Ordering> {
        self.as_slice().partial_cmp(other.as_slice())
    }
}

impl<T: Ord> Ord for Many<T> {
    ghost use Rattle.std.specs.Cmp.Lexicographic.{slice_cmp, lists_total, lists_agrees, lists_ties};

    ghost cmp = { slice_cmp T.cmp };

    ghost total = { lists_total T.total };

    ghost matches_partial_cmp = { lists_agrees T.matches_partial_cmp };

    ghost matches_eq = { lists_ties T.cmp T.matches_eq };

    fn cmp(&self, other: &Many<T>) -> Ordering {
        self.as_slice().cmp(other.as_slice())
    }
}
