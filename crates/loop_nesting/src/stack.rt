ghost use Rattle.std.specs.Prelude.{◌≡◌, ◌↔◌, [], ◌∷◌, length, IsTrue, OnOk, MatchOption};

use no_memory::NoMemory;
use std::alloc::Global;
use std::marker::Model;

/// Items of which the one put last is taken first. Contracts see the list of them, the one put last first.
#[derive(Drop)]
pub struct Stack<T> {
    held: Vec<T>,
}

impl<T> Model for Stack<T> {
    ghost use Rattle.std.specs.Prelude.{List, reverse};
    ghost use Rattle.std.specs.Coded.{coded_list};

    ghost Value = { List T };

    ghost coded = { coded_list T.code };

    ghost view = { λ s. reverse s.held.items };
}

impl<T> Stack<T> {
    /// The empty stack. It takes no memory; the stack keeps the allocator.
    pub fn new(alloc: Global) -> Stack<T>
        ensures { result ≡ [] }
    {
        let held = Vec::new(alloc);
        Stack { held }
    }

    /// How many items there are.
    pub fn len(&self) -> usize
        ensures { result ≡ length self.now }
    {
        self.held.len()
    }

    /// Whether there is no item.
    pub fn is_empty(&self) -> bool
        ensures { IsTrue result ↔ (self.now ≡ []) }
    {
        self.held.is_empty()
    }

    /// Takes the item that was put last.
    pub fn pop(&mut self) -> Option<T>
        ensures { MatchOption result
            ((self.old ≡ []) × (self.new ≡ [])) (λ x. self.old ≡ x ∷ self.new) }
    {
        self.held.pop()
    }
}

impl<T: Drop> Stack<T> {
    /// Puts an item. Refused only for want of memory, and then the item is given up.
    pub fn push(&mut self, item: T) -> Result<(), NoMemory>
        ensures { OnOk result (self.new ≡ item ∷ self.old) }
    {
        self.held.push(item)?;
        Ok(())
    }
}
