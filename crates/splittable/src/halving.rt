//! Collections that can be halved.

ghost use Rattle.std.specs.Prelude.{◌≡◌, ◌≤◌, ◌<◌, ◌↔◌, List, ◌++◌, length, IsNone, IfSome};

/// A collection that can be cut in two.
///
/// Its meaning is the list of its items. The items of the left half followed by those of the right half are the items of
/// the whole. Source: `amount` and `halve` of SplittablesBase.jl.
pub trait Splittable: Sized {
    /// An item.
    type Item;

    ghost items: { Self → List Self.Item };

    /// How many items there are.
    fn amount(&self) -> u64
        ensures { result ≡ length (items self.now) };

    /// The two halves, both with items; None exactly where there is at most one item.
    fn halve(&self) -> Option<(Self, Self)>
        ensures none { IsNone result ↔ (length (items self.now) ≤ 1) }
        ensures left { IfSome result (λ halves. 0 < length (items halves.0)) }
        ensures right { IfSome result (λ halves. 0 < length (items halves.1)) }
        ensures whole { IfSome result (λ h. items h.0 ++ items h.1 ≡ items self.now) };
}
