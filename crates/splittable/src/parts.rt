//! Parts: stretches of a shape's places.

ghost use Rattle.std.specs.Prelude.{◌≡◌, ◌≤◌, ◌<◌, ◌↔◌, ◌+◌, length, IsNone, IfSome, [], ◌∷◌};
ghost use Rattle.number_ranges.specs.Ranges.{most_items};
ghost use Rattle.splittable.specs.Places.{item_count, places_on_four, AreOnAxes};
ghost use Rattle.splittable.specs.Parts.{part_places, whole_of, left_half, right_half, AreHalves, HavePlacesOf};
ghost use Rattle.splittable.specs.Nodes.{HasNodesAlways, least_part_of};

use super::halving::Splittable;
use super::shapes::Shape;
use std::marker::Model;

/// Consecutive places of a shape, at least one: all of them, or what halving leaves.
///
/// Contracts see its shape's lengths, its first place, counted from 1, and how many places it has.
#[derive(Clone, Copy, Debug)]
pub struct Part {
    shape: Shape,
    first: u64,
    len: u64,
}

impl Model for Part {
    ghost use Rattle.splittable.specs.Parts.{Stretch};
    ghost use Rattle.splittable.specs.Fields.{IsSmallPart};

    ghost Value = { Stretch };

    ghost view = { λ p. record { lens = p.shape; first = p.first; len = p.len } };

    ghost invariant = { λ p. IsSmallPart p.shape p.first p.len };

    ghost inverse = { λ s. record { shape = s.lens; first = s.first; len = s.len } };
}

impl Part {
    /// All places of a shape, of which there are so many.
    pub(crate) fn all_of(shape: Shape, count: u64) -> Part
        requires count { count ≡ item_count shape }
        requires some { 1 ≤ count }
        requires few { count ≤ most_items }
        ensures { result ≡ whole_of shape }
    {
        Part {
            shape,
            first: 1,
            len: count,
        }
    }

    /// The place of the first item, counted from 1.
    pub fn first(&self) -> u64
        ensures value { result ≡ self.now.first }
        ensures from_one { 1 ≤ result }
        ensures few { result ≤ most_items }
        ensures within { result + self.now.len ≤ item_count self.now.lens + 1 }
    {
        self.first
    }

    /// How many places there are, from 1 to 4,294,967,296.
    pub fn len(&self) -> u64
        ensures value { result ≡ self.now.len }
        ensures some { 1 ≤ result }
        ensures few { result ≤ most_items }
        ensures within { self.now.first + result ≤ item_count self.now.lens + 1 }
    {
        self.len
    }

    /// The place on each axis of the item at place `k` of the part, all counted from 1. The first axis changes fastest, and
    /// an axis that isn't there has 1.
    pub fn place(&self, k: u64) -> [u64; 4]
        requires low { self.now.first ≤ k }
        requires high { k < self.now.first + self.now.len }
        ensures value { result ≡ places_on_four self.now.lens k }
        ensures on_axes { AreOnAxes self.now.lens result }
    {
        self.shape.places_after(k - 1)
    }
}

impl Default for Part {
    /// The whole of the shape of one axis of length 1.
    fn default() -> Part
        ensures { result ≡ whole_of (1 ∷ []) }
    {
        Part::all_of(Shape::ONE, 1)
    }
}

impl Splittable for Part {
    type Item = u64;

    ghost items = { part_places };

    fn amount(&self) -> u64
        ensures items { result ≡ length (part_places self.now) }
        ensures value { result ≡ self.now.len }
    {
        self.len
    }

    /// The halves: the slowest axis whose window is longer than one is cut after half its window, rounded down. The last
    /// axis is the slowest.
    fn halve(&self) -> Option<(Part, Part)>
        ensures none { IsNone result ↔ (length (part_places self.now) ≤ 1) }
        ensures left { IfSome result (λ halves. 0 < length (part_places halves.0)) }
        ensures right { IfSome result (λ halves. 0 < length (part_places halves.1)) }
        ensures whole { IfSome result (λ halves. HavePlacesOf self.now halves.0 halves.1) }

        ensures one { IsNone result ↔ (self.now.len ≡ 1) }
        ensures cut_left { IfSome result (λ halves. halves.0 ≡ left_half self.now) }
        ensures cut_right { IfSome result (λ halves. halves.1 ≡ right_half self.now) }
        ensures halves { IfSome result (λ halves. AreHalves self.now halves.0 halves.1) }
        // Halves of a node that is longer than the least part size are nodes, whatever that size is.
        ensures nodes { IfSome result (λ halves. HasNodesAlways self.now halves.0 halves.1) }
    {
        if self.len == 1 {
            return None;
        }
        let left = self.shape.left_len(self.len);
        Some((
            Part {
                shape: self.shape,
                first: self.first,
                len: left,
            },
            Part {
                shape: self.shape,
                first: self.first + left,
                len: self.len - left,
            },
        ))
    }
}

/// The length up to which a part isn't halved: the larger of `base` and the 16,384th part of `count`, rounded up.
pub fn least_part(base: u64, count: u64) -> u64
    requires low { 1 ≤ base }
    requires high { base ≤ most_items }
    requires count { count ≤ most_items }
    ensures value { result ≡ least_part_of base count }
    ensures some { 1 ≤ result }
    ensures most { result ≤ most_items }
{
    base.max(count.div_ceil(16384))
}
