//! Shapes: products of up to four axes.

ghost use Rattle.std.specs.Prelude.{◌≡◌, ◌≤◌, ◌<◌, ◌↔◌, ◌-◌, ◌+◌, ◌/◌, ◌%◌, ◌++◌, ℕ, length, replicate, All, Contains, IsNone};
ghost use Rattle.std.specs.Prelude.{IfSome};
ghost use Rattle.number_ranges.specs.Ranges.{most_items};
ghost use Rattle.splittable.specs.Places.{item_count, excess_of, places_after, checked_shape};
ghost use Rattle.splittable.specs.Parts.{whole_of};
ghost use Rattle.splittable.specs.Nodes.{IsNode};
ghost use Rattle.splittable.specs.Fields.{padded, IsBox, IsStride, cut};

use super::parts::Part;
use number_ranges::MOST_ITEMS;
use std::marker::Model;

/// Why a shape is refused.
#[derive(Clone, Copy, Debug, PartialEq, Eq)]
pub enum ShapeRefusal {
    /// There is no axis.
    NoAxis,
    /// There are over four axes.
    TooManyAxes,
    /// No length is 0, and there are over 4,294,967,296 items: `count` is the product of the fewest first lengths whose
    /// product is over that.
    TooManyItems { count: u128 },
}

/// One to four axes, the first changing fastest, and at most 4,294,967,296 items, which are counted from 1.
///
/// Two shapes are equal exactly where their lists of lengths are.
#[derive(Clone, Copy, Debug)]
pub struct Shape {
    /// The lengths, and then 1 for each axis that isn't there.
    lens: [u64; 4],
    axes: usize,
}

impl Model for Shape {
    ghost use Rattle.std.specs.Prelude.{ℕ, List, take, length};
    ghost use Rattle.splittable.specs.Fields.{IsFourAxes, padded};
    ghost use Rattle.splittable.specs.ShapeFields.{fields_back};

    ghost Value = { List ℕ };

    ghost view = { λ s. take s.axes s.lens };

    ghost invariant = { λ s. IsFourAxes s.lens s.axes };

    ghost inverse = { λ lens. record { lens = padded lens; axes = length lens } };

    ghost inverse_ok = { λ s h. fields_back s h };
}

impl PartialEq for Shape {
    ghost use Rattle.std.specs.Prelude.{◌≡◌, ◌↔◌, IsTrue, nat_eq};
    ghost use Rattle.std.specs.Cmp.Lexicographic.{pointwise, nat_list_eq_equiv};
    ghost use Rattle.std.specs.Cmp.{partial_equiv_from_equiv};

    ghost eq = { pointwise nat_eq };

    ghost laws = { partial_equiv_from_equiv nat_list_eq_equiv };

    fn eq(&self, other: &Shape) -> bool
        ensures value { result ≡ pointwise nat_eq self.now other.now }
        ensures same { IsTrue result ↔ (self.now ≡ other.now) }
    {
        self.lens() == other.lens()
    }
}

impl Eq for Shape {
    ghost use Rattle.std.specs.Cmp.Lexicographic.{nat_list_eq_equiv};

    ghost laws = { nat_list_eq_equiv };
}

impl Shape {
    /// One axis of length 1.
    pub(crate) const ONE: Shape = Shape {
        lens: [1; 4],
        axes: 1,
    };

    /// The shape of these lengths, each at most 4,294,967,296.
    ///
    /// `NoAxis` comes exactly where there is none; `TooManyAxes` exactly where there are over four; and otherwise
    /// `TooManyItems` exactly where no length is 0 and there are over 4,294,967,296 items.
    pub fn new(lens: &[u64]) -> Result<Shape, ShapeRefusal>
        requires { All (λ len. len ≤ most_items) lens.now }
        ensures { result ≡ checked_shape lens.now }
    {
        if lens.is_empty() {
            return Err(ShapeRefusal::NoAxis);
        }
        if lens.len() > 4 {
            return Err(ShapeRefusal::TooManyAxes);
        }
        if let Some(count) = excess(lens) {
            return Err(ShapeRefusal::TooManyItems { count });
        }
        Ok(Shape {
            lens: padded(lens),
            axes: lens.len(),
        })
    }

    /// The lengths of the axes.
    pub fn lens(&self) -> &[u64]
        ensures { result.now ≡ self.now }
    {
        &self.lens[..self.axes]
    }

    /// How many items there are: the product of the lengths.
    pub fn count(&self) -> u64
        ensures value { result ≡ item_count self.now }
        ensures few { result ≤ most_items }
    {
        let [a, b, c, d] = self.lens;
        // Where the product wraps on the way, some length is 0.
        a.wrapping_mul(b).wrapping_mul(c).wrapping_mul(d)
    }

    /// All places; None exactly where some length is 0.
    pub fn whole(&self) -> Option<Part>
        ensures none { IsNone result ↔ Contains self.now 0 }
        ensures empty { IsNone result ↔ (item_count self.now ≡ 0) }
        ensures whole { IfSome result (λ part. part ≡ whole_of self.now) }
        ensures node { IfSome result (λ part. (least : ℕ) → IsNode self.now least part) }
    {
        let count = self.count();
        if count == 0 {
            return None;
        }
        Some(Part::all_of(*self, count))
    }

    /// The place on each axis of the item with so many items before it.
    pub(crate) fn places_after(&self, before: u64) -> [u64; 4]
        requires { 1 ≤ item_count self.now }
        ensures { result ≡ places_after self.now before ++ replicate (4 - length self.now) 1 }
    {
        places_after(&self.lens, before)
    }

    /// How many of the `len` items of a box lie left of its cut.
    pub(crate) fn left_len(&self, len: u64) -> u64
        requires some { 1 ≤ item_count self.now }
        requires within { len ≤ item_count self.now }
        requires many { 2 ≤ len }
        requires is_box { (before : ℕ) × IsBox self.now before len }
        ensures { result ≡ cut self.now len }
    {
        left_len(&self.lens, len)
    }
}

/// The lengths, with 1 for each axis that isn't there.
fn padded(lens: &[u64]) -> [u64; 4]
    requires { length lens.now ≤ 4 }
    ensures { result ≡ padded lens.now }
{
    let mut four = [1; 4];
    let n = lens.len();
    four[..n].copy_from_slice(lens);
    four
}

/// Where there are too many items, the product of the fewest first lengths that is too large.
fn excess(lens: &[u64]) -> Option<u128>
    requires { All (λ len. len ≤ most_items) lens.now }
    ensures { result ≡ excess_of lens.now }
{
    if lens.contains(&0) {
        return None;
    }
    let mut items = 1u128;
    for len in lens {
        items *= u128::from(*len);
        if items > MOST_ITEMS {
            return Some(items);
        }
    }
    None
}

/// The place on each of four axes of the item with so many items before it.
fn places_after(lens: &[u64; 4], before: u64) -> [u64; 4]
    requires { 1 ≤ item_count lens.now }
    ensures { result ≡ places_after lens.now before }
{
    let (a, before) = place_on(lens[0], before);
    let (b, before) = place_on(lens[1], before);
    let (c, before) = place_on(lens[2], before);
    let (d, _) = place_on(lens[3], before);
    [a, b, c, d]
}

/// The place on the fastest axis, and the runs of that axis before it.
fn place_on(len: u64, before: u64) -> (u64, u64)
    requires { 1 ≤ len }
    ensures place { result.0 ≡ before % len + 1 }
    ensures before { result.1 ≡ before / len }
{
    // Most often this axis is the last one that matters, and nothing need be divided.
    if before < len {
        (before + 1, 0)
    } else {
        (before % len + 1, before / len)
    }
}

/// How many of the `len` items of a box on four axes lie left of its cut.
fn left_len(lens: &[u64; 4], len: u64) -> u64
    requires some { 1 ≤ item_count lens.now }
    requires few { item_count lens.now ≤ most_items }
    requires within { len ≤ item_count lens.now }
    requires is_box { (before : ℕ) × IsBox lens.now before len }
    ensures { result ≡ cut lens.now len }
{
    let stride = stride(lens, len);
    len / stride / 2 * stride
}

/// How many items share one place on the slowest axis on which a box of `len` items has a window longer than one.
fn stride(lens: &[u64; 4], len: u64) -> u64
    requires some { 1 ≤ item_count lens.now }
    requires few { item_count lens.now ≤ most_items }
    requires within { len ≤ item_count lens.now }
    ensures some { 1 ≤ result }
    ensures few { result ≤ most_items }
    ensures cut { IsStride lens.now len result }
{
    let [a, b, c, _] = *lens;
    if len <= a {
        1
    } else if len <= a * b {
        a
    } else if len <= a * b * c {
        a * b
    } else {
        a * b * c
    }
}
