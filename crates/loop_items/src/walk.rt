//! Walks along neighbouring items.

ghost use Rattle.std.specs.Prelude.{◌≡◌, ◌≤◌, [], Ok, None, IfOk, OnErr, length};
ghost use Rattle.splittable.specs.Fields.{padded};
ghost use Rattle.splittable.specs.Places.{item_count};
ghost use Rattle.loop_items.specs.Places.{next_places};
ghost use Rattle.loop_items.specs.Walks.{IsTaken, part_items};

use crate::HeadItems;
use loop_data::Value;
use no_memory::NoMemory;
use splittable::{Part, Shape};
use std::alloc::Global;
use std::marker::Model;

/// The items of a part that are still to come, from place to place without a division.
///
/// Contracts see the list of those items.
#[derive(Drop)]
pub struct Walk<'h, 't> {
    head: &'h HeadItems<'t>,
    /// How long the axes are, and 1 for each axis that isn't there.
    lens: [u64; 4],
    /// The place of the next item on each axis.
    places: [u64; 4],
    /// The place of the next item.
    place: u64,
    /// The place after that of the last item.
    end: u64,
}

impl<'h, 't> Model for Walk<'h, 't> {
    ghost use Rattle.std.specs.Prelude.{◌≡◌, ◌-◌, List, length};
    ghost use Rattle.splittable.specs.Places.{item_count};
    ghost use Rattle.std.specs.Coded.{coded_list};
    ghost use Rattle.loop_data.specs.declared.value.Value as value;
    ghost use Rattle.loop_data.specs.contracts.value.Value as row;
    ghost use Rattle.loop_items.specs.WalkFields.{IsOnWay};
    ghost use Rattle.loop_items.specs.Walks.{items_from};

    ghost Value = { List value.Value };

    ghost coded = { coded_list row.the_row.coded };

    ghost view = { λ w. items_from w.head.now.items w.place (w.end - w.place) };

    ghost invariant = { λ w. IsOnWay w.head.now.lens w.lens w.places w.place w.end
        × (item_count w.head.now.lens ≡ length w.head.now.items) };
}

impl<'h, 't> Walk<'h, 't> {
    /// The walk along the items of a part of the head's shape.
    pub(crate) fn along(head: &'h HeadItems<'t>, shape: Shape, part: &Part) -> Walk<'h, 't>
        requires shape { shape ≡ head.now.lens }
        requires part { part.now.lens ≡ head.now.lens }
        requires counted { item_count head.now.lens ≡ length head.now.items }
        ensures { result ≡ part_items head.now.items part.now }
    {
        let first = part.first();
        let end = first + part.len();
        Walk {
            head,
            lens: padded(shape.lens()),
            places: part.place(first),
            place: first,
            end,
        }
    }

    /// The next item, and None where there is none left, which takes no memory. Refused only for want of memory: then the
    /// walk is as it was.
    pub fn next(&mut self, alloc: Global) -> Result<Option<Value>, NoMemory>
        ensures taken { IfOk result (λ taken. IsTaken taken self.old self.new) }
        ensures ended { self.old ≡ [] → result ≡ Ok None }
        ensures kept { OnErr result (self.new ≡ self.old) }
    {
        if self.place == self.end {
            return Ok(None);
        }
        let item = self.head.item_on(alloc, &self.places)?;
        self.places = next_places(&self.lens, &self.places);
        self.place += 1;
        Ok(Some(item))
    }
}

/// The lengths, and 1 for each axis that isn't there.
fn padded(lens: &[u64]) -> [u64; 4]
    requires { length lens.now ≤ 4 }
    ensures { result ≡ padded lens.now }
{
    let mut four = [1; 4];
    let n = lens.len();
    four[..n].copy_from_slice(lens);
    four
}

/// The places on the axes of the item after the one at these; after the last item those of the first.
fn next_places(lens: &[u64; 4], places: &[u64; 4]) -> [u64; 4]
    ensures { result ≡ next_places lens.now places.now }
{
    let [a, b, c, d] = *places;
    if a < lens[0] {
        [a + 1, b, c, d]
    } else if b < lens[1] {
        [1, b + 1, c, d]
    } else if c < lens[2] {
        [1, 1, c + 1, d]
    } else if d < lens[3] {
        [1, 1, 1, d + 1]
    } else {
        [1; 4]
    }
}
