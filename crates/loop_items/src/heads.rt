//! Open heads.

ghost use Rattle.std.specs.Prelude.{◌≡◌, ◌≢◌, ◌≤◌, ◌-◌, Err, Some, All, IfOk, MatchResult, length, map, slice_get};
ghost use Rattle.std.specs.List.{AllPass};
ghost use Rattle.std.specs.FinMap.{get};
ghost use Rattle.number_ranges.specs.Ranges.{most_items};
ghost use Rattle.splittable.specs.Places.{AreOnAxes, excess_of, item_count};
ghost use Rattle.loop_grammar.specs.WellFormed.{is_factor};
ghost use Rattle.loop_meaning.specs.Items.{sources};
ghost use Rattle.loop_items.specs.Heads.{opened};
ghost use Rattle.loop_items.specs.Opening.{AreOpen, AreRefused};
ghost use Rattle.loop_items.specs.Places.{IsItemAt, at_places};
ghost use Rattle.loop_items.specs.Refusals.{product_refusal, unless_refused};
ghost use Rattle.loop_items.specs.Walks.{part_items};
ghost use Rattle.loop_items.specs.declared.refusal.HeadRefusal.TheVariants as refused;

use crate::axes::OpenAxis;
use crate::{HeadRefusal, Walk};
use column_input::Table;
use loop_data::{Axis, Many, Value};
use loop_meaning::variables;
use loop_syntax::Program;
use loop_values::Env;
use no_memory::NoMemory;
use splittable::{Part, Shape, ShapeRefusal};
use std::alloc::Global;
use std::marker::Model;

/// The first head of a program over a table: its items, which are made one by one as they are asked for.
///
/// Contracts see the lengths of its axes and the list of its items. Places of items count from 1.
#[derive(Drop)]
pub struct HeadItems<'a> {
    axes: Vec<OpenAxis<'a>>,
    product: bool,
    shape: Shape,
}

impl<'a> Model for HeadItems<'a> {
    ghost use Rattle.loop_items.specs.Heads.{Head, head_code};
    ghost use Rattle.loop_items.specs.Fields.{AreAxes, head_of_axes};

    ghost Value = { Head };

    ghost coded = { head_code };

    ghost view = { λ h. head_of_axes h.shape h.product h.axes.items };

    ghost invariant = { λ h. AreAxes h.shape h.product h.axes.items };
}

impl<'a> HeadItems<'a> {
    /// The program's first head over the table. A program that breaks the language's rules is opened too: a bound that faults
    /// or is no number counts as 0, as in the definition of the items.
    ///
    /// # Errors
    ///
    /// The head's first refusal, or [`HeadRefusal::NoMemory`].
    pub fn open(
        alloc: Global,
        program: &Program,
        table: &'a Table,
    ) -> Result<HeadItems<'a>, HeadRefusal>
        ensures { result ≢ Err refused.NoMemory → result ≡ opened program.now table.now }
    {
        let tree = program.tree();
        let names = variables(alloc, tree)?;
        let head = &tree.head;
        let axes = open_axes(alloc, head.axes.as_slice(), head.line, &names, table)?;
        let shape = shape_of(alloc, axes.as_slice(), head.line)?;
        Ok(HeadItems {
            axes,
            product: head.product,
            shape,
        })
    }

    /// The lengths of the axes: one for a range, a column or a zip, whose length is that of its shortest part.
    pub fn shape(&self) -> Shape
        ensures { result ≡ self.now.lens }
    {
        self.shape
    }

    /// How many items there are, at most 4,294,967,296.
    pub fn count(&self) -> u64
        ensures items { result ≡ length self.now.items }
        ensures axes { result ≡ item_count self.now.lens }
        ensures few { result ≤ most_items }
    {
        self.shape.count()
    }

    /// The item at a place, from 1. Refused only for want of memory: a tuple takes its size, a text of over 23 bytes its bytes.
    ///
    /// It may divide on each axis but the slowest; a [`walk`](HeadItems::walk) along neighbours divides only where it begins.
    pub fn item(&self, alloc: Global, place: u64) -> Result<Value, NoMemory>
        requires from { 1 ≤ place }
        requires to { place ≤ length self.now.items }
        ensures { IfOk result (λ item. slice_get self.now.items (place - 1) ≡ Some item) }
    {
        match self.shape.whole() {
            Some(whole) => self.item_on(alloc, &whole.place(place)),
            None => unreachable!(),
        }
    }

    /// The item at these places on the axes, from 1.
    #[inline(always)]
    pub(crate) fn item_on(&self, alloc: Global, places: &[u64; 4]) -> Result<Value, NoMemory>
        requires { AreOnAxes self.now.lens places.now }
        ensures { IfOk result (IsItemAt self.now places.now) }
    {
        if self.product {
            return Ok(Value::Tuple(row_on(alloc, self.axes.as_slice(), places)?));
        }
        self.axes[0].item(alloc, places[0])
    }

    /// The items of a part of the shape, from the first to the last.
    pub fn walk<'h>(&'h self, part: &Part) -> Walk<'h, 'a>
        requires { part.now.lens ≡ self.now.lens }
        ensures { result ≡ part_items self.now.items part.now }
    {
        Walk::along(self, self.shape, part)
    }
}

/// The axes of a head.
fn open_axes<'a>(
    alloc: Global,
    axes: &[Axis],
    line: u32,
    names: &Env,
    table: &'a Table,
) -> Result<Vec<OpenAxis<'a>>, HeadRefusal>
    requires { AllPass is_factor axes.now }
    ensures { let from = sources (get names.now) table.now in MatchResult result
        (λ axes_open. AreOpen line axes.now from axes_open.items) (AreRefused line axes.now from) }
{
    let mut opened = Vec::with_capacity(alloc, axes.len())?;
    for axis in axes {
        opened.push_reserved(OpenAxis::open(alloc, axis, line, names, table)?);
    }
    Ok(opened)
}

/// How long the axes are.
fn lens_of(alloc: Global, axes: &[OpenAxis<'_>]) -> Result<Vec<u64>, NoMemory>
    ensures value { IfOk result (λ lens. lens.items ≡ map length axes.now) }
    ensures few { IfOk result (λ lens. All (λ len. len ≤ most_items) lens.items) }
{
    let mut lens = Vec::with_capacity(alloc, axes.len())?;
    for axis in axes {
        lens.push_reserved(axis.len());
    }
    Ok(lens)
}

/// The shape of these axes, of which there are one to four.
fn shape_of(alloc: Global, axes: &[OpenAxis<'_>], line: u32) -> Result<Shape, HeadRefusal>
    requires some { 1 ≤ length axes.now }
    requires most { length axes.now ≤ 4 }
    ensures { let lens = map length axes.now in result ≢ Err refused.NoMemory
        → result ≡ unless_refused (product_refusal line (excess_of lens)) lens }
{
    let lens = lens_of(alloc, axes)?;
    match Shape::new(lens.as_slice()) {
        Ok(shape) => Ok(shape),
        Err(ShapeRefusal::TooManyItems { count }) => Err(HeadRefusal::TooManyItems { count, line }),
        Err(ShapeRefusal::NoAxis | ShapeRefusal::TooManyAxes) => unreachable!(),
    }
}

/// The values at these places, from 1, of these axes.
fn row_on(alloc: Global, axes: &[OpenAxis<'_>], places: &[u64; 4]) -> Result<Many<Value>, NoMemory>
    requires most { length axes.now ≤ 4 }
    requires places { AreOnAxes (map length axes.now) places.now }
    ensures { IfOk result (λ row. at_places axes.now places.now ≡ Some row) }
{
    let mut row = Vec::with_capacity(alloc, axes.len())?;
    for (i, axis) in axes.iter().enumerate() {
        row.push_reserved(axis.item(alloc, places[i])?);
    }
    Ok(Many::from_vec(row))
}
