//! The ranges and columns of a head.

ghost use Rattle.std.specs.Prelude.{◌≡◌, ◌≢◌, ◌≤◌, ◌-◌, true, Err, Some, IfOk, length, map, slice_get};
ghost use Rattle.std.specs.FinMap.{get};
ghost use Rattle.number_ranges.specs.Ranges.{most_items};
ghost use Rattle.column_input.specs.Table.{column_of};
ghost use Rattle.loop_data.specs.declared.value.Value.TheVariants as value;
ghost use Rattle.loop_grammar.specs.WellFormed.{is_plain};
ghost use Rattle.loop_meaning.specs.Items.{axis_items, column_items, numbers, sources, steps_items};
ghost use Rattle.loop_items.specs.Collected.{collected, column, numbers_of, range};
ghost use Rattle.loop_items.specs.Refusals.{collection_refusal, first_refusal, unless_refused};
ghost use Rattle.loop_items.specs.declared.refusal.HeadRefusal.TheVariants as refused;

use crate::HeadRefusal;
use column_input::{Column, Table};
use loop_data::{Axis, RangeExpr, TextValue, Value};
use loop_meaning::bounds::{number_of, step_number};
use loop_values::Env;
use no_memory::NoMemory;
use splittable::{Range, RangeRefusal, Splittable};
use std::alloc::Global;
use std::marker::Model;

/// A range or a column, at most 4,294,967,296 values long. Contracts see the list of its values.
#[derive(Drop)]
pub(crate) struct Collection<'a> {
    held: Held<'a>,
    len: u64,
}

#[derive(Drop)]
enum Held<'a> {
    Numbers(Range),
    Texts(Column<'a>),
}

impl<'a> Model for Collection<'a> {
    ghost use Rattle.std.specs.Prelude.{◌≡◌, ◌≤◌, List, length};
    ghost use Rattle.std.specs.Coded.{coded_list};
    ghost use Rattle.number_ranges.specs.Ranges.{most_items};
    ghost use Rattle.loop_data.specs.declared.value.Value as value;
    ghost use Rattle.loop_data.specs.contracts.value.Value as row;

    ghost Value = { List value.Value };

    ghost coded = { coded_list row.the_row.coded };

    ghost use Rattle.loop_items.specs.Held.{held_values};

    ghost view = { λ c. held_values c.held };

    ghost invariant = { λ c. (c.len ≡ length (held_values c.held)) × (c.len ≤ most_items) };
}

impl<'a> Collection<'a> {
    /// A range or a column: a part of a zip, or an axis that is no zip.
    pub(crate) fn open(
        alloc: Global,
        axis: &Axis,
        line: u32,
        names: &Env,
        table: &'a Table,
    ) -> Result<Collection<'a>, HeadRefusal>
        requires { is_plain axis.now ≡ true }
        ensures { let from = sources (get names.now) table.now in result ≢ Err refused.NoMemory
            → result ≡ unless_refused (first_refusal line (collected axis.now from))
            (axis_items axis.now from) }
    {
        match axis {
            Axis::Steps(range) => Collection::of_range(alloc, range, line, names),
            Axis::Col(name) => Collection::of_column(alloc, name, line, table),
            Axis::Zip(_) => unreachable!(),
        }
    }

    fn of_range(
        alloc: Global,
        range: &RangeExpr,
        line: u32,
        names: &Env,
    ) -> Result<Collection<'a>, HeadRefusal>
        ensures { result ≢ Err refused.NoMemory
            → result ≡ unless_refused (collection_refusal line (numbers_of range.now (get names.now)))
            (steps_items range.now (get names.now)) }
    {
        let first = number_of(alloc, &range.first, names)?;
        let step = step_number(alloc, &range.step, names)?;
        let last = number_of(alloc, &range.last, names)?;
        Collection::of_numbers(first, step, last, line)
    }

    fn of_numbers(
        first: i64,
        step: i64,
        last: i64,
        line: u32,
    ) -> Result<Collection<'a>, HeadRefusal>
        ensures { result ≡ unless_refused (collection_refusal line (range first step last))
            (map value.Int (numbers first step last)) }
    {
        match Range::new(first, step, last) {
            Ok(range) => {
                let len = range.amount();
                Ok(Collection {
                    held: Held::Numbers(range),
                    len,
                })
            }
            Err(RangeRefusal::StepZero) => Err(HeadRefusal::ZeroStep { line }),
            Err(RangeRefusal::TooLong { count }) => Err(HeadRefusal::TooManyItems { count, line }),
        }
    }

    fn of_column(
        alloc: Global,
        name: &TextValue,
        line: u32,
        table: &'a Table,
    ) -> Result<Collection<'a>, HeadRefusal>
        ensures { let texts = column_of table.now name.now in result ≢ Err refused.NoMemory
            → result ≡ unless_refused (collection_refusal line (column name.now texts))
            (column_items texts) }
    {
        match table.column(name.as_str()) {
            Some(texts) => Ok(Collection {
                held: Held::Texts(texts),
                len: table.rows(),
            }),
            None => Err(HeadRefusal::NoSuchColumn {
                name: name.copy(alloc)?,
                line,
            }),
        }
    }

    /// How many values there are.
    pub(crate) fn len(&self) -> u64
        ensures value { result ≡ length self.now }
        ensures few { result ≤ most_items }
    {
        self.len
    }

    /// The value at place `k`, from 1.
    #[inline(always)]
    pub(crate) fn item(&self, alloc: Global, k: u64) -> Result<Value, NoMemory>
        requires from { 1 ≤ k }
        requires to { k ≤ length self.now }
        ensures { IfOk result (λ item. slice_get self.now (k - 1) ≡ Some item) }
    {
        match &self.held {
            Held::Numbers(range) => Ok(Value::Int(range.at(k))),
            Held::Texts(texts) => Ok(Value::Text(TextValue::new(alloc, texts.text(k))?)),
        }
    }
}
