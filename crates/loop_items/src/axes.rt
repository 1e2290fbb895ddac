//! The axes of a head.

ghost use Rattle.std.specs.Prelude.{◌≡◌, ◌≢◌, ◌≤◌, ◌-◌, true, Err, Some, All, IfOk, MatchResult, length, map, slice_get};
ghost use Rattle.std.specs.List.{AllPass};
ghost use Rattle.std.specs.FinMap.{get};
ghost use Rattle.number_ranges.specs.Ranges.{most_items};
ghost use Rattle.loop_data.specs.declared.value.Value.TheVariants as value;
ghost use Rattle.loop_grammar.specs.WellFormed.{is_factor, is_plain};
ghost use Rattle.loop_meaning.specs.Counts.{least_count};
ghost use Rattle.loop_meaning.specs.Items.{axis_items, side_by_side, sources};
ghost use Rattle.loop_meaning.specs.Laws.{at_place};
ghost use Rattle.loop_items.specs.Collected.{collected};
ghost use Rattle.loop_items.specs.Opening.{AreOpen, AreRefused};
ghost use Rattle.loop_items.specs.Refusals.{first_refusal, unless_refused};
ghost use Rattle.loop_items.specs.declared.refusal.HeadRefusal.TheVariants as refused;

use crate::HeadRefusal;
use crate::collections::Collection;
use column_input::Table;
use loop_data::{Axis, Many, Value};
use loop_values::Env;
use no_memory::NoMemory;
use std::alloc::Global;
use std::marker::Model;

/// An axis of a head, at most 4,294,967,296 values long. Contracts see the list of its values.
#[derive(Drop)]
pub(crate) struct OpenAxis<'a> {
    parts: Parts<'a>,
    len: u64,
}

#[derive(Drop)]
enum Parts<'a> {
    One(Collection<'a>),
    Zip(Vec<Collection<'a>>),
}

impl<'a> Model for OpenAxis<'a> {
    ghost use Rattle.std.specs.Prelude.{◌≡◌, ◌≤◌, List, length};
    ghost use Rattle.std.specs.Coded.{coded_list};
    ghost use Rattle.number_ranges.specs.Ranges.{most_items};
    ghost use Rattle.loop_data.specs.declared.value.Value as value;
    ghost use Rattle.loop_data.specs.contracts.value.Value as row;

    ghost Value = { List value.Value };

    ghost coded = { coded_list row.the_row.coded };

    ghost use Rattle.loop_items.specs.Parts.{part_values};

    ghost view = { λ a. part_values a.parts };

    ghost invariant = { λ a. (a.len ≡ length (part_values a.parts)) × (a.len ≤ most_items) };
}

impl<'a> OpenAxis<'a> {
    pub(crate) fn open(
        alloc: Global,
        axis: &Axis,
        line: u32,
        names: &Env,
        table: &'a Table,
    ) -> Result<OpenAxis<'a>, HeadRefusal>
        requires { is_factor axis.now ≡ true }
        ensures { let from = sources (get names.now) table.now in result ≢ Err refused.NoMemory
            → result ≡ unless_refused (first_refusal line (collected axis.now from))
            (axis_items axis.now from) }
    {
        match axis {
            Axis::Zip(parts) => {
                let parts = open_parts(alloc, parts.as_slice(), line, names, table)?;
                Ok(OpenAxis::of_zip(parts))
            }
            plain => {
                let only = Collection::open(alloc, plain, line, names, table)?;
                Ok(OpenAxis::of_one(only))
            }
        }
    }

    /// An axis that is no zip.
    fn of_one(only: Collection<'a>) -> OpenAxis<'a>
        ensures { result ≡ only.entry }
    {
        let len = only.len();
        OpenAxis {
            parts: Parts::One(only),
            len,
        }
    }

    /// A zip of these parts.
    fn of_zip(parts: Vec<Collection<'a>>) -> OpenAxis<'a>
        ensures { result ≡ map value.Tuple (side_by_side parts.entry.items) }
    {
        let len = least_len(parts.as_slice());
        OpenAxis {
            parts: Parts::Zip(parts),
            len,
        }
    }

    /// How many values there are.
    pub(crate) fn len(&self) -> u64
        ensures value { result ≡ length self.now }
        ensures few { result ≤ most_items }
    {
        self.len
    }

    /// The value at place `k`, from 1.
    #[inline(always)]
    pub(crate) fn item(&self, alloc: Global, k: u64) -> Result<Value, NoMemory>
        requires from { 1 ≤ k }
        requires to { k ≤ length self.now }
        ensures { IfOk result (λ item. slice_get self.now (k - 1) ≡ Some item) }
    {
        match &self.parts {
            Parts::One(only) => only.item(alloc, k),
            Parts::Zip(parts) => Ok(Value::Tuple(row_at(alloc, parts.as_slice(), k)?)),
        }
    }
}

/// The parts of a zip.
fn open_parts<'a>(
    alloc: Global,
    axes: &[Axis],
    line: u32,
    names: &Env,
    table: &'a Table,
) -> Result<Vec<Collection<'a>>, HeadRefusal>
    requires { AllPass is_plain axes.now }
    ensures { let from = sources (get names.now) table.now in MatchResult result
        (λ parts. AreOpen line axes.now from parts.items) (AreRefused line axes.now from) }
{
    let mut parts = Vec::with_capacity(alloc, axes.len())?;
    for axis in axes {
        parts.push_reserved(Collection::open(alloc, axis, line, names, table)?);
    }
    Ok(parts)
}

/// How long the shortest of these is.
fn least_len(parts: &[Collection<'_>]) -> u64
    ensures value { result ≡ least_count (map length parts.now) }
    ensures few { result ≤ most_items }
{
    let Some((first, others)) = parts.split_first() else {
        return 0;
    };
    let mut least = first.len();
    for part in others {
        least = least.min(part.len());
    }
    least
}

/// The values at place `k`, from 1, of each of these.
fn row_at(alloc: Global, parts: &[Collection<'_>], k: u64) -> Result<Many<Value>, NoMemory>
    requires from { 1 ≤ k }
    requires to { All (λ part. k ≤ length part) parts.now }
    ensures { IfOk result (λ row. at_place parts.now (k - 1) ≡ Some row) }
{
    let mut row = Vec::with_capacity(alloc, parts.len())?;
    for part in parts {
        row.push_reserved(part.item(alloc, k)?);
    }
    Ok(Many::from_vec(row))
}
