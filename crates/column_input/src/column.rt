//! A column of a table.

ghost use Rattle.std.specs.Prelude.{◌≡◌, ◌-◌, ◌<◌, ◌≤◌, Some, length, slice_get};
ghost use Rattle.column_input.specs.Table.{texts_at};

use crate::table::Table;
use std::marker::Model;

/// A column of a table: a text for each row.
#[derive(Drop)]
pub struct Column<'a> {
    table: &'a Table,
    place: usize,
}

impl<'a> Model for Column<'a> {
    ghost use Rattle.std.specs.Prelude.{ℕ, List, ◌<◌, length};
    ghost use Rattle.column_input.specs.Table.{texts_at};

    ghost Value = { List (List ℕ) };

    ghost view = { λ a. texts_at a.table.now a.place };

    ghost invariant = { λ a. a.place < length a.table.now.header };
}

impl<'a> Column<'a> {
    /// The column at this place, from 0.
    pub(crate) fn new(table: &'a Table, place: usize) -> Column<'a>
        requires { place < length table.now.header }
        ensures { result ≡ texts_at table.now place }
    {
        Column { table, place }
    }

    /// The text in row `k`, from 1.
    pub fn text(&self, k: u64) -> &'a str
        requires from { 1 ≤ k }
        requires to { k ≤ length self.now }
        ensures { slice_get self.now (k - 1) ≡ Some result.now }
    {
        let table: &'a Table = self.table;
        table.text(k - 1, self.place)
    }
}

/// Whether values of a type are sent to threads and shared by them.
fn crosses_threads<T: Send + Sync>() {}

/// Threads share a table and its columns.
fn tables_cross_threads<'a>() {
    crosses_threads::<Table>();
    crosses_threads::<Column<'a>>();
}
