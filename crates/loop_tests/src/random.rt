//! A hundred small random heads: each place, walks along all leaves, and the definition's list, against a list that is made
//! plainly.

ghost use Rattle.std.specs.Prelude.{◌≢◌, ◌<◌};

use crate::plain::{Plain, column, product, range, zip};
use crate::run::{read, table_of};
use crate::walks::check_head;
use column_input::Table;
use loop_meaning::items_of;
use loop_syntax::Program;
use std::alloc::{AllocError, Global};
use std::test::Fail;

/// Numbers by a generator of 64 bits.
#[derive(Drop)]
struct Numbers {
    last: u64,
}

impl Numbers {
    /// A number below `limit`, which isn't 0.
    fn below(&mut self, limit: u64) -> u64
        requires { limit ≢ 0 }
        ensures { result < limit }
    {
        let next = self.last.wrapping_mul(6364136223846793005);
        self.last = next.wrapping_add(1442695040888963407);
        (self.last >> 33) % limit
    }

    /// A number from -2 to 2.
    fn small(&mut self) -> i64 {
        match self.below(5) {
            0 => -2,
            1 => -1,
            2 => 0,
            3 => 1,
            _ => 2,
        }
    }
}

/// A range or a column.
fn simple(alloc: Global, numbers: &mut Numbers) -> Result<Plain, AllocError> {
    match numbers.below(4) {
        0 => column(alloc, "a", &["p", "q", "r"]),
        1 => column(alloc, "b", &["x", "", "z"]),
        _ => {
            let first = numbers.small();
            let step = numbers.small();
            let last = numbers.small();
            range(alloc, first, if step == 0 { 1 } else { step }, last)
        }
    }
}

/// Two or three ranges or columns.
fn several(alloc: Global, numbers: &mut Numbers) -> Result<Vec<Plain>, AllocError> {
    let mut parts = Vec::new(alloc);
    for _ in 0..numbers.below(2) + 2 {
        parts.push(simple(alloc, numbers)?)?;
    }
    Ok(parts)
}

/// A range, a column or a zip.
fn axis(alloc: Global, numbers: &mut Numbers) -> Result<Plain, AllocError> {
    if numbers.below(3) == 0 {
        let parts = several(alloc, numbers)?;
        return zip(alloc, parts.as_slice());
    }
    simple(alloc, numbers)
}

/// A head.
fn head(alloc: Global, numbers: &mut Numbers) -> Result<Plain, AllocError> {
    if numbers.below(3) == 0 {
        return axis(alloc, numbers);
    }
    let mut axes = Vec::new(alloc);
    for _ in 0..numbers.below(2) + 2 {
        axes.push(axis(alloc, numbers)?)?;
    }
    product(alloc, axes.as_slice())
}

/// The items, a bar before each.
fn barred(alloc: Global, items: &[String]) -> Result<String, AllocError> {
    let mut out = String::new(alloc);
    for item in items {
        out.push_str("|")?;
        out.push_str(item.as_str())?;
    }
    Ok(out)
}

/// The definition's list, a bar before each item.
fn defined(alloc: Global, program: &Program, table: &Table) -> Result<String, Fail> {
    let mut out = String::new(alloc);
    for item in items_of(alloc, program, table)?.as_slice() {
        write!(out, "|{item}")?;
    }
    Ok(out)
}

#[test]
fn a_hundred_heads(rt: HostRuntime) -> Result<(), Fail> {
    let alloc = rt.alloc();
    let table = table_of(alloc, "a,b\np,x\nq,\nr,z\n")?;
    let mut numbers = Numbers { last: 1 };
    for _ in 0..100 {
        let plain = head(alloc, &mut numbers)?;
        let text = plain.text.as_str();
        let program = read(alloc, format!(in alloc; "for x in {text}\nend\n")?.as_str())?;
        let wanted = barred(alloc, plain.items.as_slice())?;
        assert_eq!(rt;
            defined(alloc, &program, &table)?.as_str(),
            wanted.as_str(),
            "{text}"
        );
        check_head(&rt, alloc, &program, &table, wanted.as_str())?;
    }
    Ok(())
}
