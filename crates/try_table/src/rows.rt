ghost use Rattle.std.specs.Prelude.{◌≡◌, ◌≤◌, ◌++◌, IfOk, OnOk};
ghost use Rattle.try_table.specs.Tables.{most_rows, number_after, row_line, rows_after, table_bytes};

use itoa::Buffer;
use no_memory::NoMemory;
use std::alloc::Global;

/// The most rows that a table is asked for.
pub const MOST_ROWS: u64 = 1_000_000;

/// The number that follows, by the multiplier of Knuth's MMIX generator.
fn number_after(x: u64) -> u64
    ensures { result ≡ number_after x }
{
    x.wrapping_mul(6_364_136_223_846_793_005)
        .wrapping_add(1_442_695_040_888_963_407)
}

/// Writes the row of a number: its region and its quantity, with an LF.
fn add_row(text: &mut Vec<u8>, x: u64) -> Result<(), NoMemory>
    ensures { OnOk result (text.new.items ≡ text.old.items ++ row_line x) }
{
    let high = x >> 33;
    let mut digits = Buffer::new();
    text.push(b'r')?;
    text.extend_from_slice(digits.format(high % 8).as_bytes())?;
    text.push(b',')?;
    text.extend_from_slice(digits.format(high / 8 % 1000).as_bytes())?;
    text.push(b'\n')?;
    Ok(())
}

/// The bytes of the table of `seed` with so many rows, at most 1,000,000: the header `region,qty`, and a line for each row, each
/// ended by LF. The numbers of the rows follow from the seed by x ↦ 6364136223846793005 x + 1442695040888963407 in 64 bits
/// without a sign; a row is `r` with the digit h mod 8, and h div 8 mod 1000, h being its number without its last 33 bits.
pub fn try_bytes(alloc: Global, seed: u64, rows: u64) -> Result<Vec<u8>, NoMemory>
    requires { rows ≤ most_rows }
    ensures { IfOk result (λ text. text.items ≡ table_bytes seed rows) }
{
    let mut text = Vec::new(alloc);
    text.extend_from_slice(b"region,qty\n")?;
    let mut x = seed;
    for _row in 0..rows {
        x = number_after(x);
        add_row(&mut text, x)?;
    }
    Ok(text)
}
