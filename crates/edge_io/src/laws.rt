//! Laws of the definitions, each the contract of an empty function, and what threads share.

ghost use Rattle.edge_io.specs.Laws.{CountsThatRoseByOneRose, NumbersTellCauses, RisenCountsAreLarger};

use crate::named_bytes::NamedBytes;

/// Each cause of a refused read has a number of its own.
pub fn numbers_tell_causes()
    ensures { NumbersTellCauses }
{}

/// A count that rose is larger than before, unless it stands at the last value of a counter.
pub fn risen_counts_are_larger()
    ensures { RisenCountsAreLarger }
{}

/// A count that rose by one rose.
pub fn counts_that_rose_by_one_rose()
    ensures { CountsThatRoseByOneRose }
{}

fn is_shared<T: Send + Sync>() {}

/// Many threads read one map of bytes by name, and hand it to each other.
pub fn threads_share_named_bytes() {
    is_shared::<NamedBytes>();
}
