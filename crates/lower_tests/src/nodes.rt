//! Each node of a shape: the whole, its halves, and so on down to single items.

ghost use Rattle.std.specs.Prelude.{◌≡◌, ℕ, List};
ghost use Rattle.splittable.specs.Nodes.{IsNode};

use splittable::{Part, Splittable};
use std::alloc::Global;
use std::test::Fail;

/// What is compared at each node of a shape.
pub trait NodeTexts {
    /// The lengths of the shape.
    ghost lens: { Self → List ℕ };

    /// Puts what a part gives behind the first text, and what is wanted of it behind the second.
    fn texts(
        &self,
        alloc: Global,
        part: &Part,
        got: &mut String,
        wanted: &mut String,
    ) -> Result<(), Fail>
        requires lens { part.now.lens ≡ lens self.now }
        requires node { IsNode (lens self.now) 1 part.now };
}

/// Puts the texts of a node, of its halves, and so on behind the two texts.
pub fn compare_nodes<N: NodeTexts>(
    alloc: Global,
    nodes: &N,
    part: &Part,
    got: &mut String,
    wanted: &mut String,
) -> Result<(), Fail>
    requires lens { part.now.lens ≡ N.lens nodes.now }
    requires node { IsNode (N.lens nodes.now) 1 part.now }
{
    nodes.texts(alloc, part, got, wanted)?;
    let Some(halves) = part.halve() else {
        return Ok(());
    };
    compare_nodes(alloc, nodes, &halves.0, got, wanted)?;
    compare_nodes(alloc, nodes, &halves.1, got, wanted)
}
