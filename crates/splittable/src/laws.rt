//! What halving a shape gives: laws, each the contract of a function that does nothing.

ghost use Rattle.splittable.specs.Laws.{ExcessIsShortest, DepthsAreBounded, NodesLieInShape, NodesForSmallerParts};
ghost use Rattle.splittable.specs.Laws.{HalvesAreTheNode, HalvesAreNodes, ShorterLiesInLonger, ShorterLiesInHalf};
ghost use Rattle.splittable.specs.Laws.{LongerIsHalved, LeafLiesInNode, LeavesAreListed, AllAreLeaves, LeavesAreNeighbours};
ghost use Rattle.splittable.specs.Laws.{LeavesAreAllPlaces, LeavesAreFew, LeafHasItself, LongerHasLeavesOfHalves};
ghost use Rattle.splittable.specs.Laws.{AllUnderAreLeaves, UnderAreNeighbours, WholeHasLeaves, EmptyHasNoLeaves};
ghost use Rattle.splittable.specs.Laws.{NeighboursHaveAllLeaves, NumbersAreCounted, NumbersOfNeighbours, PlacesOfTwo};
ghost use Rattle.splittable.specs.Laws.{PlacesOfNeighbours};

use crate::{Part, Range, Shape};

/// The count of a refused shape is that of the shortest prefix of its lengths that has too many items.
pub fn excess_is_of_the_shortest_prefix()
    ensures { ExcessIsShortest }
{}

/// A node lies at most 24 halvings below the whole, where the least part size is `least_part`'s or more.
pub fn depths_are_bounded()
    ensures { DepthsAreBounded }
{}

/// A node has places of its shape.
pub fn nodes_lie_in_the_shape()
    ensures { NodesLieInShape }
{}

/// A node for some least part size is one for each smaller size.
pub fn nodes_are_nodes_for_smaller_parts()
    ensures { NodesForSmallerParts }
{}

/// The halves of a node are the node, each has at least a third of it, and they are nodes where the node is longer than the
/// least part size.
pub fn halves_of_a_node_are_nodes()
    ensures halves { HalvesAreTheNode }
    ensures nodes { HalvesAreNodes }
{}

/// Two nodes share a place only where one holds the other: the shorter lies in the longer, and, unless they are equally long,
/// in one of the longer one's halves, which are nodes. A leaf lies in each node that shares a place with it.
pub fn nodes_nest()
    ensures shorter { ShorterLiesInLonger }
    ensures half { ShorterLiesInHalf }
    ensures halved { LongerIsHalved }
    ensures leaf { LeafLiesInNode }
{}

/// The leaves of a shape are exactly the listed ones, and they lie next to each other from the first place to the last.
pub fn leaves_are_leaves_in_order()
    ensures listed { LeavesAreListed }
    ensures leaves { AllAreLeaves }
    ensures order { LeavesAreNeighbours }
{}

/// The leaves of a node are the node itself, where it isn't longer than the least part size, and else those of its left half
/// followed by those of its right half. They are leaves of the shape, next to each other from the node's first place to its last.
pub fn leaves_of_a_node()
    ensures leaf { LeafHasItself }
    ensures longer { LongerHasLeavesOfHalves }
    ensures leaves { AllUnderAreLeaves }
    ensures order { UnderAreNeighbours }
    ensures whole { WholeHasLeaves }
    ensures none { EmptyHasNoLeaves }
{}

/// The places of the leaves, one after another, are those of the shape.
pub fn leaves_are_all_places()
    ensures { LeavesAreAllPlaces }
{}

/// There are at most 49,151 leaves, where the least part size is `least_part`'s or more.
pub fn leaves_are_few()
    ensures { LeavesAreFew }
{}

/// Nodes that lie next to each other from the first place to the last have the leaves of the shape, one after another.
pub fn leaves_of_neighbours()
    ensures { NeighboursHaveAllLeaves }
{}

/// Parts that lie next to each other have the places from one end to the other, in order.
pub fn places_of_neighbours()
    ensures counted { NumbersAreCounted }
    ensures numbers { NumbersOfNeighbours }
    ensures two { PlacesOfTwo }
    ensures any { PlacesOfNeighbours }
{}

fn is_shared<T: Send + Sync>() {}

/// Threads share ranges, shapes and parts, and hand them to each other.
pub fn threads_share_parts() {
    is_shared::<Range>();
    is_shared::<Shape>();
    is_shared::<Part>();
}
