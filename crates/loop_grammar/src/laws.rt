//! What threads share, each said by a function that does nothing.

use crate::ProgramTree;
use loop_data::HeadLine;
use loop_data::laws::is_shared;

/// Threads share `for` lines, and hand them to each other.
pub fn threads_share_heads() {
    is_shared::<HeadLine>();
}

/// Threads share the trees of programs, and hand them to each other.
pub fn threads_share_trees() {
    is_shared::<ProgramTree>();
}
