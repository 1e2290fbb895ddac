//! How a chain's output of one item ends.

/// What the step of an item comes to. `line` is a line of the loop file, from 1 on.
#[derive(Clone, Copy, Debug, PartialEq, Eq)]
pub enum StepEnd {
    /// Further items are taken.
    Going,
    /// The fold ended after what was taken.
    Ended { line: u32 },
    /// The item faulted; the kind of a fault is from 1 to 5.
    Fault { line: u32, kind: u8 },
}
