//! How many fields the files of a table may have.

ghost use Rattle.std.specs.Prelude.{◌≡◌, ◌+◌, ◌≤◌, nat_lt};
ghost use Rattle.column_input.specs.Limits.{max_fields};

/// How many fields the files before one have together, headers included, and how many all files may have.
#[derive(Clone, Copy, Debug, PartialEq, Eq)]
pub(crate) struct FieldLimit {
    pub(crate) before: u64,
    pub(crate) most: u64,
}

impl FieldLimit {
    /// Whether so many fields of a further file are too many.
    pub(crate) fn is_over(&self, fields: u64) -> bool
        requires before { self.now.before ≤ max_fields }
        requires fields { fields ≤ max_fields + max_fields }
        ensures { result ≡ nat_lt self.now.most (self.now.before + fields) }
    {
        self.before + fields > self.most
    }
}
