//! What a stretch of items answers.

ghost use Rattle.std.specs.Prelude.{◌≡◌};

/// What a stretch of items gives. Places count from 1, and `line` is a line of the loop file.
#[derive(Debug, PartialEq, Eq, Drop)]
pub enum Reduced<S> {
    /// The items ran to their end.
    Going(S),
    /// The item at place `at` stopped the loop; the state holds what was gathered up to then.
    Stopped { at: u64, line: u32, state: S },
    /// The item at place `at` faulted.
    Faulted { at: u64, line: u32, kind: u8 },
}

/// How a stretch ended: what it gives, without the state.
#[derive(Clone, Copy, Debug, PartialEq, Eq)]
pub enum End {
    /// The items ran to their end.
    Going,
    /// The item at place `at` stopped the loop.
    Stopped { at: u64, line: u32 },
    /// The item at place `at` faulted.
    Faulted { at: u64, line: u32, kind: u8 },
}

impl<S> Reduced<S> {
    ghost use Rattle.fold_seq.specs.Answers.{stop_place_of, end_of};

    /// How the stretch ended.
    pub fn end(&self) -> End
        ensures { result ≡ end_of self.now }
    {
        match self {
            Reduced::Going(_) => End::Going,
            Reduced::Stopped { at, line, .. } => End::Stopped {
                at: *at,
                line: *line,
            },
            Reduced::Faulted { at, line, kind } => End::Faulted {
                at: *at,
                line: *line,
                kind: *kind,
            },
        }
    }

    /// The place of the item that stopped or faulted, if one did.
    pub fn stop_place(&self) -> Option<u64>
        ensures { result ≡ stop_place_of self.now }
    {
        match self {
            Reduced::Going(_) => None,
            Reduced::Stopped { at, .. } | Reduced::Faulted { at, .. } => Some(*at),
        }
    }
}
