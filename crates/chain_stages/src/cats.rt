//! Where a `Cat` may stand in a chain.

ghost use Rattle.std.specs.Prelude.{◌≡◌, false};
ghost use Rattle.std.specs.Option.{option_copied};
ghost use Rattle.chain_stages.specs.Cats.{cat_name, cats_follow, is_inner, may_follow};

use crate::{Doing, Stage};
use loop_data::TextValue;

impl Stage {
    /// The name of a `Cat`, and `None` exactly where the stage is none.
    pub fn cat_name(&self) -> Option<&TextValue>
        ensures { option_copied result ≡ cat_name self.now }
    {
        match self {
            Stage::Cat { line: _, name } => Some(name),
            _ => None,
        }
    }

    /// Whether the stage sets the inner range of an element.
    pub fn is_inner(&self) -> bool
        ensures { result ≡ is_inner self.now }
    {
        matches!(
            self,
            Stage::Map {
                line: _,
                action: Doing::Inner { name: _, range: _ }
            }
        )
    }
}

/// Whether the stage may come after one that sets the inner range, or after another.
fn may_follow(after_inner: bool, stage: &Stage) -> bool
    ensures { result ≡ may_follow after_inner stage.now }
{
    match stage {
        Stage::Cat { line: _, name: _ } => after_inner,
        _ => true,
    }
}

/// Whether each `Cat` of these stages comes right after a stage that sets the inner range, which is asked of a chain through which
/// elements are to go.
pub fn cats_follow(stages: &[Stage]) -> bool
    ensures { result ≡ cats_follow false stages.now }
{
    let mut after_inner = false;
    for stage in stages {
        if !may_follow(after_inner, stage) {
            return false;
        }
        after_inner = stage.is_inner();
    }
    true
}
