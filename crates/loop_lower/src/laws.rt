//! What threads share of jobs.

use crate::LoopJob;
use loop_data::laws::is_shared;

/// Threads share jobs.
pub fn threads_share_jobs<'a>() {
    is_shared::<LoopJob<'a>>();
}
