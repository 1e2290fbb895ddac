//! That two threads run parts at the same time.

use fold_examples::Sum;
use fold_steal::fold_steal;
use no_memory::NoMemory;
use piece_ledger::Gate;
use splittable::Shape;
use std::sync::atomic::{AtomicU64, Ordering};

/// Holds the first call until a second one has begun, for at most so many loads. It notes the calls, the sum of their workers'
/// numbers, and whether the limit was met.
#[derive(Drop)]
struct HoldsTheFirst {
    calls: AtomicU64,
    workers: AtomicU64,
    limits: AtomicU64,
}

impl HoldsTheFirst {
    /// The most loads of the first call.
    const MOST: u64 = 500_000_000;

    fn new() -> HoldsTheFirst {
        HoldsTheFirst {
            calls: AtomicU64::new(0),
            workers: AtomicU64::new(0),
            limits: AtomicU64::new(0),
        }
    }

    /// How many calls came, the sum of their workers' numbers, and whether the limit was met.
    fn noted(&self) -> (u64, u64, bool) {
        let calls = self.calls.load(Ordering::SeqCst);
        let workers = self.workers.load(Ordering::SeqCst);
        (calls, workers, self.limits.load(Ordering::SeqCst) != 0)
    }
}

impl Gate for HoldsTheFirst {
    fn at_part(&self, worker: u32, _first: u64) {
        self.workers.fetch_add(worker as u64, Ordering::SeqCst);
        if self.calls.fetch_add(1, Ordering::SeqCst) != 0 {
            return;
        }
        for _ in 0..HoldsTheFirst::MOST {
            if self.calls.load(Ordering::SeqCst) >= 2 {
                return;
            }
        }
        self.limits.fetch_add(1, Ordering::SeqCst);
    }
}

#[test]
fn two_workers_run_parts(rt: HostRuntime) -> Result<(), NoMemory> {
    let Ok(shape) = Shape::new(&[2]) else {
        assert!(rt; false);
        return Ok(());
    };
    let job = Sum { shape };
    let gate = HoldsTheFirst::new();
    fold_steal(&rt, rt.alloc(), &job, 1, 2, &gate)?;
    // The worker 0 and the worker 1.
    assert_eq!(rt; gate.noted(), (2, 1, false));
    Ok(())
}
