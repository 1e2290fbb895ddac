//! That two threads run parts at the same time.

use crate::calls::writes;
use piece_ledger::Gate;
use std::sync::atomic::{AtomicU64, Ordering};
use std::test::Fail;

/// Holds the first call until a second one has begun, for at most so many loads. It notes the calls, the sum of their workers'
/// numbers, and whether the limit was met.
#[derive(Drop)]
struct HoldsTheFirst {
    calls: AtomicU64,
    workers: AtomicU64,
    limits: AtomicU64,
}

impl HoldsTheFirst {
    /// The most loads of the first call.
    const MOST: u64 = 500_000_000;

    fn new() -> HoldsTheFirst {
        HoldsTheFirst {
            calls: AtomicU64::new(0),
            workers: AtomicU64::new(0),
            limits: AtomicU64::new(0),
        }
    }

    /// How many calls came, the sum of their workers' numbers, and whether the limit was met.
    fn noted(&self) -> (u64, u64, bool) {
        let calls = self.calls.load(Ordering::SeqCst);
        let workers = self.workers.load(Ordering::SeqCst);
        (calls, workers, self.limits.load(Ordering::SeqCst) != 0)
    }
}

impl Gate for HoldsTheFirst {
    fn at_part(&self, worker: u32, _first: u64) {
        self.workers.fetch_add(worker as u64, Ordering::SeqCst);
        if self.calls.fetch_add(1, Ordering::SeqCst) != 0 {
            return;
        }
        for _ in 0..HoldsTheFirst::MOST {
            if self.calls.load(Ordering::SeqCst) >= 2 {
                return;
            }
        }
        self.limits.fetch_add(1, Ordering::SeqCst);
    }
}

/// Each worker has one of the two items, and the first waits for the second.
static WORDS: [&str; 3] = [
    "run loop=loop workers=2 base=1 executor=halves",
    "run loop=loop workers=2 base=1 executor=steal",
    "run loop=loop workers=2 base=1",
];

#[test]
fn two_threads_run_parts(rt: HostRuntime) -> Result<(), Fail> {
    let text = "for x in 1:2\n  @reduce s += x\nend\nprint s\n";
    for words in WORDS {
        let gate = HoldsTheFirst::new();
        writes(&rt, &rt, rt.alloc(), words, text, &gate, "3\n")?;
        let (calls, _workers, limit) = gate.noted();
        assert_eq!(rt; calls, 2);
        assert!(rt; !limit, "{words}");
    }
    Ok(())
}
