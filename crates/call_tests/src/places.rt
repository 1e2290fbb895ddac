//! With one worker: the first places of just the leaves that are run, from left to right.

use crate::calls::writes;
use piece_ledger::Gate;
use std::sync::atomic::{AtomicU64, Ordering};
use std::test::Fail;

/// Notes the first place of each leaf that is run, two digits each.
#[derive(Drop)]
struct NotesPlaces {
    noted: AtomicU64,
}

impl Gate for NotesPlaces {
    fn at_part(&self, _worker: u32, first: u64) {
        let noted = self.noted.load(Ordering::SeqCst);
        let more = noted.wrapping_mul(100).wrapping_add(first);
        self.noted.store(more, Ordering::SeqCst);
    }
}

/// A loop, its settings, the first places that are noted, and what is written.
type Row = (&'static str, &'static str, u64, &'static str);

static ROWS: [Row; 4] = [
    (
        "for x in 1:8\n  if x == 3\n    break\n  end\n  @reduce s += x\nend\nprint s\n",
        "base=1",
        10203,
        "3\nran 3, items skipped 5\n",
    ),
    (
        "for x in 1:10\n  if x == 3\n    break\n  end\n  @reduce s += x\nend\nprint s\n",
        "base=4",
        103,
        "3\nran 2, items skipped 5\n",
    ),
    (
        "for x in 1:3, y in 1:x\n  @reduce p = list((x, y))\n  if x == 2 and y == 2\n    break\n  end\nend\nprint p\n",
        "base=1",
        102,
        "[(1, 1), (2, 1), (2, 2)]\nran 2, items skipped 1\n",
    ),
    (
        "for x in 1:4\n  @reduce s += x\nend\nprint s\n",
        "base=1",
        1020304,
        "10\nran 4, items skipped 0\n",
    ),
];

static EXECUTORS: [&str; 2] = ["halves", "steal"];

#[test]
fn one_worker_runs_no_leaf_behind_the_stop(rt: HostRuntime) -> Result<(), Fail> {
    for executor in EXECUTORS {
        for (text, base, places, want) in ROWS {
            let words = format!(in rt.alloc();
                "run loop=loop executor={executor} workers=1 report=yes {base}"
            )?;
            let gate = NotesPlaces {
                noted: AtomicU64::new(0),
            };
            writes(&rt, &rt, rt.alloc(), words.as_str(), text, &gate, want)?;
            assert_eq!(rt; gate.noted.load(Ordering::SeqCst), places);
        }
    }
    Ok(())
}
