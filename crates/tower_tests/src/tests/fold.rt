//! Folds of lists of inputs, whole and in parts.

ghost use Rattle.std.specs.Prelude.{◌≡◌, ◌≤◌, ◌^◌, length, List, IfOk};
ghost use Rattle.reducer_tower.specs.Stands.{Stands};

use super::fits::fits;
use loop_data::{Kind, Value};
use no_memory::NoMemory;
use reducer_laws::Reducer;
use reducer_tower::{Tower, TowerState};
use std::alloc::Global;
use std::process::Abort;
use std::test::Fail;

/// Folds inputs, first to last. Each has to fit the tower.
fn fold<H: Abort>(
    rt: &H,
    alloc: Global,
    tower: &Tower,
    inputs: &[Value],
) -> Result<TowerState, NoMemory>
    requires { length inputs.now ≤ 2 ^ 62 }
    ensures { IfOk result (λ state. Stands tower.now.kind state inputs.now) }
{
    let mut state = tower.unit(alloc)?;
    for input in inputs {
        assert!(rt;
            fits(&tower.kind, input),
            "{input} doesn't fit {}",
            tower.kind
        );
        tower.next(alloc, &mut state, input.copy(alloc)?)?;
    }
    Ok(state)
}

/// Folds the inputs before a place and those from it on, and merges the two.
fn fold_in_parts<H: Abort>(
    rt: &H,
    alloc: Global,
    tower: &Tower,
    inputs: &[Value],
    cut: usize,
) -> Result<TowerState, NoMemory>
    requires few { length inputs.now ≤ 2 ^ 62 }
    requires within { cut ≤ length inputs.now }
    ensures { IfOk result (λ state. Stands tower.now.kind state inputs.now) }
{
    let left = fold(rt, alloc, tower, &inputs[..cut])?;
    let right = fold(rt, alloc, tower, &inputs[cut..])?;
    tower.merge(alloc, left, right)
}

/// Checks that the inputs, cut at a place, come to the wanted text, and a copy of the state to the same.
pub fn check_at<H: Abort>(
    rt: &H,
    alloc: Global,
    kind: &Kind,
    inputs: &[Value],
    cut: usize,
    want: &str,
) -> Result<(), Fail> {
    assert!(rt; cut <= inputs.len());
    assert!(rt; inputs.len() <= 4611686018427387904);
    let tower = Tower::new(alloc, kind)?;
    let state = fold_in_parts(rt, alloc, &tower, inputs, cut)?;
    let text = format!(in alloc; "{state}")?;
    assert!(rt;
        text.as_str() == want,
        "{kind} cut at {cut}: {text}, not {want}"
    );
    let copy = state.copy(alloc)?;
    let text = format!(in alloc; "{copy}")?;
    assert!(rt; text.as_str() == want, "{kind} copied: {text}, not {want}");
    Ok(())
}

/// Checks that the inputs, cut at each place, come to the wanted text, and copies of the states to the same.
pub fn check<H: Abort>(
    rt: &H,
    alloc: Global,
    kind: &Kind,
    inputs: &[Value],
    want: &str,
) -> Result<(), Fail> {
    for cut in 0..inputs.len() + 1 {
        check_at(rt, alloc, kind, inputs, cut, want)?;
    }
    Ok(())
}
