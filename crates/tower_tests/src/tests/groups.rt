//! Lists and groups, cut at each place, are those of the whole.

ghost use Rattle.std.specs.Prelude.{◌≡◌, ◌≤◌, ◌^◌, length, IfOk};

use loop_data::TextValue;
use no_memory::NoMemory;
use reducer_laws::{Both, Count, Grouped, Groups, Listed, Reducer, Sum};
use std::alloc::Global;
use std::process::Abort;
use std::test::Fail;

/// Folds inputs, first to last.
fn fold_all<R: Reducer>(
    alloc: Global,
    reducer: &R,
    inputs: Vec<R::Input>,
) -> Result<R::State, NoMemory>
    requires few { length inputs.items ≤ 2 ^ 62 }
    requires accepts { (input : R.Input) → R.accepts reducer.now input }
    ensures { IfOk result (λ state. R.stands reducer.now state inputs.items) }
{
    let mut state = reducer.unit(alloc)?;
    for input in inputs {
        reducer.next(alloc, &mut state, input)?;
    }
    Ok(state)
}

/// Words with numbers, as inputs of a group.
fn by_word(
    alloc: Global,
    words: &[(&'static str, i64)],
) -> Result<Vec<(TextValue, (i64, ()))>, NoMemory>
    ensures { IfOk result (λ inputs. length inputs.items ≡ length words.now) }
{
    let mut inputs = Vec::new(alloc);
    for (word, number) in words {
        inputs.push((TextValue::new(alloc, *word)?, (*number, ())))?;
    }
    Ok(inputs)
}

/// Each word with the sum and the count of its numbers.
fn shown(alloc: Global, groups: &Groups<(i128, u64)>) -> Result<String, NoMemory> {
    let mut text = String::new(alloc);
    for (word, (sum, count)) in groups.iter() {
        let group = format!(in alloc; "{}: {} of {}; ", word.as_str(), sum, count)?;
        text.push_str(group.as_str())?;
    }
    Ok(text)
}

const WORDS: [(&'static str, i64); 6] = [
    ("pear", 3),
    ("apple", -1),
    ("pear", 5),
    ("apricot", 7),
    ("apple", 2),
    ("pear", -4),
];

#[test]
fn groups_cut_at_each_place_are_the_whole(rt: HostRuntime) -> Result<(), Fail> {
    let alloc = rt.alloc();
    let reducer = Grouped::new(Both::new(Sum::new(), Count::new()));
    for cut in 0usize..7 {
        let left = fold_all(alloc, &reducer, by_word(alloc, &WORDS[..cut])?)?;
        let right = fold_all(alloc, &reducer, by_word(alloc, &WORDS[cut..])?)?;
        let whole = reducer.merge(alloc, left, right)?;
        assert_eq!(rt;
            shown(alloc, &whole)?.as_str(),
            "apple: 1 of 2; apricot: 7 of 1; pear: 4 of 3; "
        );
    }
    Ok(())
}

#[test]
fn lists_cut_at_each_place_are_the_whole(rt: HostRuntime) -> Result<(), Fail> {
    let alloc = rt.alloc();
    let numbers = [5i64, 3, 3, -2, 9, 0];
    let reducer = Listed::new();
    for cut in 0usize..7 {
        let left = fold_all(alloc, &reducer, numbers[..cut].to_vec(alloc)?)?;
        let right = fold_all(alloc, &reducer, numbers[cut..].to_vec(alloc)?)?;
        let whole = reducer.merge(alloc, left, right)?;
        assert_eq!(rt; whole.as_slice(), numbers.as_slice(), "{cut}");
    }
    Ok(())
}

#[test]
fn a_key_finds_its_state(rt: HostRuntime) -> Result<(), Fail> {
    let alloc = rt.alloc();
    let reducer = Grouped::new(Both::new(Sum::new(), Count::new()));
    let groups = fold_all(alloc, &reducer, by_word(alloc, &WORDS)?)?;
    assert_eq!(rt; groups.len(), 3);
    assert!(rt; groups.get(&TextValue::new(alloc, "apple")?) == Some(&(1, 2)));
    assert!(rt; groups.get(&TextValue::new(alloc, "app")?).is_none());
    assert!(rt; !groups.is_empty() && Groups::<u64>::new(alloc).is_empty());
    Ok(())
}
