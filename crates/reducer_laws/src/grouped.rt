//! Inputs by their keys.

ghost use Rattle.std.specs.Prelude.{◌≡◌, ◌≢◌, ◌↔◌, ℕ, List, [], ◌∷◌, length, IsTrue, IsOk, None, Some, Ok, IfOk, OnErr, OnOk};
ghost use Rattle.std.specs.Borrow.{LendsSo, sem};
ghost use Rattle.std.specs.Option.{option_copied, option_copied_mut};
ghost use Rattle.reducer_laws.specs.contracts.grouped.Groups.{the_row};
ghost use Rattle.std.specs.Map.Iter.{ShowsInOrder, deref_pair};
ghost use Rattle.reducer_laws.specs.Groups.{KeysRise, GroupsStand, GroupsTakeNext, GroupsTakeTogether, GroupsTogether};
ghost use Rattle.reducer_laws.specs.Groups.{HoldsAt, MayMergeInto, TogetherWhere, Writes, state_at};
ghost use Rattle.reducer_laws.specs.Standing.{MayTake, MayMerge};

use crate::Reducer;
use loop_data::TextValue;
use no_memory::NoMemory;
use std::alloc::Global;
use std::collections::BTreeMap;
use std::collections::btree_map::{IntoIter, Iter};
use std::marker::Model;

/// States by their keys, which contracts see as the list of both by rising bytes of the keys. A state may hold groups of its
/// own kind.
#[derive(Drop)]
pub struct Groups<S> {
    tree: BTreeMap<TextValue, S>,
}

impl<S> Model for Groups<S> {
    ghost use Rattle.std.specs.Prelude.{ℕ, List};
    ghost use Rattle.std.specs.Coded.{coded_ℕ, coded_list, coded×};

    ghost Value = { List (List ℕ × S) };

    ghost coded = { coded_list (coded× (coded_list coded_ℕ) S.code) };

    ghost view = { λ g. g.tree.entries };
}

impl<S> Groups<S> {
    /// No groups. It takes no memory.
    pub fn new(alloc: Global) -> Groups<S>
        ensures { result ≡ [] }
    {
        Groups {
            tree: BTreeMap::new(alloc),
        }
    }

    /// How many keys there are.
    pub fn len(&self) -> usize
        ensures { result ≡ length self.now }
    {
        self.tree.len()
    }

    /// Whether there is no key.
    pub fn is_empty(&self) -> bool
        ensures { IsTrue result ↔ (self.now ≡ []) }
    {
        self.tree.is_empty()
    }

    /// The state of a key, if it has one.
    pub fn get(&self, key: &TextValue) -> Option<&S>
        ensures { option_copied result ≡ state_at key.now self.now }
    {
        self.tree.get(key)
    }

    /// The state of a key, to change, if it has one. What is written there is the key's state, and all else stays.
    pub fn get_mut(&mut self, key: &TextValue) -> Option<&mut S>
        ensures* writes_back { sem 𝓛 (LendsSo (the_row S.row) S.row self.entry result
            (Writes key.now self.old result) (λ groups. groups ≡ self.old)) }
        ensures value { option_copied_mut result ≡ state_at key.now self.old }
    {
        self.tree.get_mut(key)
    }

    /// The keys with their states, by rising bytes of the keys.
    pub fn iter(&self) -> Iter<'_, TextValue, S>
        ensures rest { result ≡ self.now }
        ensures rising { KeysRise self.now }
        ensures runs { ShowsInOrder (deref_pair {K = List ℕ} {X = S}) }
    {
        self.tree.iter()
    }
}

impl<S: Drop> Groups<S> {
    /// The keys with their states, by rising bytes of the keys, moved out.
    pub fn into_entries(self) -> IntoIter<TextValue, S, Global>
        ensures rest { result ≡ self }
        ensures rising { KeysRise self }
    {
        self.tree.into_iter()
    }

    /// Puts a state at a key, in place of the one that stood there. A refusal is want of memory, and comes only for a new key:
    /// then the groups are as before, and key and state are given up.
    pub fn insert(&mut self, key: TextValue, state: S) -> Result<(), NoMemory>
        ensures holds { OnOk result (HoldsAt key state self.old self.new) }
        ensures kept { OnErr result (self.new ≡ self.old) }
        ensures free { state_at key self.old ≢ None → IsOk result }
    {
        self.tree.insert(key, state)?;
        Ok(())
    }

    /// Takes one more input of a key, by the inner reducer, after the inputs that the groups stand for. Where the key is there,
    /// its state takes the input in its place, and no memory is taken but the inner reducer's. After `NoMemory` the groups
    /// stand for no list and can only be dropped.
    pub fn take<R: Reducer<State = S>>(
        &mut self,
        alloc: Global,
        inner: &R,
        key: TextValue,
        input: R::Input,
    ) -> Result<(), NoMemory>
        requires room { MayTake (GroupsStand (R.stands inner.now)) self.old }
        requires accepts { R.accepts inner.now input }
        ensures stands { OnOk result (GroupsTakeNext (R.stands inner.now)
            self.old key input self.new) }
        ensures free { R.is_free inner.now → state_at key self.old ≢ None → IsOk result }
    {
        next_under(alloc, inner, &mut self.tree, key, input)
    }

    /// Puts the right's groups after the left's, the states of a key merged by the inner reducer. Each state is moved. After
    /// `NoMemory` both are given up.
    pub fn merge<R: Reducer<State = S>>(
        alloc: Global,
        inner: &R,
        left: Groups<S>,
        right: Groups<S>,
    ) -> Result<Groups<S>, NoMemory>
        requires { MayMerge (GroupsStand (R.stands inner.now)) left right }
        ensures stands { IfOk result (GroupsTakeTogether (R.stands inner.now) left right) }
        ensures empty_left { left ≡ [] → result ≡ Ok right }
    {
        if left.is_empty() {
            return Ok(right);
        }
        let Groups { tree: left } = left;
        let Groups { tree: right } = right;
        let tree = merge_trees(alloc, inner, left, right)?;
        Ok(Groups { tree })
    }
}

/// Folds the inputs of each key by themselves. An input is the pair of its key and what the inner reducer takes.
#[derive(Drop)]
pub struct Grouped<R> {
    /// Takes the inputs of each key.
    pub inner: R,
}

impl<R: Reducer> Grouped<R> {
    /// The reducer that folds by `inner` for each key.
    pub fn new(inner: R) -> Grouped<R>
        ensures { result.inner ≡ inner }
    {
        Grouped { inner }
    }
}

impl<R: Reducer> Reducer for Grouped<R> {
    type Input = (TextValue, R::Input);

    type State = Groups<R::State>;

    ghost stands = { λ reducer. GroupsStand (R.stands reducer.inner) };

    ghost accepts = { λ reducer input. R.accepts reducer.inner input.1 };

    ghost is_free = { λ _. ⊥ };

    ghost unit_is_free = { λ _. Unit {0} };

    fn unit(&self, alloc: Global) -> Result<Groups<R::State>, NoMemory> {
        Ok(Groups::new(alloc))
    }

    fn next(
        &self,
        alloc: Global,
        state: &mut Groups<R::State>,
        input: (TextValue, R::Input),
    ) -> Result<(), NoMemory> {
        let (key, input) = input;
        state.take(alloc, &self.inner, key, input)
    }

    fn merge(
        &self,
        alloc: Global,
        left: Groups<R::State>,
        right: Groups<R::State>,
    ) -> Result<Groups<R::State>, NoMemory> {
        Groups::merge(alloc, &self.inner, left, right)
    }
}

/// Takes one more input of a key. Where the key is there, its state takes it in its place, and no memory is taken but the
/// inner reducer's.
fn next_under<R: Reducer>(
    alloc: Global,
    inner: &R,
    tree: &mut BTreeMap<TextValue, R::State>,
    key: TextValue,
    input: R::Input,
) -> Result<(), NoMemory>
    requires room { MayTake (GroupsStand (R.stands inner.now)) tree.old.entries }
    requires accepts { R.accepts inner.now input }
    ensures stands { OnOk result (GroupsTakeNext (R.stands inner.now)
        tree.old.entries key input tree.new.entries) }
    ensures free { R.is_free inner.now → state_at key tree.old.entries ≢ None → IsOk result }
{
    if let Some(state) = tree.get_mut(&key) {
        return inner.next(alloc, state, input);
    }
    let state = first_state(alloc, inner, input)?;
    tree.insert(key, state)?;
    Ok(())
}

/// A state that stands for one input alone.
fn first_state<R: Reducer>(alloc: Global, inner: &R, input: R::Input) -> Result<R::State, NoMemory>
    requires { R.accepts inner.now input }
    ensures { IfOk result (λ state. R.stands inner.now state (input ∷ [])) }
{
    let mut state = inner.unit(alloc)?;
    inner.next(alloc, &mut state, input)?;
    Ok(state)
}

/// Puts the right's groups into the left's. Each state is moved.
fn merge_trees<R: Reducer>(
    alloc: Global,
    inner: &R,
    left: BTreeMap<TextValue, R::State>,
    right: BTreeMap<TextValue, R::State>,
) -> Result<BTreeMap<TextValue, R::State>, NoMemory>
    requires { MayMerge (GroupsStand (R.stands inner.now)) left.entries right.entries }
    ensures { IfOk result (λ whole. GroupsTogether (R.stands inner.now)
        left.entries right.entries whole.entries) }
{
    let mut whole = left;
    for (key, state) in right {
        put_after(alloc, inner, &mut whole, key, state)?;
    }
    Ok(whole)
}

/// Merges a state into that of its key, or puts it there where there is none. A state that is there is taken out, so that no
/// unit is made to stand in its place.
fn put_after<R: Reducer>(
    alloc: Global,
    inner: &R,
    tree: &mut BTreeMap<TextValue, R::State>,
    key: TextValue,
    state: R::State,
) -> Result<(), NoMemory>
    requires { MayMergeInto (R.stands inner.now) (state_at key tree.old.entries) state }
    ensures { OnOk result (GroupsTogether (R.stands inner.now)
        tree.old.entries ((key, state) ∷ []) tree.new.entries) }
{
    let before = tree.remove(&key);
    let whole = merge_into(alloc, inner, before, state)?;
    tree.insert(key, whole)?;
    Ok(())
}

/// Merges a state into the one before it, if there is one.
fn merge_into<R: Reducer>(
    alloc: Global,
    inner: &R,
    before: Option<R::State>,
    after: R::State,
) -> Result<R::State, NoMemory>
    requires { MayMergeInto (R.stands inner.now) before after }
    ensures { IfOk result (λ whole.
        TogetherWhere (R.stands inner.now) before (Some after) (Some whole)) }
{
    match before {
        Some(before) => inner.merge(alloc, before, after),
        None => Ok(after),
    }
}
