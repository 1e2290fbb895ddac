//! What the rules ask of names.

ghost use Rattle.std.specs.Prelude.{◌≡◌, ◌≢◌, ◌++◌, ◌∷◌, [], Err, IfOk, filter};
ghost use Rattle.std.specs.Option.{option_copied};
ghost use Rattle.legality_rules.specs.Scopes.{is_in, is_known, is_loop_variable, is_variable, sort_in};
ghost use Rattle.legality_rules.specs.Rules.{repeated};
ghost use Rattle.legality_rules.specs.Lines.{first_name};
ghost use Rattle.legality_names.specs.Answers.{answer, illegal, leftmost, named};
ghost use Rattle.legality_names.specs.Names.{names_offence, of_sort, site_names, taken, unknown};

use legality_rules::{Known, LegalRefusal, Offence, Site, Sort};
use loop_data::TextValue;
use no_memory::NoMemory;
use std::alloc::Global;

/// Whether the name is one of these.
pub fn is_in(names: &[TextValue], name: &TextValue) -> bool
    ensures { result ≡ is_in names.now name.now }
{
    for other in names {
        if name == other {
            return true;
        }
    }
    false
}

/// What a name is in scope as, where it is in scope.
pub fn sort_in(scope: &[Known], name: &TextValue) -> Option<Sort>
    ensures { result ≡ sort_in scope.now name.now }
{
    for known in scope {
        if *name == known.name {
            return Some(known.sort);
        }
    }
    None
}

fn is_known(scope: &[Known], name: &TextValue) -> bool
    ensures { result ≡ is_known scope.now name.now }
{
    sort_in(scope, name).is_some()
}

/// Refuses the line at the name, where there is one.
pub fn refuse(
    alloc: Global,
    number: u32,
    line: u32,
    name: Option<&TextValue>,
) -> Result<(), LegalRefusal>
    ensures { result ≢ Err LegalRefusal.NoMemory → result ≡ answer (named number line (option_copied name.entry)) }
{
    match name {
        None => Ok(()),
        Some(name) => {
            let name = name.copy(alloc)?;
            Err(LegalRefusal::Illegal(Offence { number, line, name }))
        }
    }
}

/// The refusal of a line at a name.
pub fn illegal(alloc: Global, number: u32, line: u32, name: &str) -> LegalRefusal
    ensures { result ≢ LegalRefusal.NoMemory → result ≡ illegal number line name.now }
{
    match TextValue::new(alloc, name) {
        Ok(name) => LegalRefusal::Illegal(Offence { number, line, name }),
        Err(NoMemory) => LegalRefusal::NoMemory,
    }
}

/// The refusal of a line for a kind that differs, at the first of these names.
pub fn mistyped(alloc: Global, line: u32, names: &[TextValue]) -> LegalRefusal
    ensures { result ≢ LegalRefusal.NoMemory → result ≡ illegal 7 line (first_name names.now) }
{
    match names.first() {
        Some(name) => illegal(alloc, 7, line, name.as_str()),
        None => illegal(alloc, 7, line, ""),
    }
}

/// The leftmost name that is no reducer and isn't in scope.
pub fn unknown<'a>(
    reducers: &[TextValue],
    scope: &[Known],
    names: &'a [TextValue],
) -> Option<&'a TextValue>
    ensures { option_copied result ≡ leftmost (unknown reducers.now scope.now names.now) }
{
    for name in names {
        if !is_in(reducers, name) && !is_known(scope, name) {
            return Some(name);
        }
    }
    None
}

/// The leftmost of the names that is one of the others.
pub fn first_among<'a>(others: &[TextValue], names: &'a [TextValue]) -> Option<&'a TextValue>
    ensures { option_copied result ≡ leftmost (filter (is_in others.now) names.now) }
{
    for name in names {
        if is_in(others, name) {
            return Some(name);
        }
    }
    None
}

/// Whether an `@reduce` line reduces into the name.
fn is_reduced(sites: &[Site], name: &TextValue) -> bool
    ensures { result ≡ is_in (site_names sites.now) name.now }
{
    for site in sites {
        if *name == site.name {
            return true;
        }
    }
    false
}

/// Whether the name is bound before, reduced into before, or one of those left of it.
#[tactic(auto, using(crate::proofs::NameLemmas::one_of_three))]
fn is_before(bound: &[TextValue], sites: &[Site], left: &[TextValue], name: &TextValue) -> bool
    ensures { result ≡ is_in (taken bound.now sites.now ++ left.now) name.now }
{
    is_in(bound, name) || is_reduced(sites, name) || is_in(left, name)
}

/// The leftmost of the names that is taken before, or stands left of itself in the list.
pub fn repeated<'a>(
    bound: &[TextValue],
    sites: &[Site],
    names: &'a [TextValue],
) -> Option<&'a TextValue>
    ensures { option_copied result ≡ leftmost (repeated (taken bound.now sites.now) names.now) }
{
    for (i, name) in names.iter().enumerate() {
        if is_before(bound, sites, &names[..i], name) {
            return Some(name);
        }
    }
    None
}

/// The name, where it is taken before.
pub fn taken<'a>(bound: &[TextValue], sites: &[Site], name: &'a TextValue) -> Option<&'a TextValue>
    ensures { option_copied result ≡ leftmost (filter (is_in (taken bound.now sites.now)) (name.now ∷ [])) }
{
    if is_before(bound, sites, &[], name) {
        return Some(name);
    }
    None
}

/// The name, where it is one of the others.
pub fn one_of<'a>(others: &[TextValue], name: &'a TextValue) -> Option<&'a TextValue>
    ensures { option_copied result ≡ leftmost (filter (is_in others.now) (name.now ∷ [])) }
{
    if is_in(others, name) {
        return Some(name);
    }
    None
}

/// The name, where it is a loop variable in scope.
pub fn loop_variable<'a>(scope: &[Known], name: &'a TextValue) -> Option<&'a TextValue>
    ensures { option_copied result ≡ leftmost (of_sort is_loop_variable scope.now (name.now ∷ [])) }
{
    match sort_in(scope, name) {
        Some(Sort::LoopVariable) => Some(name),
        _ => None,
    }
}

/// The name, where it is an outer variable.
pub fn outer_variable<'a>(scope: &[Known], name: &'a TextValue) -> Option<&'a TextValue>
    ensures { option_copied result ≡ leftmost (of_sort is_variable scope.now (name.now ∷ [])) }
{
    match sort_in(scope, name) {
        Some(Sort::Variable) => Some(name),
        _ => None,
    }
}

/// Tries the rules on the names that a line reads or assigns: that they are known, that the line binds none twice, told the
/// leftmost that it does, that it assigns no outer variable, told the one that it does, and that none is a reducer.
pub fn try_names(
    alloc: Global,
    reducers: &[TextValue],
    scope: &[Known],
    line: u32,
    used: &[TextValue],
    twice: Option<&TextValue>,
    variable: Option<&TextValue>,
) -> Result<(), LegalRefusal>
    ensures { result ≢ Err LegalRefusal.NoMemory →
        result ≡ answer (names_offence reducers.now scope.now line used.now
        (option_copied twice.entry) (option_copied variable.entry)) }
{
    refuse(alloc, 1, line, unknown(reducers, scope, used))?;
    refuse(alloc, 2, line, twice)?;
    refuse(alloc, 3, line, variable)?;
    refuse(alloc, 5, line, first_among(reducers, used))
}
