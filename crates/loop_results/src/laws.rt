//! Laws of results, each the contract of a function that does nothing.

ghost use Rattle.loop_results.specs.Laws.{LeastIsUnbeaten, GreatestIsUnbeaten, NumbersThenTextsThenAllElse};
ghost use Rattle.loop_results.specs.Laws.{TruthTextAndNumber, LeastIsAtLeastPlace, GreatestIsAtLeastPlace};
ghost use Rattle.loop_results.specs.Laws.{KeysRise, KeysAreThoseThatOccur};

/// The least and the greatest are inputs that no other input beats. There is none exactly where there are no inputs.
pub fn an_extreme_is_an_unbeaten_input()
    ensures least { LeastIsUnbeaten }
    ensures greatest { GreatestIsUnbeaten }
{}

/// Values of all forms are in one order: numbers, then texts, then all else.
pub fn numbers_come_before_texts_before_all_else()
    ensures order { NumbersThenTextsThenAllElse }
    ensures example { TruthTextAndNumber }
{}

/// The place that is given with the least or the greatest is the least place where it stands.
pub fn an_extreme_stands_at_its_least_place()
    ensures least { LeastIsAtLeastPlace }
    ensures greatest { GreatestIsAtLeastPlace }
{}

/// The keys of groups rise by their bytes, and are exactly the keys that occur.
pub fn keys_rise_and_are_those_that_occur<I>()
    ensures rise { KeysRise I }
    ensures occur { KeysAreThoseThatOccur I }
{}
