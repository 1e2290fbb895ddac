//! What "as often" means: laws, each the contract of a function that does nothing.

ghost use Rattle.as_often.specs.Laws.{OrderIsNoMatter, AsOftenIsAsLong, AsOftenHoldsPlaces, AsOftenPassTests};

/// The same parts in another order are as often. Lists that hold the same parts as often are as long, and are worth the same
/// however places are weighed: so each place lies in as many parts of the one as of the other. As many of the one as of the other
/// pass any test: so each part stands in both equally often.
pub fn as_often_is_without_order()
    ensures order { OrderIsNoMatter }
    ensures long { AsOftenIsAsLong }
    ensures places { AsOftenHoldsPlaces }
    ensures tests { AsOftenPassTests }
{}
