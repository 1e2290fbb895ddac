//! Orders of preference: which of two inputs beats the other.

ghost use Rattle.std.specs.Prelude.{◌≡◌, Bool};
ghost use Rattle.std.specs.Cmp.{IsStrictWeakOrder};
ghost use Rattle.std.specs.Ordering.{nat_cmp};
ghost use Rattle.loop_results.specs.Extremes.{is_smaller, is_greater, is_smaller_at, is_greater_at};

use std::marker::PhantomData;

/// An order of preference. Two inputs of which neither beats the other are equal under it, and need not be the same.
pub trait Preference {
    /// What is preferred.
    type Of: Drop;

    /// The one beats the other.
    ghost beats: { Self.Of → Self.Of → Bool };

    /// Whether the one beats the other.
    fn beats(one: &Self::Of, other: &Self::Of) -> bool
        ensures { result ≡ beats one.now other.now };

    /// Nothing beats what beats it, and what isn't beaten is in order.
    ghost is_order: { IsStrictWeakOrder beats };
}

/// Prefers the smaller.
#[derive(Drop)]
pub struct Smaller<T> {
    of: PhantomData<T>,
}

impl<T: Ord + Drop> Preference for Smaller<T> {
    type Of = T;

    ghost beats = { is_smaller T.cmp };

    fn beats(one: &T, other: &T) -> bool {
        one.cmp(other).is_lt()
    }

    ghost use Rattle.loop_results.specs.Orders.{smaller_is_order};

    ghost is_order = { smaller_is_order T.Ord.total };
}

/// Prefers the greater.
#[derive(Drop)]
pub struct Greater<T> {
    of: PhantomData<T>,
}

impl<T: Ord + Drop> Preference for Greater<T> {
    type Of = T;

    ghost beats = { is_greater T.cmp };

    fn beats(one: &T, other: &T) -> bool {
        other.cmp(one).is_lt()
    }

    ghost use Rattle.loop_results.specs.Orders.{greater_is_order};

    ghost is_order = { greater_is_order T.Ord.total };
}

/// Of values with their places, prefers the smaller value, and of equal values the one at the lesser place.
#[derive(Drop)]
pub struct SmallerAt<T> {
    of: PhantomData<T>,
}

impl<T: Ord + Drop> Preference for SmallerAt<T> {
    type Of = (T, u64);

    ghost beats = { is_smaller_at T.cmp nat_cmp };

    fn beats(one: &(T, u64), other: &(T, u64)) -> bool {
        one.0.cmp(&other.0).then(one.1.cmp(&other.1)).is_lt()
    }

    ghost use Rattle.std.specs.Cmp.{nat_cmp_total};
    ghost use Rattle.loop_results.specs.Orders.{smaller_at_is_order};

    ghost is_order = { smaller_at_is_order T.Ord.total nat_cmp_total };
}

/// Of values with their places, prefers the greater value, and of equal values the one at the lesser place.
#[derive(Drop)]
pub struct GreaterAt<T> {
    of: PhantomData<T>,
}

impl<T: Ord + Drop> Preference for GreaterAt<T> {
    type Of = (T, u64);

    ghost beats = { is_greater_at T.cmp nat_cmp };

    fn beats(one: &(T, u64), other: &(T, u64)) -> bool {
        other.0.cmp(&one.0).then(one.1.cmp(&other.1)).is_lt()
    }

    ghost use Rattle.std.specs.Cmp.{nat_cmp_total};
    ghost use Rattle.loop_results.specs.Orders.{greater_at_is_order};

    ghost is_order = { greater_at_is_order T.Ord.total nat_cmp_total };
}
