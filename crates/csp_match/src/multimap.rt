//! Values by key, of which a key may have several.
ghost use Rattle.std.specs.Prelude.{◌≡◌, ◌≤◌, ◌&&◌, Bool, IsTrue, true, false, length};
ghost use Rattle.std.specs.List.{Any, Contains, list_any};
ghost use Rattle.std.specs.List.Sorted.{IsPartitionPoint, IsPartitionedBy, IsSortedBy, IsStrictlySortedBy};
ghost use Rattle.std.specs.Ordering.{is_eq, is_le, is_lt, ordering_then};

use std::marker::Model;

// The items in order. Of equal items one is kept.
pub(crate) fn sorted_once<T: Ord + Drop>(mut items: Vec<T>) -> Vec<T>
    ensures given { (x : T) → Contains result.items x → Contains items.items x }
    ensures kept { (x : T) → Contains items.items x → Any (λ y. T.eq x y ≡ true) result.items }
    ensures rises { IsStrictlySortedBy T.cmp result.items }
{
    if !rises(items.as_slice()) {
        items.sort_unstable();
        items.dedup();
    }
    items
}

// Whether each item is less than the one behind it, so that there is nothing to sort.
fn rises<T: Ord>(items: &[T]) -> bool
    ensures { IsTrue result → IsStrictlySortedBy T.cmp items.now }
{
    items.is_sorted_by(|item, next| item.cmp(next).is_lt())
}

// Of equal items that stand side by side one is kept.
pub(crate) fn without_repeats<T: Eq + Drop>(mut items: Vec<T>) -> Vec<T>
    ensures given { (x : T) → Contains result.items x → Contains items.items x }
    ensures kept { (x : T) → Contains items.items x → Any (λ y. T.eq x y ≡ true) result.items }
{
    items.dedup();
    items
}

// Where the pairs of greater keys begin. Mostly no pair has the key itself, as the first pair shows, or all
// have it, as the last one does.
fn end_of_key<K: Ord, V>(pairs: &[(K, V)], key: &K) -> usize
    requires { IsPartitionedBy (λ (x : K × V). is_le (K.cmp x.0 key.now)) pairs.now }
    ensures bound { result ≤ length pairs.now }
    ensures end { IsPartitionPoint (λ (x : K × V). is_le (K.cmp x.0 key.now) ≡ true)
        (λ (x : K × V). is_le (K.cmp x.0 key.now) ≡ false) pairs.now result }
{
    match (pairs.first(), pairs.last()) {
        (Some(first), Some(last)) => {
            if first.0.cmp(key).is_gt() {
                0
            } else if last.0.cmp(key).is_gt() {
                pairs.partition_point(|pair| pair.0.cmp(key).is_le())
            } else {
                pairs.len()
            }
        }
        _ => 0,
    }
}

// Pairs of a key and a value in the order of the keys, and under each key in that of the values.
#[derive(Drop)]
pub(crate) struct Multimap<K: Ord, V: Ord> {
    pairs: Vec<(K, V)>,
}

impl<K: Ord, V: Ord> Model for Multimap<K, V> {
    ghost use Rattle.std.specs.Prelude.{List};
    ghost use Rattle.std.specs.List.Sorted.{IsSortedBy};
    ghost use Rattle.std.specs.Ordering.{is_lt, ordering_then};

    ghost Value = { List (K × V) };

    ghost view = { λ a. a.pairs.items };

    ghost invariant = { λ a.
        IsSortedBy (λ x y. is_lt (ordering_then (K.cmp x.0 y.0) (V.cmp x.1 y.1))) a.pairs.items };
}

impl<K: Ord + Drop, V: Ord + Drop> Multimap<K, V> {
    // Of equal pairs one is kept.
    pub(crate) fn new(pairs: Vec<(K, V)>) -> Multimap<K, V>
        ensures given { (x : K × V) → Contains result x → Contains pairs.items x }
        ensures kept { (x : K × V) → Contains pairs.items x
            → Any (λ (y : K × V). (K.eq x.0 y.0 && V.eq x.1 y.1) ≡ true) result }
    {
        Multimap {
            pairs: sorted_once(pairs),
        }
    }

    // All pairs, in their order.
    pub(crate) fn as_slice(&self) -> &[(K, V)]
        ensures pairs { result.now ≡ self.now }
        ensures rises { IsSortedBy (λ x y. is_lt (ordering_then (K.cmp x.0 y.0) (V.cmp x.1 y.1))) self.now }
    {
        self.pairs.as_slice()
    }

    // The pairs of a key, in the order of the values.
    pub(crate) fn get(&self, key: &K) -> &[(K, V)]
        ensures any { (p : K × V → Bool)
            → list_any p result.now ≡ list_any (λ (x : K × V). is_eq (K.cmp x.0 key.now) && p x) self.now }
        ensures given { (x : K × V) → Contains result.now x → Contains self.now x }
        ensures rises { IsSortedBy (λ x y. is_lt (V.cmp x.1 y.1)) result.now }
    {
        let pairs = self.pairs.as_slice();
        let first = pairs.partition_point(|pair| pair.0.cmp(key).is_lt());
        let rest = &pairs[first..];
        &rest[..end_of_key(rest, key)]
    }
}
