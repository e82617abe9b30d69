//! The test that no two of several trees are equal, in a time that grows little faster than their number. No memory is
//! taken: their places are sorted in an array on the stack.
ghost use Rattle.std.specs.Prelude.{◌≡◌, ℕ, ◌<◌, ◌≤◌, ◌^◌, length, map, slice_index_or, take};
ghost use Rattle.std.specs.List.{list_any};
ghost use Rattle.std.specs.List.Sorted.{IsPermutation, IsSortedBy};
ghost use Rattle.std.specs.Ordering.{is_lt};
ghost use Rattle.doc_tree.specs.Lists.{elements_list};
ghost use Rattle.doc_tree.specs.Same.{same};
ghost use Rattle.doc_tree.specs.TreeView.{view, elements_view};
ghost use Rattle.schema_rules.specs.Assertions.{are_distinct};
ghost use Rattle.schema_rules.specs.Order.{doc_cmp, rise, at_place};

use crate::order::compare;
use doc_tree::Tree;
use std::cmp::Ordering;

/// Whether no two are equal.
pub(crate) fn are_distinct(items: &[Tree]) -> bool
    ensures { result ≡ are_distinct (elements_list (elements_view items.now)) }
{
    match items.split_first() {
        Some((first, _)) => if items.len() <= 16 {
            no_two_are_equal(items)
        } else {
            rise_sorted_in_tiers(items, first)
        },
        None => true,
    }
}

fn rise_sorted_in_tiers(items: &[Tree], first: &Tree) -> bool
    ensures { result ≡ are_distinct (elements_list (elements_view items.now)) }
{
    if items.len() <= 1_024 {
        rise_sorted_in::<1024>(items, first)
    } else if items.len() <= 16_384 {
        rise_sorted_in::<16384>(items, first)
    } else if items.len() <= 262_144 {
        rise_sorted_in::<262144>(items, first)
    } else {
        front_rises(items, first) && no_two_are_equal(items)
    }
}

// The first 262,144: a text of 1 MiB has no more elements that are distinct.
fn front_rises(items: &[Tree], first: &Tree) -> bool
    requires { 262144 ≤ length items.now }
    ensures { result ≡ are_distinct (elements_list (elements_view (take 262144 items.now))) }
{
    rise_sorted_in::<262144>(&items[..262_144], first)
}

// In an array of N places, and of no more than that: its size is the frame's.
#[inline(never)]
fn rise_sorted_in<const N: usize>(items: &[Tree], first: &Tree) -> bool
    requires room { length items.now ≤ N }
    requires short { N ≤ 2 ^ 18 }
    ensures { result ≡ are_distinct (elements_list (elements_view items.now)) }
{
    let mut places = [0u32; N];
    rise_sorted(items, first, &mut places[..items.len()])
}

// Sorts the places of all: equal ones come to be side by side.
fn rise_sorted(items: &[Tree], first: &Tree, places: &mut [u32]) -> bool
    requires as_many { length places.old ≡ length items.now }
    requires short { length items.now ≤ 2 ^ 18 }
    ensures { result ≡ are_distinct (elements_list (elements_view items.now)) }
{
    number(places);
    sort(items, first, places);
    rise(items, first, places)
}

// Each place at itself.
fn number(places: &mut [u32])
    requires { length places.old ≤ 2 ^ 18 }
    ensures len { length places.new ≡ length places.old }
    ensures each { (k : ℕ) → k < length places.old → slice_index_or places.new k 0 ≡ k }
{
    for place in 0..places.len() {
        places[place] = place as u32;
    }
}

fn sort(items: &[Tree], first: &Tree, places: &mut [u32])
    ensures permutation { IsPermutation places.old places.new }
    ensures sorted { IsSortedBy (λ i j. is_lt (doc_cmp (at_place (elements_list (elements_view items.now)) (view first.now) i)
        (at_place (elements_list (elements_view items.now)) (view first.now) j))) places.new }
{
    places.sort_unstable_by(|a, b| compare_at(items, first, *a, *b));
}

// Whether each comes before the next, in the order of their places.
fn rise(items: &[Tree], first: &Tree, places: &[u32]) -> bool
    ensures { result ≡ rise (map (at_place (elements_list (elements_view items.now)) (view first.now)) places.now) }
{
    let mut rest = places;
    'pairs: while let Some((place, others)) = rest.split_first() {
        if let Some(next) = others.first() {
            if compare_at(items, first, *place, *next).is_ge() {
                return false;
            }
        }
        rest = others;
    }
    true
}

// The order of the elements at these places.
fn compare_at(items: &[Tree], other: &Tree, a: u32, b: u32) -> Ordering
    ensures { result ≡ doc_cmp (at_place (elements_list (elements_view items.now)) (view other.now) a) (at_place (elements_list (elements_view items.now)) (view other.now) b) }
{
    compare(at(items, other, a), at(items, other, b))
}

// The element at that place, the other tree past the last.
fn at<'t>(items: &'t [Tree], other: &'t Tree, place: u32) -> &'t Tree
    ensures { view result.now ≡ at_place (elements_list (elements_view items.now)) (view other.now) place }
{
    match items.get(place as usize) {
        Some(item) => item,
        None => other,
    }
}

// Each with each.
fn no_two_are_equal(items: &[Tree]) -> bool
    ensures { result ≡ are_distinct (elements_list (elements_view items.now)) }
{
    let mut rest = items;
    'firsts: while let Some((first, others)) = rest.split_first() {
        if is_equal_to_another(first, others) {
            return false;
        }
        rest = others;
    }
    true
}

fn is_equal_to_another(item: &Tree, others: &[Tree]) -> bool
    ensures { result ≡ list_any (same (view item.now)) (elements_list (elements_view others.now)) }
{
    for other in others {
        if item.equals(other) {
            return true;
        }
    }
    false
}
