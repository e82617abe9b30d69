//! The equality of bytes, many of which are compared at a time.
ghost use Rattle.std.specs.Prelude.{◌≡◌, ◌+◌, ◌*◌, ◌≤◌, length};
ghost use Rattle.std.specs.Bool.{OnTrue};
ghost use Rattle.doc_tree.specs.Spans.{SameBetween};

use std::simd::prelude::*;

/// Whether the two are the same bytes.
pub(crate) fn is_same(a: &[u8], b: &[u8]) -> bool
    requires { length a.now ≡ length b.now }
    ensures { OnTrue result (a.now ≡ b.now) }
{
    are_same(a, b)
}

fn are_same(a: &[u8], b: &[u8]) -> bool
    requires { length a.now ≡ length b.now }
    ensures { OnTrue result (SameBetween a.now b.now 0 (length a.now)) }
{
    let len = a.len();
    if len > 32 {
        are_many_same(a, b)
    } else if len >= 16 {
        are_ends_same::<16>(a, b)
    } else if len >= 8 {
        are_ends_same::<8>(a, b)
    } else if len >= 4 {
        are_ends_same::<4>(a, b)
    } else {
        are_few_same(a, b)
    }
}

fn are_many_same(a: &[u8], b: &[u8]) -> bool
    requires { (32 ≤ length a.now) × (length a.now ≡ length b.now) }
    ensures { OnTrue result (SameBetween a.now b.now 0 (length a.now)) }
{
    let mut at = 0;
    while a.len() - at > 32 {
        if !are_same_at::<32>(a, b, at) {
            return false;
        }
        at += 32;
    }
    are_same_at::<32>(a, b, a.len() - 32)
}

// The first and the last N bytes, which may overlap, are all of them.
#[inline(always)]
fn are_ends_same<const N: usize>(a: &[u8], b: &[u8]) -> bool
    requires { (N ≤ 64) × (N ≤ length a.now) × (length a.now ≤ 2 * N) × (length a.now ≡ length b.now) }
    ensures { OnTrue result (SameBetween a.now b.now 0 (length a.now)) }
{
    are_same_at::<N>(a, b, 0) && are_same_at::<N>(a, b, a.len() - N)
}

#[inline(always)]
fn are_same_at<const N: usize>(a: &[u8], b: &[u8], at: usize) -> bool
    requires { (N ≤ 64) × (at + N ≤ length a.now) × (at + N ≤ length b.now) }
    ensures { OnTrue result (SameBetween a.now b.now at (at + N)) }
{
    Simd::<u8, N>::from_slice(&a[at..])
        .simd_ne(Simd::from_slice(&b[at..]))
        .to_bitmask()
        == 0
}

fn are_few_same(a: &[u8], b: &[u8]) -> bool
    requires { length a.now ≡ length b.now }
    ensures { OnTrue result (SameBetween a.now b.now 0 (length a.now)) }
{
    for at in 0..a.len() {
        if a[at] != b[at] {
            return false;
        }
    }
    true
}
