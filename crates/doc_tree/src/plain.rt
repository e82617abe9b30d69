//! Bytes that a JSON string holds as they are (RFC 8259, section 7): all but quotes, backslashes and control characters.
//! Many are tested at a time.
ghost use Rattle.std.specs.Prelude.{◌≡◌, ◌+◌, ◌*◌, ◌≤◌, length};
ghost use Rattle.std.specs.Bool.{OnTrue};
ghost use Rattle.json.specs.Print.{escape};
ghost use Rattle.json.specs.Run.{is_stop};
ghost use Rattle.json.specs.Written.{PlainBetween};

use std::simd::prelude::*;

/// Whether each byte is written as it is.
pub(crate) fn is_plain(text: &[u8]) -> bool
    ensures { OnTrue result (escape text.now ≡ text.now) }
{
    are_plain(text)
}

fn are_plain(text: &[u8]) -> bool
    ensures { OnTrue result (PlainBetween text.now 0 (length text.now)) }
{
    let len = text.len();
    if len > 32 {
        are_many_plain(text)
    } else if len >= 16 {
        are_ends_plain::<16>(text)
    } else if len >= 8 {
        are_ends_plain::<8>(text)
    } else if len >= 4 {
        are_ends_plain::<4>(text)
    } else {
        are_few_plain(text)
    }
}

fn are_many_plain(text: &[u8]) -> bool
    requires { 32 ≤ length text.now }
    ensures { OnTrue result (PlainBetween text.now 0 (length text.now)) }
{
    let mut at = 0;
    while text.len() - at > 32 {
        if !are_plain_at::<32>(text, at) {
            return false;
        }
        at += 32;
    }
    are_plain_at::<32>(text, text.len() - 32)
}

// The first and the last N bytes, which may overlap, are all of them.
#[inline(always)]
fn are_ends_plain<const N: usize>(text: &[u8]) -> bool
    requires { (N ≤ 64) × (N ≤ length text.now) × (length text.now ≤ 2 * N) }
    ensures { OnTrue result (PlainBetween text.now 0 (length text.now)) }
{
    are_plain_at::<N>(text, 0) && are_plain_at::<N>(text, text.len() - N)
}

#[inline(always)]
fn are_plain_at<const N: usize>(text: &[u8], at: usize) -> bool
    requires { (N ≤ 64) × (at + N ≤ length text.now) }
    ensures { OnTrue result (PlainBetween text.now at (at + N)) }
{
    let lanes = Simd::<u8, N>::from_slice(&text[at..]);
    (lanes.simd_eq(Simd::splat(b'"'))
        | lanes.simd_eq(Simd::splat(b'\\'))
        | lanes.simd_lt(Simd::splat(0x20))).to_bitmask()
        == 0
}

fn are_few_plain(text: &[u8]) -> bool
    ensures { OnTrue result (PlainBetween text.now 0 (length text.now)) }
{
    for byte in text {
        if ends_plain(*byte) {
            return false;
        }
    }
    true
}

/// How many bytes come before the first that ends a text or takes an escape.
///
/// Only a bound is stated, since the quick reader states nothing.
pub(crate) fn plain_len(bytes: &[u8]) -> usize
    ensures { result ≤ length bytes.now }
{
    let mut at = 0;
    while bytes.len() - at >= 16 {
        let stops = stops_at::<16>(bytes, at);
        if stops != 0 {
            return bytes.len().min(at + stops.trailing_zeros() as usize);
        }
        at += 16;
    }
    plain_len_slowly(bytes, at)
}

// A bit for each of N bytes that ends a text or takes an escape.
#[inline(always)]
fn stops_at<const N: usize>(bytes: &[u8], at: usize) -> u64
    requires { (N ≤ 64) × (at + N ≤ length bytes.now) }
{
    let bytes = Simd::<u8, N>::from_slice(&bytes[at..]);
    (bytes.simd_eq(Simd::splat(b'"'))
        | bytes.simd_eq(Simd::splat(b'\\'))
        | bytes.simd_lt(Simd::splat(0x20))).to_bitmask()
}

fn plain_len_slowly(bytes: &[u8], from: usize) -> usize
    requires { from ≤ length bytes.now }
    ensures { result ≤ length bytes.now }
{
    let mut at = from;
    while at < bytes.len() && !ends_plain(bytes[at]) {
        at += 1;
    }
    at
}

// Whether the byte ends a text, or is written with an escape.
#[inline]
fn ends_plain(byte: u8) -> bool
    ensures { result ≡ is_stop byte }
{
    byte == b'"' || byte == b'\\' || byte < 0x20
}
