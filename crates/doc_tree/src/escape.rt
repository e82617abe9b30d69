//! The escapes of a JSON string (RFC 8259, section 7), written after what a buffer holds.
ghost use Rattle.std.specs.Char.{digit_char};
ghost use Rattle.std.specs.Prelude.{◌≡◌, ◌<◌, ◌≤◌, ◌++◌, length, take, IfOk, OnOk};
ghost use Rattle.json.specs.Print.{escape, escape_byte, escape_letter};

use crate::plain::{is_plain, plain_len};
use std::alloc::AllocError;

/// Adds the bytes to others, with an escape for each byte that takes one.
#[inline(never)]
pub(crate) fn put_escaped(text: &[u8], out: &mut Vec<u8>) -> Result<(), AllocError>
    ensures { OnOk result (out.new.items ≡ out.old.items ++ escape text.now) }
{
    let mut rest = text;
    'parts: while !rest.is_empty() {
        let done = put_some(rest, out)?;
        let (_, left) = rest.split_at(done);
        rest = left;
    }
    Ok(())
}

// Adds the first of the bytes: those that take no escape, or else one. Answers how many.
fn put_some(text: &[u8], out: &mut Vec<u8>) -> Result<usize, AllocError>
    requires { 0 < length text.now }
    ensures some { IfOk result (λ n. (0 < n) × (n ≤ length text.now)) }
    ensures text { IfOk result (λ n. out.new.items ≡ out.old.items ++ escape (take n text.now)) }
{
    let plain = plain_len(text);
    if plain > 0 && is_plain(&text[..plain]) {
        out.extend_from_slice(&text[..plain])?;
        return Ok(plain);
    }
    put_byte(text[0], out)?;
    Ok(1)
}

#[tactic(auto, unfolding(json::specs::Print::escape_byte))]
fn put_byte(byte: u8, out: &mut Vec<u8>) -> Result<(), AllocError>
    ensures { OnOk result (out.new.items ≡ out.old.items ++ escape_byte byte) }
{
    let letter = letter(byte);
    if letter > 0 {
        return out.extend_from_slice(&[b'\\', letter]);
    }
    if byte < 0x20 {
        return out.extend_from_slice(&[
            b'\\',
            b'u',
            b'0',
            b'0',
            digit(byte / 16),
            digit(byte % 16),
        ]);
    }
    out.extend_from_slice(&[byte])
}

// The letter of the byte's short escape, or 0.
fn letter(byte: u8) -> u8
    ensures { result ≡ escape_letter byte }
{
    match byte {
        b'"' | b'\\' => byte,
        8 => b'b',
        9 => b't',
        10 => b'n',
        12 => b'f',
        13 => b'r',
        _ => 0,
    }
}

fn digit(value: u8) -> u8
    requires { value < 16 }
    ensures { result ≡ digit_char value }
{
    if value < 10 {
        b'0' + value
    } else {
        b'a' - 10 + value
    }
}
