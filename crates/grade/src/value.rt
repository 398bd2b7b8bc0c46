// Digits, and whether a value has a LENGTH or is a NUMBER.
ghost use Rattle.std.specs.Prelude.{◌≡◌, ◌≤◌};
ghost use Rattle.grade.specs.Digits.{is_sign, digit_run, digit_at};
ghost use Rattle.grade.specs.Values.{has_length, is_unsigned, is_number};

use hl7::bytes::{after, byte_at, is_within, pick};

// ---- digits. These functions are total, so that whoever calls them has nothing to show.

pub(crate) fn is_sign(b: u8) -> bool
    ensures { result ≡ is_sign b }
{
    (b == b'+') | (b == b'-')
}

// How many digits a value begins with.
pub(crate) fn digit_run(v: &[u8]) -> usize
    ensures { result ≡ digit_run v.now }
{
    for (i, b) in v.iter().enumerate() {
        if !is_within(*b, b'0', b'9') {
            return i;
        }
    }
    v.len()
}

// What the digit at a place stands for; no byte is more than 207 past '0'.
pub(crate) fn digit_at(v: &[u8], at: usize) -> usize
    ensures { (result ≡ digit_at at v.now) × (result ≤ 207) }
{
    let b = byte_at(v, at);
    if b < b'0' {
        return 0;
    }
    usize::from(b - b'0')
}

// ---- LENGTH and NUMBER

pub(crate) fn has_length(v: &[u8], low: usize, high: usize) -> bool
    ensures { result ≡ has_length low high v.now }
{
    (low <= v.len()) & (v.len() <= high)
}

fn is_unsigned(v: &[u8]) -> bool
    ensures { result ≡ is_unsigned v.now }
{
    let mut points: usize = 0;
    for b in v {
        let point = *b == b'.';
        if !(is_within(*b, b'0', b'9') | point) {
            return false;
        }
        points += pick(point, 1, 0);
    }
    (points <= 1) & (points < v.len())
}

pub(crate) fn is_number(v: &[u8]) -> bool
    ensures { result ≡ is_number v.now }
{
    is_unsigned(after(v, pick(is_sign(byte_at(v, 0)), 1, 0)))
}
