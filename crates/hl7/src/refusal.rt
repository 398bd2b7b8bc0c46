// Refusals 1 to 5, in the order in which they are tried.
ghost use Rattle.std.specs.Prelude.{◌≡◌};
ghost use Rattle.hl7.specs.Bytes.{all};
ghost use Rattle.hl7.specs.Cut.{cut};
ghost use Rattle.hl7.specs.Place.{carriage_return};
ghost use Rattle.hl7.specs.Refusals.{allowed, wrong_bytes, is_upper_or_digit, has_form, wrong_segments, form_rows, message_rows, first_row, first_of, reading_told, is_sound};

use crate::bytes::{byte_at, is_within};
use crate::cut::find_far;
use crate::delimiters::opens_with;
use crate::place::{Delims, delims_of};

const MESSAGE_LIMIT: usize = 32768;

// Which of refusals 1 to 5 a message meets, with the position where the paper gives one.
#[derive(Clone, Copy, Debug, PartialEq, Eq)]
pub enum Unreadable {
    Empty,
    TooLong,
    WrongByte(usize),
    NoHeader,
    WrongSegment(usize),
}

fn is_allowed(x: u8) -> bool
    ensures { result ≡ allowed x }
{
    is_within(x, 32, 126) | (x == b'\r')
}

// Whether every byte is allowed: no early exit, so that many bytes are looked at together.
fn all_allowed(m: &[u8]) -> bool
    ensures { result ≡ all allowed m.now }
{
    let mut every = true;
    for x in m {
        every &= is_allowed(*x);
    }
    every
}

// The first byte that is not allowed, one by one.
fn first_wrong_byte(m: &[u8]) -> Option<usize>
    ensures { result ≡ first_of (wrong_bytes 0 m.now) }
{
    m.iter().position(|x| !is_allowed(*x))
}

// The first byte that is not allowed; it is looked for only where there is one.
pub fn wrong_byte(m: &[u8]) -> Option<usize>
    ensures { result ≡ first_of (wrong_bytes 0 m.now) }
{
    if all_allowed(m) {
        return None;
    }
    first_wrong_byte(m)
}

fn is_upper_or_digit(x: u8) -> bool
    ensures { result ≡ is_upper_or_digit x }
{
    x.is_ascii_uppercase() | x.is_ascii_digit()
}

// Whether a segment, without its CR, has a segment's form.
fn has_form(d: Delims, seg: &[u8]) -> bool
    ensures { result ≡ has_form d seg.now }
{
    byte_at(seg, 0).is_ascii_uppercase()
        & is_upper_or_digit(byte_at(seg, 1))
        & is_upper_or_digit(byte_at(seg, 2))
        & ((seg.len() == 3) | (byte_at(seg, 3) == d.bar))
}

// Where the first segment of wrong form starts, or the last, if it has no CR.
pub fn wrong_segment(d: Delims, m: &[u8]) -> Option<usize>
    ensures { result ≡ first_of (wrong_segments d 0 (cut carriage_return m.now)) }
{
    // By position, and not by `split`: a CR is found block by block, and a segment without one is told.
    let mut at = 0;
    while at < m.len() {
        let end = find_far(m, b'\r', at);
        if end < m.len() {
            if !has_form(d, &m[at..end]) {
                return Some(at);
            }
            at = end + 1;
        } else {
            return Some(at);
        }
    }
    None
}

// Rows 4 and 5.
fn check_form(m: &[u8]) -> Result<(), Unreadable>
    ensures { reading_told result ≡ first_row (form_rows m.now) }
{
    if !opens_with(m, b"MSH") {
        return Err(Unreadable::NoHeader);
    }
    match wrong_segment(delims_of(m), m) {
        Some(start) => Err(Unreadable::WrongSegment(start)),
        None => Ok(()),
    }
}

// Whether a message can be read, or which of refusals 1 to 5 it meets.
pub fn check(m: &[u8]) -> Result<(), Unreadable>
    ensures { reading_told result ≡ first_row (message_rows m.now) }
{
    let n = m.len();
    if n == 0 {
        return Err(Unreadable::Empty);
    }
    if MESSAGE_LIMIT < n {
        return Err(Unreadable::TooLong);
    }
    match wrong_byte(m) {
        Some(at) => Err(Unreadable::WrongByte(at)),
        None => check_form(m),
    }
}

// Whether none of refusals 1 to 5 applies.
pub(crate) fn is_sound(m: &[u8]) -> bool
    ensures { result ≡ is_sound m.now }
{
    check(m).is_ok()
}
