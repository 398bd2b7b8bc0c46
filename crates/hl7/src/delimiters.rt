// Which five bytes a message may be cut by.
ghost use Rattle.std.specs.Prelude.{◌≡◌};
ghost use Rattle.hl7.specs.Bytes.{distinct, same};
ghost use Rattle.hl7.specs.Delimiters.{may_delimit, five_of, may_cut, opens};
ghost use Rattle.hl7.specs.Text.{bytes};

use crate::bytes::{begins_with, byte_at, is_within};
use crate::place::{Delims, delims_of};

// The standard five.
const STANDARD: Delims = Delims {
    bar: b'|',
    caret: b'^',
    tilde: b'~',
    backslash: b'\\',
    ampersand: b'&',
};

// Whether a byte may be a delimiter.
fn may_delimit(x: u8) -> bool
    ensures { result ≡ may_delimit x }
{
    let letter = x.is_ascii_alphabetic();
    let digit = x.is_ascii_digit();
    let other = (x == b' ') | (x == b'"') | (x == b'.') | (x == b'+') | (x == b'-') | (x == b'_');
    is_within(x, 32, 126) & !(letter | digit | other)
}

// Whether the five differ pairwise: ten comparisons, which loops over an array would not make plainer.
fn are_distinct(d: Delims) -> bool
    ensures { result ≡ distinct (five_of d) }
{
    let bar = (d.bar == d.caret)
        | (d.bar == d.tilde)
        | (d.bar == d.backslash)
        | (d.bar == d.ampersand);
    let caret = (d.caret == d.tilde) | (d.caret == d.backslash) | (d.caret == d.ampersand);
    let tilde = (d.tilde == d.backslash) | (d.tilde == d.ampersand);
    !bar & !caret & !tilde & !(d.backslash == d.ampersand)
}

// Whether they are the standard five.
pub fn is_standard(d: Delims) -> bool
    ensures { result ≡ same (five_of d) (bytes "|^~\\&") }
{
    d == STANDARD
}

// Whether a message may be cut by these five; the standard five, which nearly all have, are seen at once.
fn may_cut(d: Delims) -> bool
    ensures { result ≡ may_cut d }
{
    if is_standard(d) {
        return true;
    }
    may_delimit(d.bar)
        & may_delimit(d.caret)
        & may_delimit(d.tilde)
        & may_delimit(d.backslash)
        & may_delimit(d.ampersand)
        & are_distinct(d)
}

// Whether m begins with a name, five bytes that it may be cut by, and the first of them again.
pub fn opens_with(m: &[u8], name: &[u8]) -> bool
    ensures { result ≡ opens name.now m.now }
{
    let d = delims_of(m);
    begins_with(m, name) & may_cut(d) & (byte_at(m, 8) == d.bar)
}
