// Verbs, numbers, places, kinds, severities and bounds as words. Every word is read.
ghost use Rattle.std.specs.Prelude.{◌≡◌, cond, ◌-◌, ◌≤◌, drop};
ghost use Rattle.hl7.specs.Bytes.{all};
ghost use Rattle.grade.specs.Book.{plain};
ghost use Rattle.grade.specs.Encoding.{text_fits};
ghost use Rattle.grade.specs.Rule.{severity_of};
ghost use Rattle.booktext.specs.Faults.{before_bound};
ghost use Rattle.booktext.specs.Lines.{number_from, verbs, verb_of, of_rule, of_place, of_codes};
ghost use Rattle.booktext.specs.Words.{number_in, place_in, is_place, is_severity, is_severity_word, kind_number, bound_fits};

use grade::rule::{Place, name_of_letters, place_fits, time_digits};
use hl7::bytes::{after, byte_at, front, is_within, pick, same_bytes};
use hl7::cut::find;
use hl7::number::read_digits;

pub(crate) const BOOK: u8 = 1;

pub(crate) const SET: u8 = 2;

pub(crate) const COMMON: u8 = 3;

pub const SECTION: u8 = 4;

pub(crate) const CODE: u8 = 5;

pub(crate) const USE: u8 = 6;

pub(crate) const SETS: u8 = 7;

pub(crate) const RULE: u8 = 8;

pub(crate) const ALSO: u8 = 9;

pub const SEVERITY: u8 = 10;

pub const BOUND: u8 = 11;

pub(crate) const DROP: u8 = 12;

pub(crate) const MORE: u8 = 13;

pub(crate) const LESS: u8 = 14;

pub(crate) const LENGTH_KIND: u8 = 2;

pub(crate) const TIME_KIND: u8 = 5;

pub(crate) const CODE_KIND: u8 = 6;

// ---- names
// The number of a verb that changes rules or sets, 0 for any other word.
fn change_of(w: &[u8]) -> u8
    ensures { result ≡ number_from 10 w.now (drop 9 verbs) }
{
    let codes = pick(
        same_bytes(w, b"more"),
        MORE,
        pick(same_bytes(w, b"less"), LESS, 0),
    );
    let rules = pick(
        same_bytes(w, b"bound"),
        BOUND,
        pick(same_bytes(w, b"drop"), DROP, codes),
    );
    pick(same_bytes(w, b"severity"), SEVERITY, rules)
}

// The number of a verb, 0 for any other word.
pub(crate) fn verb_of(w: &[u8]) -> u8
    ensures { (result ≡ verb_of w.now) × (result ≤ 14) }
{
    let later = pick(
        same_bytes(w, b"rule"),
        RULE,
        pick(same_bytes(w, b"also"), ALSO, change_of(w)),
    );
    let inner = pick(
        same_bytes(w, b"code"),
        CODE,
        pick(
            same_bytes(w, b"use"),
            USE,
            pick(same_bytes(w, b"sets"), SETS, later),
        ),
    );
    let heads = pick(
        same_bytes(w, b"common"),
        COMMON,
        pick(same_bytes(w, b"section"), SECTION, inner),
    );
    pick(
        same_bytes(w, b"book"),
        BOOK,
        pick(same_bytes(w, b"set"), SET, heads),
    )
}

// The number of a kind, 0 for any other word.
pub(crate) fn kind_number(w: &[u8]) -> u8
    ensures { (result ≡ kind_number w.now) × (result ≤ 6) }
{
    let later = pick(
        same_bytes(w, b"DATE"),
        4,
        pick(
            same_bytes(w, b"TIME"),
            TIME_KIND,
            pick(same_bytes(w, b"CODE"), CODE_KIND, 0),
        ),
    );
    let all = pick(
        same_bytes(w, b"LENGTH"),
        LENGTH_KIND,
        pick(same_bytes(w, b"NUMBER"), 3, later),
    );
    pick(same_bytes(w, b"REQUIRED"), 1, all)
}

// Whether a verb makes a rule.
pub fn is_rule(verb: u8) -> bool
    ensures { result ≡ of_rule verb }
{
    (verb == RULE) | (verb == ALSO)
}

// Whether one speaks of a place and a kind.
pub(crate) fn is_placed(verb: u8) -> bool
    ensures { result ≡ of_place verb }
{
    is_within(verb, RULE, DROP)
}

// Whether one changes the codes of a set.
pub(crate) fn is_codes(verb: u8) -> bool
    ensures { result ≡ of_codes verb }
{
    (verb == MORE) | (verb == LESS)
}

// How many words stand before a bound.
pub(crate) fn before_bound(verb: u8) -> usize
    ensures { (result ≡ before_bound verb) × (result ≤ 4) }
{
    pick(verb == BOUND, 3, 4)
}

// ---- keys and codes
fn is_plain(x: u8) -> bool
    ensures { result ≡ plain x }
{
    is_within(x, 0x21, 0x7E) & (x != b'|') & (x != b'^') & (x != b'~') & (x != b'\\') & (x != b'&')
}

// Whether every byte of a word is plain.
fn all_plain(w: &[u8]) -> bool
    ensures { result ≡ all plain w.now }
{
    let mut plain = true;
    for x in w {
        plain &= is_plain(*x);
    }
    plain
}

// Whether a word is a key or a code.
pub(crate) fn is_text(w: &[u8]) -> bool
    ensures { result ≡ text_fits 20 w.now }
{
    (1 <= w.len()) & (w.len() <= 20) & all_plain(w)
}

// ---- numbers
// What a word stands for as a number, 0 where it is none.
pub(crate) fn number_in(w: &[u8]) -> u8
    ensures { result ≡ number_in w.now }
{
    let read = read_digits(w);
    let fits = (1 <= w.len())
        & (w.len() <= 3)
        & read.all
        & (byte_at(w, 0) != b'0')
        & (read.value <= 255);
    if fits { read.value as u8 } else { 0 }
}

// ---- places
// The place that a word names; one that fits no book where it names none.
pub(crate) fn place_in(w: &[u8]) -> Place
    ensures { result ≡ place_in w.now }
{
    let numbers = after(w, 4);
    let point = find(numbers, b'.', 0);
    let field = number_in(front(numbers, point));
    let segment = name_of_letters(byte_at(w, 0), byte_at(w, 1), byte_at(w, 2));
    if point < numbers.len() {
        return Place {
            segment,
            field,
            component: number_in(after(numbers, point + 1)),
        };
    }
    Place {
        segment,
        field,
        component: 0,
    }
}

// Whether a word is a place.
pub(crate) fn is_place(w: &[u8]) -> bool
    ensures { result ≡ is_place w.now }
{
    let place = place_in(w);
    let numbers = after(w, 4);
    let pointed = find(numbers, b'.', 0) < numbers.len();
    (byte_at(w, 3) == b'-') & (!pointed | (1 <= place.component)) & place_fits(place)
}

// ---- severities and bounds
fn is_severity(letter: u8) -> bool
    ensures { result ≡ is_severity (severity_of letter) }
{
    (letter == b'E') | (letter == b'W') | (letter == b'I')
}

// Whether a word is a severity.
pub(crate) fn is_severity_word(w: &[u8]) -> bool
    ensures { result ≡ is_severity_word w.now }
{
    (w.len() == 1) & is_severity(byte_at(w, 0))
}

// Whether so many words of a bound, the first two of which are these, fit a kind.
pub(crate) fn bound_fits(kind: u8, count: usize, low: &[u8], high: &[u8]) -> bool
    ensures { result ≡ bound_fits kind count low.now high.now }
{
    let least = number_in(low);
    let long = (count == 2) & is_within(least, 1, number_in(high));
    let timed = (count == 1) & time_digits(least);
    let others = pick(kind == CODE_KIND, count == 1, count == 0);
    pick(
        kind == LENGTH_KIND,
        long,
        pick(kind == TIME_KIND, timed, others),
    )
}
