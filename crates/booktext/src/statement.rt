// The statements of a text, each by the position of its line, one after the other.
ghost use Rattle.std.specs.Prelude.{◌≡◌, ◌≤◌, ltb, length};
ghost use Rattle.hl7.specs.Bytes.{within};
ghost use Rattle.booktext.specs.Lines.{verb};
ghost use Rattle.booktext.specs.Meaning.{is_of, from};
ghost use Rattle.booktext.specs.Standing.{words_from, statement_at, next_line, left, body_from, Finds};

use crate::line::{next_word, word_of};
use crate::word::{BOOK, SECTION, verb_of};
use hl7::bytes::{is_within, same_bytes};
use hl7::cut::find_far;

// LF ends a line.
const LF: u8 = 10;

// The number of its verb, 0 for none.
pub fn verb_at(t: &[u8], at: usize) -> u8
    ensures { (result ≡ verb (statement_at t.now at 0)) × (result ≤ 14) }
{
    verb_of(word_of(t, at, 0))
}

// Where the next line begins.
pub fn next_line(t: &[u8], at: usize) -> usize
    requires { at ≤ length t.now }
    ensures { result ≡ next_line t.now at }
{
    find_far(t, LF, at) + 1
}

// Whether a line says something.
fn has_words(t: &[u8], at: usize) -> bool
    ensures { result ≡ ltb 0 (length (words_from t.now at)) }
{
    let first = next_word(t, at);
    first.start < first.end
}

// The first statement of the lines that begin at from or later.
pub fn next_statement(t: &[u8], from: usize) -> usize
    ensures { Finds t.now (left t.now from) (left t.now (next_line t.now result)) result }
{
    let mut at = from;
    while at <= t.len() {
        if has_words(t, at) {
            return at;
        }
        at = next_line(t, at);
    }
    at
}

// Whether a verb begins a part of the text.
pub(crate) fn is_head(verb: u8) -> bool
    ensures { result ≡ within 1 4 verb }
{
    is_within(verb, BOOK, SECTION)
}

// The first statement at from or later, up to the next head.
pub(crate) fn next_in_body(t: &[u8], from: usize) -> usize
    ensures { Finds t.now (body_from t.now from) (body_from t.now (next_line t.now result)) result }
{
    let at = next_statement(t, from);
    if t.len() < at {
        return at;
    }
    if is_head(verb_at(t, at)) {
        return t.len() + 1;
    }
    at
}

// Whether a statement has this verb and this name.
pub(crate) fn is_of(t: &[u8], at: usize, verb: u8, name: &[u8]) -> bool
    ensures { result ≡ is_of verb name.now (statement_at t.now at 0) }
{
    // most have another name
    if !same_bytes(word_of(t, at, 1), name) {
        return false;
    }
    verb_at(t, at) == verb
}

// The first statement at from or later with a verb and a name.
pub(crate) fn seek(t: &[u8], start: usize, verb: u8, name: &[u8]) -> usize
    ensures { Finds t.now (from verb name.now (left t.now start)) (left t.now (next_line t.now result)) result }
{
    let mut at = next_statement(t, start);
    while at <= t.len() {
        if is_of(t, at, verb, name) {
            return at;
        }
        at = next_statement(t, next_line(t, at));
    }
    at
}
