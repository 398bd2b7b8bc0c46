// Walks over the bytes of a book: each answers where what stands at a position ends.
ghost use Rattle.std.specs.Prelude.{◌≡◌, ◌+◌, ◌*◌, ◌≤◌, length};
ghost use Rattle.hl7.specs.Bytes.{all};
ghost use Rattle.grade.specs.Reader.{pair, times};
ghost use Rattle.grade.specs.Standing.{end_of, text_end, text_at, TextFits};
ghost use Rattle.grade.specs.Book.{plain, text, code_set, rule_in, section};
ghost use Rattle.grade.specs.Limits.{code_limit};

use crate::limits::{CODE_COUNT_LIMIT, CODE_LIMIT, KEY_LIMIT, RULE_LIMIT, RULE_SIZE, SET_LIMIT};
use crate::plain::PLAIN;
use crate::rule::rule_stands;

// Where a section's rules and sets stand. The book goes beside it, as the definitions under the theorems have the two apart (`Holds`).
#[derive(Clone, Copy)]
pub struct Section {
    pub rules_at: usize,
    pub rule_count: usize,
    pub sets_at: usize,
    pub set_count: u8,
}

// Two bytes, the high one first.
pub fn pair_at(book: &[u8], at: usize) -> usize
    requires { at + 2 ≤ length book.now }
    ensures { result ≡ pair book.now at }
{
    usize::from(book[at]) * 256 + usize::from(book[at + 1])
}

// Whether every byte is plain: by a table, and with no early exit, which would cost more than it saves.
fn all_plain(letters: &[u8]) -> bool
    ensures { result ≡ all plain letters.now }
{
    let mut every = true;
    for x in letters {
        every = every & PLAIN[usize::from(*x)];
    }
    every
}

// The text whose length byte stands at a position. That it fits is asked for: a type that holds it would be book and position again, made by every caller.
pub fn text_part(book: &[u8], at: usize) -> &[u8]
    requires { TextFits book.now at }
    ensures { result.now ≡ text_at book.now at }
{
    &book[at + 1..text_after(book, at)]
}

// Where that text ends.
pub fn text_after(book: &[u8], at: usize) -> usize
    requires { TextFits book.now at }
    ensures { result ≡ text_end book.now at }
{
    at + 1 + usize::from(book[at])
}

// A key or a code: a length byte, and as many plain bytes.
fn text_end(book: &[u8], at: usize, limit: usize) -> Option<usize>
    ensures { result ≡ end_of (text limit book.now at) }
{
    let size = usize::from(*book.get(at)?);
    if !((1 <= size) & (size <= limit)) {
        return None;
    }
    if book.len() - at <= size {
        return None;
    }
    all_plain(text_part(book, at)).then_some(text_after(book, at))
}

fn codes_end(book: &[u8], at: usize, count: usize) -> Option<usize>
    ensures { result ≡ end_of (times count (text code_limit) book.now at) }
{
    (0..count).try_fold(at, |from, _| text_end(book, from, CODE_LIMIT))
}

fn rule_end(book: &[u8], at: usize, sets: u8) -> Option<usize>
    ensures { result ≡ end_of (rule_in sets book.now at) }
{
    if book.len().saturating_sub(at) < RULE_SIZE {
        return None;
    }
    rule_stands(book, at, sets).then_some(at + RULE_SIZE)
}

fn rules_end(book: &[u8], at: usize, count: usize, sets: u8) -> Option<usize>
    ensures { result ≡ end_of (times count (rule_in sets) book.now at) }
{
    (0..count).try_fold(at, |from, _| rule_end(book, from, sets))
}

fn set_end(book: &[u8], at: usize) -> Option<usize>
    ensures { result ≡ end_of (code_set book.now at) }
{
    if book.len().saturating_sub(at) < 2 {
        return None;
    }
    let count = pair_at(book, at);
    if !((1 <= count) & (count <= CODE_COUNT_LIMIT)) {
        return None;
    }
    codes_end(book, at + 2, count)
}

fn sets_end(book: &[u8], at: usize, count: usize) -> Option<usize>
    ensures { result ≡ end_of (times count code_set book.now at) }
{
    (0..count).try_fold(at, |from, _| set_end(book, from))
}

// A section, checked whole.
pub(crate) fn section_end(book: &[u8], at: usize) -> Option<usize>
    ensures { result ≡ end_of (section book.now at) }
{
    let counts = text_end(book, at, KEY_LIMIT)?;
    if book.len() - counts < 3 {
        return None;
    }
    let rule_count = pair_at(book, counts);
    let set_count = book[counts + 2];
    if !((rule_count <= RULE_LIMIT) & (set_count <= SET_LIMIT)) {
        return None;
    }
    let sets_at = rules_end(book, counts + 3, rule_count, set_count)?;
    sets_end(book, sets_at, usize::from(set_count))
}
