// Words of what a line says, from a position on. These functions are total, so that whoever calls them has nothing to show.
ghost use Rattle.std.specs.Prelude.{◌≡◌, [], ◌+◌, ◌≤◌, length, get_or, drop};
ghost use Rattle.booktext.specs.Lines.{blank, line_of};
ghost use Rattle.booktext.specs.Standing.{dark, run, words_from, span_bytes, NextWord};

use hl7::bytes::{after, front};
use hl7::cut::Span;

// Blank, tab or CR.
pub fn is_blank(x: u8) -> bool
    ensures { result ≡ blank x }
{
    (x == 32) | (x == 9) | (x == 13)
}

// Neither a blank nor LF nor the bar.
fn is_dark(x: u8) -> bool
    ensures { result ≡ dark x }
{
    !(is_blank(x) | ((x == 10) | (x == 124)))
}

// Where the blanks that begin at from end. By index: where one loop serves any test, or the library searches, a text of long blanks or of many words takes longer.
pub fn past_blanks(t: &[u8], from: usize) -> usize
    ensures { result ≡ from + length (run blank (drop from t.now)) }
{
    let mut i = from;
    while i < t.len() {
        if !is_blank(t[i]) {
            return i;
        }
        i += 1;
    }
    i
}

// Where the word that begins at from ends, likewise.
fn word_end(t: &[u8], from: usize) -> usize
    ensures { result ≡ from + length (run dark (drop from t.now)) }
{
    let mut i = from;
    while i < t.len() {
        if !is_dark(t[i]) {
            return i;
        }
        i += 1;
    }
    i
}

// The first word at a position or later.
pub fn next_word(t: &[u8], at: usize) -> Span
    ensures { NextWord t.now at result }
{
    let start = past_blanks(t, at);
    let end = word_end(t, start);
    Span { start, end }
}

// The bytes of a part; none where it ends before it starts.
pub fn part(t: &[u8], span: Span) -> &[u8]
    ensures { result.now ≡ span_bytes t.now span }
{
    if span.end < span.start {
        return front(t, 0);
    }
    front(after(t, span.start), span.end - span.start)
}

// Where the words after the first so many begin.
pub fn skip_words(t: &[u8], at: usize, count: usize) -> usize
    ensures { words_from t.now result ≡ drop count (words_from t.now at) }
{
    let mut i = at;
    for _ in 0..count {
        i = next_word(t, i).end;
    }
    i
}

// Word k, from 0; empty where there is none.
pub fn word_of(t: &[u8], at: usize, k: usize) -> &[u8]
    ensures { result.now ≡ get_or (words_from t.now at) k [] }
{
    part(t, next_word(t, skip_words(t, at, k)))
}

// How many words there are.
pub(crate) fn count_words(t: &[u8], at: usize) -> usize
    ensures { (result ≡ length (words_from t.now at)) × (result ≤ length t.now) }
{
    let mut i = at;
    let mut count = 0;
    loop {
        let w = next_word(t, i);
        if w.end <= w.start {
            return count;
        }
        i = w.end;
        count += 1;
    }
}

// The line of a position, from 1.
pub(crate) fn line_of(t: &[u8], at: usize) -> usize
    ensures { result ≡ line_of t.now at }
{
    1 + front(t, at).iter().filter(|x| **x == 10).count()
}
