// Rows 43 to 45: names that stand twice, names that are not there, and how many sections there are.
ghost use Rattle.std.specs.Prelude.{◌≡◌, true, cond, not, ◌&&◌, ◌≤◌, eqb, leb, length, IfOk};
ghost use Rattle.hl7.specs.Bytes.{within};
ghost use Rattle.grade.specs.Encoding.{each};
ghost use Rattle.booktext.specs.Lines.{verb, of_codes, statements};
ghost use Rattle.booktext.specs.Meaning.{from};
ghost use Rattle.booktext.specs.Contents.{meaning};
ghost use Rattle.booktext.specs.Faults.{before_bound};
ghost use Rattle.booktext.specs.Refusals.{is_first, is_there, is_set, names_set, lacks, name_fault, first_name_fault};
ghost use Rattle.booktext.specs.Standing.{words_from, statement_at, left, told_in, row_number, Heads};

use crate::heads::seek_head;
use crate::line::{line_of, next_word, part, skip_words, word_of};
use crate::statement::{next_line, next_statement, seek, verb_at};
use crate::told::{Fault, Row};
use crate::word::{
    BOUND, CODE_KIND, COMMON, SECTION, SET, SETS, USE, before_bound, is_codes, is_rule, kind_number,
};
use hl7::bytes::{is_within, pick};

// The most sections of a book.
const SECTION_LIMIT: usize = 64;

// Where a statement was found, 0 where it was not.
pub(crate) fn found_at(t: &[u8], found: usize) -> usize
    ensures { result ≡ cond (leb found (length t.now)) found 0 }
{
    pick(found <= t.len(), found, 0)
}

// Whether a statement is the first from a position on that has its verb and its name.
pub(crate) fn is_first(t: &[u8], start: usize, at: usize) -> bool
    ensures { result ≡ is_first (left t.now start) (statement_at t.now at 0) }
{
    found_at(t, seek(t, start, verb_at(t, at), word_of(t, at, 1))) == at
}

// Whether there is a head in the text with a verb and a name.
fn is_there(t: &[u8], heads: &[usize], rest: usize, verb: u8, name: &[u8]) -> bool
    requires { Heads t.now heads.now rest × (within 2 4 verb ≡ true) }
    ensures { result ≡ is_there (from verb name.now (statements t.now)) }
{
    seek_head(t, heads, rest, verb, name) <= t.len()
}

// Whether an earlier set, common or section has its name.
fn is_double(t: &[u8], heads: &[usize], rest: usize, at: usize) -> bool
    requires { Heads t.now heads.now rest }
    ensures { result ≡ (within 2 4 (verb (statement_at t.now at 0)) && not (is_first (statements t.now) (statement_at t.now at 0))) }
{
    let verb = verb_at(t, at);
    if is_within(verb, SET, SECTION) {
        return found_at(t, seek_head(t, heads, rest, verb, word_of(t, at, 1))) != at;
    }
    false
}

// Whether the words from a position on are names of sets.
fn are_sets(t: &[u8], heads: &[usize], rest: usize, at: usize) -> bool
    requires { Heads t.now heads.now rest }
    ensures { result ≡ each (is_set (statements t.now)) (words_from t.now at) }
{
    let mut i = at;
    loop {
        let w = next_word(t, i);
        if w.end <= w.start {
            return true;
        }
        if !is_there(t, heads, rest, SET, part(t, w)) {
            return false;
        }
        i = w.end;
    }
}

// Whether it names one set.
fn names_set(t: &[u8], at: usize) -> bool
    ensures { result ≡ names_set (statement_at t.now at 0) }
{
    let verb = verb_at(t, at);
    let bounded = is_rule(verb) | (verb == BOUND);
    is_codes(verb) | (bounded & (kind_number(word_of(t, at, 2)) == CODE_KIND))
}

// Which of its words that is.
fn set_word(verb: u8) -> usize
    ensures { result ≡ cond (of_codes verb) 1 (before_bound verb) }
{
    pick(is_codes(verb), 1, before_bound(verb))
}

// Whether it names a common or a set that there is not.
fn lacks_name(t: &[u8], heads: &[usize], rest: usize, at: usize) -> bool
    requires { Heads t.now heads.now rest }
    ensures { result ≡ lacks (statements t.now) (statement_at t.now at 0) }
{
    let verb = verb_at(t, at);
    if verb == USE {
        return !is_there(t, heads, rest, COMMON, word_of(t, at, 1));
    }
    if names_set(t, at) {
        return !is_there(t, heads, rest, SET, word_of(t, at, set_word(verb)));
    }
    if verb == SETS {
        return !are_sets(t, heads, rest, skip_words(t, at, 1));
    }
    false
}

// The first row that holds of a statement with so many sections before it.
fn name_fault(t: &[u8], heads: &[usize], rest: usize, at: usize, count: usize) -> Option<Row>
    requires { Heads t.now heads.now rest }
    ensures { row_number result ≡ name_fault (statements t.now) count (statement_at t.now at 0) }
{
    if is_double(t, heads, rest, at) {
        return Some(Row::NameTaken);
    }
    if (verb_at(t, at) == SECTION) & (SECTION_LIMIT <= count) {
        return Some(Row::SectionCount);
    }
    if lacks_name(t, heads, rest, at) {
        return Some(Row::UnknownName);
    }
    None
}

// The first statement that has one, or how many sections there are.
pub(crate) fn first_name_fault(t: &[u8], heads: &[usize], rest: usize) -> Result<usize, Fault>
    requires { Heads t.now heads.now rest }
    ensures told { told_in result ≡ first_name_fault t.now (statements t.now) 0 (statements t.now) }
    ensures sections { IfOk result (λ n. (n ≡ length (meaning t.now)) × (1 ≤ n) × (n ≤ 64)) }
{
    let mut sections = 0;
    let mut at = next_statement(t, 0);
    while at <= t.len() {
        if let Some(row) = name_fault(t, heads, rest, at, sections) {
            return Err(row.with(line_of(t, at)));
        }
        sections = pick(verb_at(t, at) == SECTION, sections + 1, sections);
        at = next_statement(t, next_line(t, at));
    }
    if sections == 0 {
        return Err(Row::SectionCount.with(0));
    }
    Ok(sections)
}
