// Rows 31 to 42: the text's bytes, and what one statement may be refused for by itself.
ghost use Rattle.std.specs.Prelude.{◌≡◌, cond, eqb, leb};
ghost use Rattle.hl7.specs.Bytes.{within};
ghost use Rattle.grade.specs.Encoding.{each, text_fits};
ghost use Rattle.booktext.specs.Faults.{may_stand, inside, count_right, version_right, key_right, codes_right, place_right, kind_right, severity_right, bound_right, fault_of, first_fault};
ghost use Rattle.booktext.specs.Refusals.{allowed, wrong_at, bytes_told};
ghost use Rattle.booktext.specs.Lines.{statements, of_codes, a_severity, a_bound, a_drop};
ghost use Rattle.booktext.specs.Standing.{words_from, statement_at, told_in, row_number, late_fault};

use crate::line::{count_words, line_of, next_word, part, skip_words, word_of};
use crate::statement::{is_head, next_line, next_statement, verb_at};
use crate::told::{Fault, Row};
use crate::word::{
    BOOK, BOUND, CODE, COMMON, DROP, SECTION, SET, SETS, SEVERITY, USE, before_bound, bound_fits,
    is_codes, is_place, is_placed, is_rule, is_severity_word, is_text, kind_number,
};
use hl7::bytes::{is_within, pick, same_bytes};

// The longest text, in bytes.
const TEXT_LIMIT: usize = 1048576;

// ---- bytes
fn is_allowed(x: u8) -> bool
    ensures { result ≡ allowed x }
{
    is_within(x, 32, 126) | (x == 9) | (x == 10) | (x == 13)
}

// Where the first byte stands that is not allowed.
fn wrong_at(t: &[u8]) -> usize
    ensures { result ≡ wrong_at t.now }
{
    t.iter().position(|x| !is_allowed(*x)).unwrap_or(t.len())
}

// Rows 31 and 32.
pub(crate) fn bytes_told(t: &[u8]) -> Result<(), Fault>
    ensures { told_in result ≡ bytes_told t.now }
{
    if TEXT_LIMIT < t.len() {
        return Err(Row::LongText.with(0));
    }
    let at = wrong_at(t);
    if at < t.len() {
        return Err(Row::WrongByte.with(line_of(t, at)));
    }
    Ok(())
}

// ---- one statement
fn may_stand(here: u8, verb: u8) -> bool
    ensures { result ≡ may_stand here verb }
{
    let placed = is_placed(verb) | is_codes(verb);
    let others = pick(placed, COMMON <= here, BOOK <= here);
    let inner = pick((verb == USE) | (verb == SETS), here == SECTION, others);
    pick(
        verb == BOOK,
        here == 0,
        pick(verb == CODE, here == SET, inner),
    )
}

// How many words there may be where a verb is no head, no use and no rule.
fn change_right(verb: u8, n: usize) -> bool
    ensures { result ≡ cond (eqb verb a_severity) (eqb n 4) (cond (eqb verb a_bound) (within 4 5 n) (cond (eqb verb a_drop) (eqb n 3) (cond (of_codes verb) (leb 3 n) (leb 2 n)))) }
{
    let codes = pick(is_codes(verb), 3 <= n, 2 <= n);
    let dropped = pick(verb == DROP, n == 3, codes);
    let bounded = pick(verb == BOUND, (4 <= n) & (n <= 5), dropped);
    pick(verb == SEVERITY, n == 4, bounded)
}

fn count_right(verb: u8, n: usize) -> bool
    ensures { result ≡ count_right verb n }
{
    let named = (verb == BOOK) | (verb == COMMON) | (verb == SECTION);
    let others = pick(named, n == 2, change_right(verb, n));
    let used = pick(verb == USE, (2 <= n) & (n <= 3), others);
    pick(is_rule(verb), (4 <= n) & (n <= 6), used)
}

fn version_right(verb: u8, w: &[u8]) -> bool
    ensures { result ≡ version_right verb w.now }
{
    (verb != BOOK) | same_bytes(w, b"1")
}

fn key_right(verb: u8, w: &[u8]) -> bool
    ensures { result ≡ key_right verb w.now }
{
    (verb != SECTION) | is_text(w)
}

// Whether the words from a position on are codes.
fn all_codes(t: &[u8], at: usize) -> bool
    ensures { result ≡ each (text_fits 20) (words_from t.now at) }
{
    let mut i = at;
    loop {
        let w = next_word(t, i);
        if w.end <= w.start {
            return true;
        }
        if !is_text(part(t, w)) {
            return false;
        }
        i = w.end;
    }
}

fn codes_right(t: &[u8], at: usize, verb: u8) -> bool
    ensures { result ≡ codes_right verb (words_from t.now at) }
{
    if verb == CODE {
        return all_codes(t, skip_words(t, at, 1));
    }
    if (verb == SET) | is_codes(verb) {
        return all_codes(t, skip_words(t, at, 2));
    }
    true
}

fn place_right(verb: u8, w: &[u8]) -> bool
    ensures { result ≡ place_right verb w.now }
{
    !is_placed(verb) | is_place(w)
}

fn kind_right(verb: u8, w: &[u8]) -> bool
    ensures { result ≡ kind_right verb w.now }
{
    !is_placed(verb) | (1 <= kind_number(w))
}

fn severity_right(verb: u8, n: usize, third: &[u8], fourth: &[u8]) -> bool
    ensures { result ≡ severity_right verb n third.now fourth.now }
{
    let of_use = (verb != USE) | (n <= 2) | is_severity_word(third);
    let fourth_word = is_rule(verb) | (verb == SEVERITY);
    pick(fourth_word, is_severity_word(fourth), of_use)
}

fn bound_right(verb: u8, n: usize, kind: &[u8], low: &[u8], high: &[u8]) -> bool
    ensures { result ≡ bound_right verb n kind.now low.now high.now }
{
    let count = n.saturating_sub(before_bound(verb));
    !(is_rule(verb) | (verb == BOUND)) | bound_fits(kind_number(kind), count, low, high)
}

// The first row of 38 to 42 that holds.
#[tactic(auto, unfolding(crate::specs::Standing::late_fault))]
fn late_fault(t: &[u8], at: usize, verb: u8, n: usize) -> Option<Row>
    ensures { row_number result ≡ late_fault verb n (words_from t.now at) }
{
    if !codes_right(t, at, verb) {
        return Some(Row::WrongCode);
    }
    if !place_right(verb, word_of(t, at, 1)) {
        return Some(Row::WrongPlace);
    }
    let kind = word_of(t, at, 2);
    if !kind_right(verb, kind) {
        return Some(Row::WrongKind);
    }
    if !severity_right(verb, n, kind, word_of(t, at, 3)) {
        return Some(Row::WrongSeverity);
    }
    let start = before_bound(verb);
    let low = word_of(t, at, start);
    let high = word_of(t, at, start + 1);
    if !bound_right(verb, n, kind, low, high) {
        return Some(Row::WrongBound);
    }
    None
}

// The first row of 33 to 42 that holds of a statement.
#[tactic(auto, unfolding(crate::specs::Faults::fault_of, crate::specs::Standing::late_fault))]
fn fault_of(t: &[u8], at: usize, here: u8) -> Option<Row>
    ensures { row_number result ≡ fault_of here (statement_at t.now at 0) }
{
    let verb = verb_at(t, at);
    if verb == 0 {
        return Some(Row::UnknownStatement);
    }
    if !may_stand(here, verb) {
        return Some(Row::Misplaced);
    }
    let n = count_words(t, at);
    if !count_right(verb, n) {
        return Some(Row::WordCount);
    }
    let first = word_of(t, at, 1);
    if !version_right(verb, first) {
        return Some(Row::WrongVersion);
    }
    if !key_right(verb, first) {
        return Some(Row::WrongKey);
    }
    late_fault(t, at, verb, n)
}

// The first statement that has one.
pub(crate) fn first_fault(t: &[u8]) -> Result<(), Fault>
    ensures { told_in result ≡ first_fault t.now 0 (statements t.now) }
{
    let mut here = 0;
    let mut at = next_statement(t, 0);
    while at <= t.len() {
        if let Some(row) = fault_of(t, at, here) {
            return Err(row.with(line_of(t, at)));
        }
        here = inside(here, verb_at(t, at));
        at = next_statement(t, next_line(t, at));
    }
    Ok(())
}

// Where the statement after one with a verb stands.
fn inside(here: u8, verb: u8) -> u8
    ensures { result ≡ inside here verb }
{
    if is_head(verb) { verb } else { here }
}
