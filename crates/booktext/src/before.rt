// Rows 47 to 49: what stands in a section before a statement.
ghost use Rattle.std.specs.Prelude.{◌≡◌, cond, not, ◌&&◌, ◌||◌, List, [], ◌∷◌, map, ℕ, ◌<◌, eqb, length, get_or, take, drop};
ghost use Rattle.hl7.specs.Bytes.{same, among};
ghost use Rattle.grade.specs.Encoding.{each};
ghost use Rattle.booktext.specs.Lines.{statements, word, line_of, says, a_rule, a_drop, a_more, a_less};
ghost use Rattle.booktext.specs.Changes.{says_of, names_code};
ghost use Rattle.booktext.specs.Contents.{listed, codes_of};
ghost use Rattle.booktext.specs.Refusals.{stands, has_code, code_asked, rule_fault, first_rule_fault};
ghost use Rattle.booktext.specs.Standing.{words_from, statement_at, body_from, Heads, told_in, row_number, noted, no_cell, Marked, Marks, rules_it};

use crate::cell::SmallCell;
use crate::heads::seek_head;
use crate::line::{line_of, next_word, part, skip_words, word_of};
use crate::statement::{next_in_body, next_line, verb_at};
use crate::told::{Fault, Row};
use crate::word::{CODE, DROP, LESS, MORE, RULE, SET, is_codes, is_placed, is_rule};
use hl7::bytes::{pick, same_bytes};

// ---- rules
// Whether a rule of this place and kind stands after the statement of a cell, where one stood or did not before.
fn stands_after(so: bool, cell: SmallCell, spot: usize) -> bool
    ensures { (t : List ℕ) → Marked t cell → result ≡ (rules_it spot (noted t cell) || (not (says_of a_drop spot (noted t cell)) && so)) }
{
    let ruled = is_rule(cell.verb) & (cell.spot as usize == spot);
    ruled | (!cell.says_of(DROP, spot) & so)
}

// Whether one stands after the statements in the cells.
fn is_standing(cells: &[SmallCell], spot: usize) -> bool
    ensures { (t : List ℕ) → Marks t cells.now → result ≡ stands spot (map (noted t) cells.now) }
{
    let mut so = false;
    for &cell in cells {
        so = stands_after(so, cell, spot);
    }
    so
}

// ---- codes
// Whether a code is among the words from a position on.
fn has_word(t: &[u8], at: usize, code: &[u8]) -> bool
    ensures { result ≡ among code.now (words_from t.now at) }
{
    let mut i = at;
    loop {
        let w = next_word(t, i);
        if w.end <= w.start {
            return false;
        }
        if same_bytes(code, part(t, w)) {
            return true;
        }
        i = w.end;
    }
}

// Whether a line has it, where it is a code line.
fn lists_code(t: &[u8], at: usize, code: &[u8]) -> bool
    ensures { result ≡ among code.now (listed (statement_at t.now at 0 ∷ [])) }
{
    if verb_at(t, at) == CODE {
        return has_word(t, skip_words(t, at, 1), code);
    }
    false
}

// Whether the code lines that begin at start have it.
fn is_listed(t: &[u8], start: usize, code: &[u8]) -> bool
    ensures { result ≡ among code.now (listed (body_from t.now start)) }
{
    let mut at = next_in_body(t, start);
    while at <= t.len() {
        if lists_code(t, at, code) {
            return true;
        }
        at = next_in_body(t, next_line(t, at));
    }
    false
}

// Whether the set with a name has it in the text.
fn has_own(t: &[u8], heads: &[usize], rest: usize, name: &[u8], code: &[u8]) -> bool
    requires { Heads t.now heads.now rest }
    ensures { result ≡ among code.now (codes_of (statements t.now) name.now) }
{
    let line = seek_head(t, heads, rest, SET, name);
    if t.len() < line {
        return false;
    }
    if has_word(t, skip_words(t, line, 2), code) {
        return true;
    }
    is_listed(t, next_line(t, line), code)
}

// Whether a line names a set, and after it a code.
pub(crate) fn names_code(t: &[u8], at: usize, name: &[u8], code: &[u8]) -> bool
    ensures { result ≡ (same (word (statement_at t.now at 0) 1) name.now && among code.now (drop 2 (words_from t.now at))) }
{
    if !same_bytes(word_of(t, at, 1), name) {
        return false;
    }
    has_word(t, skip_words(t, at, 2), code)
}

// Whether a set has a code after the statement of a cell, where it had it or not before.
fn has_after(t: &[u8], so: bool, cell: SmallCell, name: &[u8], code: &[u8]) -> bool
    requires { Marked t.now cell }
    ensures { result ≡ (names_code a_more name.now code.now (noted t.now cell) || (not (names_code a_less name.now code.now (noted t.now cell)) && so)) }
{
    if !is_codes(cell.verb) {
        return so;
    }
    if names_code(t, cell.line as usize, name, code) {
        return cell.verb == MORE;
    }
    so
}

// Whether the set with a name has a code after the statements in the cells.
fn has_code(
    t: &[u8],
    heads: &[usize],
    rest: usize,
    cells: &[SmallCell],
    name: &[u8],
    code: &[u8],
) -> bool
    requires { Heads t.now heads.now rest × Marks t.now cells.now }
    ensures { result ≡ has_code (statements t.now) (map (noted t.now) cells.now) name.now code.now }
{
    let mut so = has_own(t, heads, rest, name, code);
    for &cell in cells {
        so = has_after(t, so, cell, name, code);
    }
    so
}

// Whether the set has, or has not, every code that a `less`, or a `more`, names.
fn codes_asked(
    t: &[u8],
    heads: &[usize],
    rest: usize,
    cells: &[SmallCell],
    at: usize,
    less: bool,
) -> bool
    requires { Heads t.now heads.now rest × Marks t.now cells.now × (less ≡ says a_less (statement_at t.now at 0)) }
    ensures { result ≡ each (code_asked (statements t.now) (map (noted t.now) cells.now) (statement_at t.now at 0)) (drop 2 (words_from t.now at)) }
{
    let name = word_of(t, at, 1);
    let mut i = skip_words(t, at, 2);
    loop {
        let w = next_word(t, i);
        if w.end <= w.start {
            return true;
        }
        let has = has_code(t, heads, rest, cells, name, part(t, w));
        if !pick(less, has, !has) {
            return false;
        }
        i = w.end;
    }
}

// ---- the rows
// Of a statement that speaks of a place and kind, where a rule of them stands or not.
fn place_fault(verb: u8, stands: bool) -> Option<Row>
    ensures { row_number result ≡ cond (eqb verb a_rule && stands) 47 (cond (not (eqb verb a_rule) && not stands) 48 0) }
{
    match (verb == RULE, stands) {
        (true, true) => Some(Row::RuleStands),
        (false, false) => Some(Row::NoRule),
        _ => None,
    }
}

// The row that holds of statement i after those before it.
fn rule_fault(t: &[u8], heads: &[usize], rest: usize, cells: &[SmallCell], i: usize) -> Option<Row>
    requires { Heads t.now heads.now rest × Marks t.now cells.now × (i < length cells.now) }
    ensures { row_number result ≡ rule_fault (statements t.now) (map (noted t.now) (take i cells.now)) (noted t.now (get_or cells.now i no_cell)) }
{
    let cell = cells[i];
    let earlier = &cells[..i];
    if is_placed(cell.verb) {
        return place_fault(cell.verb, is_standing(earlier, cell.spot as usize));
    }
    if !is_codes(cell.verb) {
        return None;
    }
    let line = cell.line as usize;
    if !codes_asked(t, heads, rest, earlier, line, cell.verb == LESS) {
        return Some(Row::WrongChange);
    }
    None
}

// The first statement that has one, in a section with a head.
pub(crate) fn first_rule_fault(
    t: &[u8],
    heads: &[usize],
    rest: usize,
    head: usize,
    cells: &[SmallCell],
) -> Result<(), Fault>
    requires { Heads t.now heads.now rest × Marks t.now cells.now }
    ensures { told_in result ≡ first_rule_fault t.now (statements t.now) (line_of t.now head) [] (map (noted t.now) cells.now) }
{
    for i in 0..cells.len() {
        if let Some(row) = rule_fault(t, heads, rest, cells, i) {
            return Err(row.in_section(line_of(t, cells[i].line as usize), line_of(t, head)));
        }
    }
    Ok(())
}
