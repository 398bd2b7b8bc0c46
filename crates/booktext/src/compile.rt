// A text made into a book.
ghost use Rattle.std.specs.Prelude.{◌≡◌, true, cond, List, [], ◌∷◌, ◌++◌, map, ◌≤◌, ◌<◌, length, get_or};
ghost use Rattle.grade.specs.Encoding.{each, spell_all, text_bytes, two_bytes_of, rule_bytes, section_bytes, book_bytes};
ghost use Rattle.grade.specs.Limits.{book_limit};
ghost use Rattle.ack.specs.Splice.{Wrote};
ghost use Rattle.booktext.specs.Lines.{Statement, statements, says, line_of, text_limit, a_section};
ghost use Rattle.booktext.specs.Changes.{settled};
ghost use Rattle.booktext.specs.Contents.{rules_of, contents_of, section_of, sections_in, meaning};
ghost use Rattle.booktext.specs.Faults.{tell, nothing, firstly, number_of, told_by, told_of};
ghost use Rattle.booktext.specs.Refusals.{statement_limit, first_rule_fault, sizes_told, section_told, sections_told, named_told, refusal, compile_of};
ghost use Rattle.booktext.specs.Standing.{words_from, statement_at, next_line, left, sound, ready, noted, Marks, names_in, Puts, Heads, MakesBy};

use crate::before::first_rule_fault;
use crate::cell::{NO_SMALL_CELL, SmallCell};
use crate::change::settle;
use crate::fault::{bytes_told, first_fault};
use crate::heads::{HEAD_LIMIT, note_heads};
use crate::line::{line_of, word_of};
use crate::names::Names;
use crate::refer::first_name_fault;
use crate::rules::{count_rules, put_rules};
use crate::section::{STATEMENT_LIMIT, note_section, used_twice};
use crate::sets::{first_stray, put_sets, put_text, put_two};
use crate::statement::{next_line, next_statement, verb_at};
use crate::told::{Fault, Row, Told};
use crate::word::SECTION;
use ack::output::{put, put_byte};
use grade::limits::{BOOK_LIMIT, RULE_LIMIT};

// One that is told with the line of the section's own head.
fn over(t: &[u8], row: Row, head: usize) -> Fault
    ensures { told_by result ≡ tell (number_of row) (line_of t.now head) (line_of t.now head) }
{
    let line = line_of(t, head);
    row.in_section(line, line)
}

// Key, counts, rules: what stands before a section's sets.
fn put_front(
    out: &mut [u8],
    at: usize,
    t: &[u8],
    head: usize,
    cells: &[SmallCell],
    names: &Names,
    rules: usize,
) -> usize
    requires { (each ready (map (noted t.now) cells.now) ≡ true) × (rules < 65536) × (length (get_or (words_from t.now head) 1 []) ≤ 255) }
    ensures { Wrote out.old at (text_bytes (get_or (words_from t.now head) 1 []) ++ (two_bytes_of rules ++ (names.now.count ∷ spell_all rule_bytes (rules_of (names_in t.now names.now) (map (noted t.now) cells.now))))) out.new result }
{
    let second = put_text(out, at, word_of(t, head, 1));
    let third = put_two(out, second, rules);
    let fourth = put_byte(out, third, names.count as u8);
    put_rules(out, fourth, t, cells, names)
}

// Rows 50 to 54 of a section by its settled statements, and its bytes.
fn put_section(
    out: &mut [u8],
    at: usize,
    t: &[u8],
    heads: &[usize],
    rest: usize,
    head: usize,
    cells: &[SmallCell],
) -> Result<usize, Fault>
    requires { Heads t.now heads.now rest × (each sound (statements t.now) ≡ true) × (each ready (map (noted t.now) cells.now) ≡ true) × Marks t.now cells.now × (length (get_or (words_from t.now head) 1 []) ≤ 255) }
    ensures { (ss : List Statement) → map (noted t.now) cells.now ≡ settled ss → Puts (sizes_told t.now (statements t.now) at (line_of t.now head) (contents_of (statements t.now) (get_or (words_from t.now head) 1 []) ss) ss) (section_bytes (contents_of (statements t.now) (get_or (words_from t.now head) 1 []) ss)) out.old at out.new result }
{
    let rules = count_rules(cells);
    if RULE_LIMIT < rules {
        return Err(over(t, Row::RuleCount, head));
    }
    let Some(names) = Names::of(t, cells) else {
        return Err(over(t, Row::SetCount, head));
    };
    first_stray(t, head, cells, &names)?;
    let next = put_front(out, at, t, head, cells, &names, rules);
    let end = put_sets(out, next, t, heads, rest, head, cells, &names)?;
    let long = BOOK_LIMIT < end;
    if long {
        return Err(over(t, Row::LongBook, head));
    }
    Ok(end)
}

// Rows 47 to 49, then the others; the statements are settled in between, in their cells.
fn check_section(
    out: &mut [u8],
    at: usize,
    t: &[u8],
    heads: &[usize],
    rest: usize,
    head: usize,
    cells: &mut [SmallCell],
) -> Result<usize, Fault>
    requires { Heads t.now heads.now rest × (each sound (statements t.now) ≡ true) × (each ready (map (noted t.now) cells.old) ≡ true) × Marks t.now cells.old × (length (get_or (words_from t.now head) 1 []) ≤ 255) }
    ensures { Puts (firstly (first_rule_fault t.now (statements t.now) (line_of t.now head) [] (map (noted t.now) cells.old)) (sizes_told t.now (statements t.now) at (line_of t.now head) (contents_of (statements t.now) (get_or (words_from t.now head) 1 []) (map (noted t.now) cells.old)) (map (noted t.now) cells.old))) (section_bytes (contents_of (statements t.now) (get_or (words_from t.now head) 1 []) (map (noted t.now) cells.old))) out.old at out.new result }
{
    first_rule_fault(t, heads, rest, head, cells)?;
    let count = settle(t, cells);
    put_section(out, at, t, heads, rest, head, &cells[..count])
}

// All rows of the section with a head, and its bytes.
fn make_section(
    out: &mut [u8],
    at: usize,
    t: &[u8],
    heads: &[usize],
    rest: usize,
    head: usize,
    cells: &mut [SmallCell],
) -> Result<usize, Fault>
    requires { Heads t.now heads.now rest × (length t.now ≤ text_limit) × (head ≤ length t.now) × (says a_section (statement_at t.now head 0) ≡ true) × (each sound (statements t.now) ≡ true) × (each sound (statement_at t.now head 0 ∷ left t.now (next_line t.now head)) ≡ true) × (length cells.old ≡ statement_limit) }
    ensures { Puts (section_told t.now (statements t.now) at (statement_at t.now head 0) (left t.now (next_line t.now head))) (section_bytes (section_of (statements t.now) (statement_at t.now head 0) (left t.now (next_line t.now head)))) out.old at out.new result }
{
    let start = next_line(t, head);
    used_twice(t, head, start)?;
    let count = note_section(t, heads, rest, cells, start);
    if STATEMENT_LIMIT < count {
        return Err(over(t, Row::StatementCount, head));
    }
    check_section(out, at, t, heads, rest, head, &mut cells[..count])
}

// A section where the statement is one, else nothing.
fn make_any(
    out: &mut [u8],
    at: usize,
    t: &[u8],
    heads: &[usize],
    rest: usize,
    line: usize,
    cells: &mut [SmallCell],
) -> Result<usize, Fault>
    requires { Heads t.now heads.now rest × (length t.now ≤ text_limit) × (line ≤ length t.now) × (each sound (statements t.now) ≡ true) × (each sound (statement_at t.now line 0 ∷ left t.now (next_line t.now line)) ≡ true) × (length cells.old ≡ statement_limit) }
    ensures { Puts (cond (says a_section (statement_at t.now line 0)) (section_told t.now (statements t.now) at (statement_at t.now line 0) (left t.now (next_line t.now line))) nothing) (cond (says a_section (statement_at t.now line 0)) (section_bytes (section_of (statements t.now) (statement_at t.now line 0) (left t.now (next_line t.now line)))) []) out.old at out.new result }
{
    if verb_at(t, line) == SECTION {
        return make_section(out, at, t, heads, rest, line, cells);
    }
    Ok(put(out, at, b""))
}

// The sections of a text, from its first line on.
fn make_sections(
    out: &mut [u8],
    at: usize,
    t: &[u8],
    heads: &[usize],
    rest: usize,
    cells: &mut [SmallCell],
) -> Result<usize, Fault>
    requires { Heads t.now heads.now rest × (at ≤ book_limit) × (length t.now ≤ text_limit) × (each sound (statements t.now) ≡ true) × (length cells.old ≡ statement_limit) }
    ensures { Puts (sections_told t.now (statements t.now) at (statements t.now)) (spell_all section_bytes (sections_in (statements t.now) (statements t.now))) out.old at out.new result }
{
    let mut to = at;
    let mut line = next_statement(t, 0);
    while line <= t.len() {
        to = make_any(out, to, t, heads, rest, line, cells)?;
        line = next_statement(t, next_line(t, line));
    }
    Ok(put(out, to, b""))
}

// The whole book of a text with so many sections.
fn make_book(
    out: &mut [u8],
    t: &[u8],
    heads: &[usize],
    rest: usize,
    sections: usize,
) -> Result<usize, Fault>
    requires { Heads t.now heads.now rest × (length t.now ≤ text_limit) × (each sound (statements t.now) ≡ true) × (sections ≡ length (meaning t.now)) × (sections ≤ 64) }
    ensures { Puts (sections_told t.now (statements t.now) 6 (statements t.now)) (book_bytes (meaning t.now)) out.old 0 out.new result }
{
    let mut cells = [NO_SMALL_CELL; STATEMENT_LIMIT];
    let second = put(out, 0, b"VXB");
    let third = put_two(out, second, 1);
    let fourth = put_byte(out, third, sections as u8);
    make_sections(out, fourth, t, heads, rest, &mut cells)
}

// Rows 31 to 54 and 56. Where none holds, the book stands in the first bytes of the place, and its length is answered.
pub fn make(t: &[u8], place: &mut [u8]) -> Told
    requires { length place.old ≡ book_limit }
    ensures { MakesBy (refusal t.now) t.now (told_of result) place.new }
{
    bytes_told(t)?;
    first_fault(t)?;
    make_noted(t, place)
}

// Rows 43 to 54 and 56, likewise, of a text that passes the others. Beside a `?` the array would be filled twice.
fn make_noted(t: &[u8], place: &mut [u8]) -> Told
    requires { (length place.old ≡ book_limit) × (length t.now ≤ text_limit) × (each sound (statements t.now) ≡ true) }
    ensures { MakesBy (named_told t.now) t.now (told_of result) place.new }
{
    let mut heads = [0usize; HEAD_LIMIT];
    let noted = note_heads(t, &mut heads);
    make_named(t, &heads[..noted.count], noted.rest, place)
}

// The same, its sets, commons and sections noted.
fn make_named(t: &[u8], heads: &[usize], rest: usize, place: &mut [u8]) -> Told
    requires { Heads t.now heads.now rest × (length place.old ≡ book_limit) × (length t.now ≤ text_limit) × (each sound (statements t.now) ≡ true) }
    ensures { MakesBy (named_told t.now) t.now (told_of result) place.new }
{
    let sections = first_name_fault(t, heads, rest)?;
    make_book(place, t, heads, rest, sections)
}

// The book of a text, into a lent output: all of it, or nothing.
pub fn compile(text: &[u8], output: &mut [u8]) -> Told
    ensures { (told_of result ≡ (compile_of text.now output.old).told) × (output.new ≡ (compile_of text.now output.old).output) }
{
    let mut place = [0u8; BOOK_LIMIT];
    let size = make(text, &mut place)?;
    if output.len() < size {
        return Err(Row::ShortOutput.with(size));
    }
    put(output, 0, &place[..size]);
    Ok(size)
}
