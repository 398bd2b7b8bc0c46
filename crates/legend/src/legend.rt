// A line for each section of a text and each of its rules.
ghost use Rattle.std.specs.Prelude.{◌≡◌, true, cond, List, ℕ, [], ◌∷◌, ◌++◌, map, ◌+◌, ◌≤◌, ◌<◌, length, get_or, drop};
ghost use Rattle.ack.specs.Splice.{Wrote};
ghost use Rattle.ack.specs.Output.{Adds};
ghost use Rattle.ack.specs.Layout.{marked};
ghost use Rattle.booktext.specs.Lines.{statements, makes_rule, says, text_limit, a_section};
ghost use Rattle.booktext.specs.Meaning.{expand};
ghost use Rattle.booktext.specs.Changes.{amended};
ghost use Rattle.booktext.specs.Faults.{told_of};
ghost use Rattle.booktext.specs.Refusals.{statement_limit, refusal, written};
ghost use Rattle.booktext.specs.Standing.{words_from, statement_at, next_line, left, body_from, noted, no_cell, Marked, Marks, Heads};
ghost use Rattle.legend.specs.Legend.{remark, remark_of, later_remarks, rule_legend, stays, line_of_rule, rules_legend, section_legend, legend, legend_of};
ghost use Rattle.legend.specs.Standing.{rule_words, line_if_stays, roomy};

use crate::people::{LINE_FEED, people_at};
use ack::output::Output;
use booktext::cell::{NO_SMALL_CELL, SmallCell};
use booktext::change::{amended, is_dropped};
use booktext::compile::make;
use booktext::heads::{HEAD_LIMIT, note_heads};
use booktext::line::{next_word, part, word_of};
use booktext::rules::letter_of;
use booktext::section::{STATEMENT_LIMIT, note_section};
use booktext::statement::{next_line, next_statement, verb_at};
use booktext::told::{Row, Told};
use booktext::word::{BOUND, SECTION, SEVERITY, is_rule};
use grade::limits::BOOK_LIMIT;
use hl7::bytes::pick;

// ---- lines
// Words for people, behind a bar, if there are any.
fn put_remark(out: &mut Output<'_>, people: &[u8])
    ensures { Adds out.old (remark people.now) out.new }
{
    if people.len() == 0 {
        return;
    }
    out.put(b" | ");
    out.put(people);
}

// The words from a position on, each with a blank in front.
fn put_words(out: &mut Output<'_>, t: &[u8], from: usize)
    ensures { Adds out.old (marked 32 (words_from t.now from)) out.new }
{
    let mut i = from;
    loop {
        let w = next_word(t, i);
        if w.end <= w.start {
            return;
        }
        out.put_field(b' ', part(t, w));
        i = w.end;
    }
}

// The words of the rule in a cell, by its number in a section with a key.
fn put_rule(out: &mut Output<'_>, t: &[u8], cell: SmallCell, key: &[u8], n: usize)
    requires { makes_rule (noted t.now cell) ≡ true }
    ensures { Adds out.old (rule_words key.now n (noted t.now cell)) out.new }
{
    out.put(key);
    out.put_number(b' ', n);
    out.put_field(b' ', word_of(t, cell.line as usize, 1));
    out.put_field(b' ', word_of(t, cell.line as usize, 2));
    out.put_byte(b' ');
    out.put_byte(letter_of(t, cell));
    put_words(out, t, cell.bound_at(t));
}

// What the line of a cell remarks, where it gives a place and kind another severity or bound.
fn put_change(out: &mut Output<'_>, t: &[u8], spot: usize, cell: SmallCell)
    requires { Marked t.now cell }
    ensures { Adds out.old (later_remarks t.now spot (noted t.now cell ∷ [])) out.new }
{
    if cell.says_of(SEVERITY, spot) | cell.says_of(BOUND, spot) {
        put_remark(out, people_at(t, cell.line as usize));
    }
}

// The same of all cells.
fn put_changes(out: &mut Output<'_>, t: &[u8], spot: usize, cells: &[SmallCell])
    requires { Marks t.now cells.now }
    ensures { Adds out.old (later_remarks t.now spot (map (noted t.now) cells.now)) out.new }
{
    for &cell in cells {
        put_change(out, t, spot, cell);
    }
}

// ---- a section
// Whether statement i makes a rule that none of those that follow drops.
fn is_staying(cells: &[SmallCell], i: usize) -> bool
    requires { i < length cells.now }
    ensures { (t : List ℕ) → Marks t cells.now → result ≡ stays (noted t (get_or cells.now i no_cell)) (map (noted t) (drop (i + 1) cells.now)) }
{
    let cell = cells[i];
    if is_rule(cell.verb) {
        return !is_dropped(&cells[i + 1..], cell.spot as usize);
    }
    false
}

// The line of a rule in a cell, which speaks of this place and kind, as those in the cells leave it.
fn put_amended(
    out: &mut Output<'_>,
    t: &[u8],
    cell: SmallCell,
    spot: usize,
    cells: &[SmallCell],
    key: &[u8],
    n: usize,
)
    requires { Marks t.now cells.now × (makes_rule (noted t.now cell) ≡ true) }
    ensures { Adds out.old (rule_legend t.now key.now n (amended spot (noted t.now cell) (map (noted t.now) cells.now)) (remark_of t.now (noted t.now cell) ++ later_remarks t.now spot (map (noted t.now) cells.now))) out.new }
{
    let rule = amended(t, cell, spot, cells);
    put_rule(out, t, rule, key, n);
    put_remark(out, people_at(t, cell.line as usize));
    put_changes(out, t, spot, cells);
    out.put_byte(LINE_FEED);
}

// That of statement i, as those that follow leave it.
fn put_line(out: &mut Output<'_>, t: &[u8], cells: &[SmallCell], i: usize, key: &[u8], n: usize)
    requires { Marks t.now cells.now × (i < length cells.now) × (makes_rule (noted t.now (get_or cells.now i no_cell)) ≡ true) }
    ensures { Adds out.old (line_of_rule t.now key.now n (noted t.now (get_or cells.now i no_cell)) (map (noted t.now) (drop (i + 1) cells.now))) out.new }
{
    let cell = cells[i];
    let later = &cells[i + 1..];
    put_amended(out, t, cell, cell.spot as usize, later, key, n);
}

// That line, if it stays.
fn put_made(out: &mut Output<'_>, t: &[u8], cells: &[SmallCell], i: usize, key: &[u8], n: usize)
    requires { Marks t.now cells.now × (i < length cells.now) }
    ensures { Adds out.old (line_if_stays t.now key.now n (noted t.now (get_or cells.now i no_cell)) (map (noted t.now) (drop (i + 1) cells.now))) out.new }
{
    if is_staying(cells, i) {
        put_line(out, t, cells, i, key, n);
    }
}

// The number of the next rule after statement i.
fn number_after(cells: &[SmallCell], i: usize, n: usize) -> usize
    requires { (n ≤ statement_limit) × (i < length cells.now) }
    ensures { ((t : List ℕ) → Marks t cells.now → result ≡ cond (stays (noted t (get_or cells.now i no_cell)) (map (noted t) (drop (i + 1) cells.now))) (n + 1) n) × (result ≤ n + 1) }
{
    pick(is_staying(cells, i), n + 1, n)
}

// The rules of the statements in the cells.
fn put_rules(out: &mut Output<'_>, t: &[u8], cells: &[SmallCell], key: &[u8])
    requires { Marks t.now cells.now × (length cells.now ≤ statement_limit) }
    ensures { Adds out.old (rules_legend t.now key.now 1 (map (noted t.now) cells.now)) out.new }
{
    let mut n = 1;
    for i in 0..cells.len() {
        put_made(out, t, cells, i, key, n);
        n = number_after(cells, i, n);
    }
}

// The section with a head.
fn put_section(
    out: &mut Output<'_>,
    t: &[u8],
    heads: &[usize],
    rest: usize,
    head: usize,
    cells: &mut [SmallCell],
)
    requires { Heads t.now heads.now rest × (length t.now ≤ text_limit) × (head ≤ length t.now) × (length cells.old ≡ statement_limit) × (length (expand (statements t.now) (body_from t.now (next_line t.now head))) ≤ statement_limit) }
    ensures { Adds out.old (section_legend t.now (statements t.now) (statement_at t.now head 0) (left t.now (next_line t.now head))) out.new }
{
    let key = word_of(t, head, 1);
    let count = note_section(t, heads, rest, cells, next_line(t, head));
    out.put(key);
    out.put(b" 0");
    put_remark(out, people_at(t, head));
    out.put_byte(LINE_FEED);
    put_rules(out, t, &cells[..count], key);
}

// ---- the text
// A section where the statement is one, else nothing.
fn put_any(
    out: &mut Output<'_>,
    t: &[u8],
    heads: &[usize],
    rest: usize,
    line: usize,
    cells: &mut [SmallCell],
)
    requires { Heads t.now heads.now rest × (length t.now ≤ text_limit) × (line ≤ length t.now) × (length cells.old ≡ statement_limit) × (roomy (statements t.now) (statement_at t.now line 0 ∷ left t.now (next_line t.now line)) ≡ true) }
    ensures { Adds out.old (cond (says a_section (statement_at t.now line 0)) (section_legend t.now (statements t.now) (statement_at t.now line 0) (left t.now (next_line t.now line))) []) out.new }
{
    if verb_at(t, line) == SECTION {
        put_section(out, t, heads, rest, line, cells);
    }
}

// The sections of a text, from its first line on.
fn put_sections(
    out: &mut Output<'_>,
    t: &[u8],
    heads: &[usize],
    rest: usize,
    cells: &mut [SmallCell],
)
    requires { Heads t.now heads.now rest × (length t.now ≤ text_limit) × (roomy (statements t.now) (statements t.now) ≡ true) × (length cells.old ≡ statement_limit) }
    ensures { Adds out.old (legend t.now) out.new }
{
    let mut line = next_statement(t, 0);
    while line <= t.len() {
        put_any(out, t, heads, rest, line, cells);
        line = next_statement(t, next_line(t, line));
    }
}

// The whole legend.
fn put_legend(out: &mut [u8], t: &[u8], heads: &[usize], rest: usize) -> usize
    requires { Heads t.now heads.now rest × (length t.now ≤ text_limit) × (roomy (statements t.now) (statements t.now) ≡ true) }
    ensures { Wrote out.old 0 (legend t.now) out.new result }
{
    let mut cells = [NO_SMALL_CELL; STATEMENT_LIMIT];
    let mut text = Output { bytes: out, at: 0 };
    put_sections(&mut text, t, heads, rest, &mut cells);
    text.at
}

// It is written onto no byte first, which tells its length.
fn write_legend(t: &[u8], heads: &[usize], rest: usize, output: &mut [u8]) -> Told
    requires { Heads t.now heads.now rest × ((refusal t.now).number ≡ 0) }
    ensures { (told_of result ≡ (written (legend t.now) output.old).told) × (output.new ≡ (written (legend t.now) output.old).output) }
{
    let size = put_legend(&mut output[..0], t, heads, rest);
    if output.len() < size {
        return Err(Row::ShortOutput.with(size));
    }
    put_legend(output, t, heads, rest);
    Ok(size)
}

// The legend of a text, into a lent output: all of it, or nothing.
pub fn legend(text: &[u8], output: &mut [u8]) -> Told
    ensures { (told_of result ≡ (legend_of text.now output.old).told) × (output.new ≡ (legend_of text.now output.old).output) }
{
    let mut place = [0u8; BOOK_LIMIT];
    make(text, &mut place)?;
    let mut heads = [0usize; HEAD_LIMIT];
    let noted = note_heads(text, &mut heads);
    write_legend(text, &heads[..noted.count], noted.rest, output)
}
