// The sets of a section: rows 52 and 53, and their bytes.
ghost use Rattle.std.specs.Prelude.{◌≡◌, true, not, ◌&&◌, [], ◌∷◌, map, ◌+◌, ◌≤◌, ◌<◌, length, get_or, drop};
ghost use Rattle.hl7.specs.Bytes.{among};
ghost use Rattle.grade.specs.Encoding.{each, spell_all, text_bytes, set_bytes, two_bytes_of};
ghost use Rattle.ack.specs.Splice.{Wrote};
ghost use Rattle.booktext.specs.Lines.{statements, line_of, word, verb, of_codes, a_set, a_less};
ghost use Rattle.booktext.specs.Meaning.{from};
ghost use Rattle.booktext.specs.Changes.{names_code, lessened, kept, added_by, added};
ghost use Rattle.booktext.specs.Contents.{listed, codes_of, held};
ghost use Rattle.booktext.specs.Refusals.{first_stray, first_bad_set};
ghost use Rattle.booktext.specs.Standing.{words_from, statement_at, next_line, left, body_from, Finds, Heads, told_in, noted, no_cell, Marked, Marks, names_in, is_short, sound, ready, Spelt, Puts};

use crate::before::names_code;
use crate::cell::SmallCell;
use crate::heads::seek_head;
use crate::line::{line_of, next_word, part, skip_words, word_of};
use crate::names::Names;
use crate::refer::found_at;
use crate::statement::{next_in_body, next_line, verb_at};
use crate::told::{Fault, Row};
use crate::word::{CODE, LESS, MORE, SET, is_codes};
use ack::output::{put, put_byte};
use grade::limits::CODE_COUNT_LIMIT;
use hl7::bytes::same_bytes;

// Where the next byte goes, and how many codes of a set were written.
#[derive(Clone, Copy)]
pub struct Run {
    pub at: usize,
    pub count: usize,
}

// ---- bytes
// A number in two bytes, the high one first.
pub(crate) fn put_two(out: &mut [u8], at: usize, n: usize) -> usize
    requires { n < 65536 }
    ensures { Wrote out.old at (two_bytes_of n) out.new result }
{
    let next = put_byte(out, at, (n / 256) as u8);
    put_byte(out, next, (n % 256) as u8)
}

// A key or a code with its length in front.
pub(crate) fn put_text(out: &mut [u8], at: usize, text: &[u8]) -> usize
    requires { length text.now ≤ 255 }
    ensures { Wrote out.old at (text_bytes text.now) out.new result }
{
    let next = put_byte(out, at, text.len() as u8);
    put(out, next, text)
}

// ---- codes, written and counted
// Nothing more.
fn put_none(out: &mut [u8], run: Run) -> Run
    ensures { Spelt [] out.old run out.new result }
{
    Run {
        at: put(out, run.at, b""),
        count: run.count.min(CODE_COUNT_LIMIT + 1),
    }
}

// Whether the statement of a cell takes a code from a set.
fn takes_code(t: &[u8], cell: SmallCell, name: &[u8], code: &[u8]) -> bool
    requires { Marked t.now cell }
    ensures { result ≡ names_code a_less name.now code.now (noted t.now cell) }
{
    if cell.verb == LESS {
        return names_code(t, cell.line as usize, name, code);
    }
    false
}

// Whether one of the statements in the cells does.
fn is_lessened(t: &[u8], cells: &[SmallCell], name: &[u8], code: &[u8]) -> bool
    requires { Marks t.now cells.now }
    ensures { result ≡ lessened name.now code.now (map (noted t.now) cells.now) }
{
    for &cell in cells {
        if takes_code(t, cell, name, code) {
            return true;
        }
    }
    false
}

// A code of a set, unless one of the statements in the cells takes it.
fn put_code(
    out: &mut [u8],
    run: Run,
    t: &[u8],
    cells: &[SmallCell],
    name: &[u8],
    code: &[u8],
) -> Run
    requires { Marks t.now cells.now × (length code.now ≤ 255) }
    ensures { Spelt (kept name.now (map (noted t.now) cells.now) (code.now ∷ [])) out.old run out.new result }
{
    if is_lessened(t, cells, name, code) {
        return put_none(out, run);
    }
    Run {
        at: put_text(out, run.at, code),
        count: run.count.min(CODE_COUNT_LIMIT) + 1,
    }
}

// Those of the words from a position on.
fn put_words(
    out: &mut [u8],
    run: Run,
    t: &[u8],
    cells: &[SmallCell],
    name: &[u8],
    from: usize,
) -> Run
    requires { Marks t.now cells.now × (each is_short (words_from t.now from) ≡ true) }
    ensures { Spelt (kept name.now (map (noted t.now) cells.now) (words_from t.now from)) out.old run out.new result }
{
    let mut to = run;
    let mut i = from;
    loop {
        let w = next_word(t, i);
        if w.end <= w.start {
            return put_none(out, to);
        }
        to = put_code(out, to, t, cells, name, part(t, w));
        i = w.end;
    }
}

// Those of a line, where it is a code line.
fn put_line(
    out: &mut [u8],
    run: Run,
    t: &[u8],
    cells: &[SmallCell],
    name: &[u8],
    line: usize,
) -> Run
    requires { Marks t.now cells.now × (each is_short (listed (statement_at t.now line 0 ∷ [])) ≡ true) }
    ensures { Spelt (kept name.now (map (noted t.now) cells.now) (listed (statement_at t.now line 0 ∷ []))) out.old run out.new result }
{
    if verb_at(t, line) == CODE {
        return put_words(out, run, t, cells, name, skip_words(t, line, 1));
    }
    put_none(out, run)
}

// Those of the code lines that begin at start.
fn put_listed(
    out: &mut [u8],
    run: Run,
    t: &[u8],
    cells: &[SmallCell],
    name: &[u8],
    start: usize,
) -> Run
    requires { Marks t.now cells.now × (each is_short (listed (body_from t.now start)) ≡ true) }
    ensures { Spelt (kept name.now (map (noted t.now) cells.now) (listed (body_from t.now start))) out.old run out.new result }
{
    let mut to = run;
    let mut at = next_in_body(t, start);
    while at <= t.len() {
        to = put_line(out, to, t, cells, name, at);
        at = next_in_body(t, next_line(t, at));
    }
    put_none(out, to)
}

// Those that statement i adds to a set, unless a later one takes them.
fn put_more(out: &mut [u8], run: Run, t: &[u8], cells: &[SmallCell], name: &[u8], i: usize) -> Run
    requires { Marks t.now cells.now × (i < length cells.now) × (each is_short (added_by name.now (noted t.now (get_or cells.now i no_cell))) ≡ true) }
    ensures { Spelt (kept name.now (map (noted t.now) (drop (i + 1) cells.now)) (added_by name.now (noted t.now (get_or cells.now i no_cell)))) out.old run out.new result }
{
    let cell = cells[i];
    if cell.verb != MORE {
        return put_none(out, run);
    }
    if !same_bytes(word_of(t, cell.line as usize, 1), name) {
        return put_none(out, run);
    }
    let from = skip_words(t, cell.line as usize, 2);
    put_words(out, run, t, &cells[i + 1..], name, from)
}

// Those that the statements in the cells add.
fn put_added(out: &mut [u8], run: Run, t: &[u8], cells: &[SmallCell], name: &[u8]) -> Run
    requires { Marks t.now cells.now × (each ready (map (noted t.now) cells.now) ≡ true) }
    ensures { Spelt (added name.now (map (noted t.now) cells.now)) out.old run out.new result }
{
    let mut to = run;
    for i in 0..cells.len() {
        to = put_more(out, to, t, cells, name, i);
    }
    put_none(out, to)
}

// Those that the set has in the text, whose own line is at a position; none where it is past the end.
fn put_own(out: &mut [u8], run: Run, t: &[u8], cells: &[SmallCell], name: &[u8], line: usize) -> Run
    requires { Marks t.now cells.now × Finds t.now (from a_set name.now (statements t.now)) (left t.now (next_line t.now line)) line × (each sound (statements t.now) ≡ true) }
    ensures { Spelt (kept name.now (map (noted t.now) cells.now) (codes_of (statements t.now) name.now)) out.old run out.new result }
{
    if t.len() < line {
        return put_none(out, run);
    }
    let own = put_words(out, run, t, cells, name, skip_words(t, line, 2));
    put_listed(out, own, t, cells, name, next_line(t, line))
}

// All that it has in the section.
fn put_held(
    out: &mut [u8],
    at: usize,
    t: &[u8],
    cells: &[SmallCell],
    name: &[u8],
    line: usize,
) -> Run
    requires { Marks t.now cells.now × (each ready (map (noted t.now) cells.now) ≡ true) × Finds t.now (from a_set name.now (statements t.now)) (left t.now (next_line t.now line)) line × (each sound (statements t.now) ≡ true) }
    ensures { Spelt (held (statements t.now) (map (noted t.now) cells.now) name.now) out.old (record { at = at; count = 0 }) out.new result }
{
    let start = Run { at, count: 0 };
    let own = put_own(out, start, t, cells, name, line);
    put_added(out, own, t, cells, name)
}

// ---- sets
// The set with a name, in a section with a head. Its codes are written onto no byte first, which tells how many there are.
fn put_set(
    out: &mut [u8],
    at: usize,
    t: &[u8],
    heads: &[usize],
    rest: usize,
    head: usize,
    cells: &[SmallCell],
    name: &[u8],
) -> Result<usize, Fault>
    requires { Heads t.now heads.now rest × Marks t.now cells.now × (each ready (map (noted t.now) cells.now) ≡ true) × (each sound (statements t.now) ≡ true) }
    ensures { Puts (first_bad_set t.now (line_of t.now head) (statements t.now) (map (noted t.now) cells.now) (name.now ∷ [])) (set_bytes (held (statements t.now) (map (noted t.now) cells.now) name.now)) out.old at out.new result }
{
    let line = seek_head(t, heads, rest, SET, name);
    let count = put_held(&mut out[..0], 0, t, cells, name, line).count;
    if (count < 1) | (CODE_COUNT_LIMIT < count) {
        return Err(Row::CodeCount.in_section(line_of(t, found_at(t, line)), line_of(t, head)));
    }
    let next = put_two(out, at, count);
    Ok(put_held(out, next, t, cells, name, line).at)
}

// The sets with the names.
pub(crate) fn put_sets(
    out: &mut [u8],
    at: usize,
    t: &[u8],
    heads: &[usize],
    rest: usize,
    head: usize,
    cells: &[SmallCell],
    names: &Names,
) -> Result<usize, Fault>
    requires { Heads t.now heads.now rest × Marks t.now cells.now × (each ready (map (noted t.now) cells.now) ≡ true) × (each sound (statements t.now) ≡ true) }
    ensures { Puts (first_bad_set t.now (line_of t.now head) (statements t.now) (map (noted t.now) cells.now) (names_in t.now names.now)) (spell_all set_bytes (map (held (statements t.now) (map (noted t.now) cells.now)) (names_in t.now names.now))) out.old at out.new result }
{
    let mut to = at;
    for i in 0..names.count {
        let name = names.name_at(t, i);
        to = put_set(out, to, t, heads, rest, head, cells, name)?;
    }
    Ok(put(out, to, b""))
}

// ---- row 52
// Whether the statement of a cell changes a set that is none of these.
fn is_stray(t: &[u8], cell: SmallCell, names: &Names) -> bool
    requires { Marked t.now cell }
    ensures { result ≡ (of_codes (verb (noted t.now cell)) && not (among (word (noted t.now cell) 1) (names_in t.now names.now))) }
{
    if is_codes(cell.verb) {
        return names.number_of(t, word_of(t, cell.line as usize, 1)) == 0;
    }
    false
}

// The first of the statements in the cells that does, in a section with a head.
pub(crate) fn first_stray(
    t: &[u8],
    head: usize,
    cells: &[SmallCell],
    names: &Names,
) -> Result<(), Fault>
    requires { Marks t.now cells.now }
    ensures { told_in result ≡ first_stray t.now (line_of t.now head) (names_in t.now names.now) (map (noted t.now) cells.now) }
{
    for &cell in cells {
        if is_stray(t, cell, names) {
            return Err(Row::StraySet.in_section(line_of(t, cell.line as usize), line_of(t, head)));
        }
    }
    Ok(())
}
