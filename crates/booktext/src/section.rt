// Rows 46 and 56: what a section takes over from commons, and its statements after inclusion, noted in lent cells.
ghost use Rattle.std.specs.Prelude.{◌≡◌, not, ◌&&◌, List, [], ◌∷◌, map, ℕ, ◌≤◌, length};
ghost use Rattle.booktext.specs.Lines.{statements, says, line_of, a_use};
ghost use Rattle.booktext.specs.Meaning.{give, taken, expand};
ghost use Rattle.booktext.specs.Refusals.{is_first, used_twice, statement_limit};
ghost use Rattle.booktext.specs.Standing.{statement_at, left, body_from, Heads, told_in, noted, Marked, Holds, NotesMore};

use crate::cell::{CellNumber, CellOf, cell_at};
use crate::heads::seek_head;
use crate::line::{line_of, word_of};
use crate::refer::is_first;
use crate::statement::{next_in_body, next_line, verb_at};
use crate::told::{Fault, Row};
use crate::word::{COMMON, USE};
use hl7::bytes::byte_at;

// The most statements of a section after inclusion.
pub const STATEMENT_LIMIT: usize = 2048;

// ---- row 46
// Whether it is a use of a common that was used since the section's head.
fn is_repeated(t: &[u8], start: usize, at: usize) -> bool
    ensures { result ≡ (says a_use (statement_at t.now at 0) && not (is_first (left t.now start) (statement_at t.now at 0))) }
{
    if verb_at(t, at) == USE {
        return !is_first(t, start, at);
    }
    false
}

// The first such one of the section with a head, whose statements begin at start.
pub(crate) fn used_twice(t: &[u8], head: usize, start: usize) -> Result<(), Fault>
    ensures { told_in result ≡ used_twice t.now (line_of t.now head) (left t.now start) (body_from t.now start) }
{
    let mut at = next_in_body(t, start);
    while at <= t.len() {
        if is_repeated(t, start, at) {
            return Err(Row::UsedTwice.in_section(line_of(t, at), line_of(t, head)));
        }
        at = next_in_body(t, next_line(t, at));
    }
    Ok(())
}

// ---- statements after inclusion
// Notes one statement more.
fn note_cell<N: CellNumber>(cells: &mut [CellOf<N>], count: usize, cell: CellOf<N>) -> usize
    requires { length cells.old ≡ statement_limit }
    ensures { (t : List ℕ) → Marked t (N.cell cell) → NotesMore t (N.cells cells.old) count (N.cells cells.new) result (noted t (N.cell cell) ∷ []) }
{
    if STATEMENT_LIMIT <= count {
        return STATEMENT_LIMIT + 1;
    }
    cells[count] = cell;
    count + 1
}

// Notes one by the position of its line, and the severity that it was given.
fn note<N: CellNumber>(
    t: &[u8],
    cells: &mut [CellOf<N>],
    count: usize,
    at: usize,
    letter: u8,
) -> usize
    requires { N.fits (length t.now) × (at ≤ length t.now) × (length cells.old ≡ statement_limit) }
    ensures { NotesMore t.now (N.cells cells.old) count (N.cells cells.new) result ((statement_at t.now at letter ∷ [])) }
{
    note_cell(cells, count, cell_at(t, at, letter))
}

// Notes the statements of a common, which begin at start.
fn note_block<N: CellNumber>(
    t: &[u8],
    cells: &mut [CellOf<N>],
    count: usize,
    start: usize,
    letter: u8,
) -> usize
    requires { N.fits (length t.now) × (length cells.old ≡ statement_limit) }
    ensures { NotesMore t.now (N.cells cells.old) count (N.cells cells.new) result (map (give letter) (body_from t.now start)) }
{
    let mut n = count;
    let mut at = next_in_body(t, start);
    while at <= t.len() {
        if STATEMENT_LIMIT < n {
            return n;
        }
        n = note(t, cells, n, at, letter);
        at = next_in_body(t, next_line(t, at));
    }
    n
}

// Notes what a statement takes over.
fn note_taken<N: CellNumber>(
    t: &[u8],
    heads: &[usize],
    rest: usize,
    cells: &mut [CellOf<N>],
    count: usize,
    at: usize,
) -> usize
    requires { Heads t.now heads.now rest × N.fits (length t.now) × (length cells.old ≡ statement_limit) }
    ensures { NotesMore t.now (N.cells cells.old) count (N.cells cells.new) result (taken (statements t.now) (statement_at t.now at 0)) }
{
    if verb_at(t, at) != USE {
        return count;
    }
    let found = seek_head(t, heads, rest, COMMON, word_of(t, at, 1));
    if t.len() < found {
        return count;
    }
    note_block(
        t,
        cells,
        count,
        next_line(t, found),
        byte_at(word_of(t, at, 2), 0),
    )
}

// Notes a statement of the section, and what it takes over.
fn note_both<N: CellNumber>(
    t: &[u8],
    heads: &[usize],
    rest: usize,
    cells: &mut [CellOf<N>],
    count: usize,
    at: usize,
) -> usize
    requires { Heads t.now heads.now rest × N.fits (length t.now) × (at ≤ length t.now) × (length cells.old ≡ statement_limit) }
    ensures { NotesMore t.now (N.cells cells.old) count (N.cells cells.new) result ((statement_at t.now at 0 ∷ taken (statements t.now) (statement_at t.now at 0))) }
{
    let next = note(t, cells, count, at, 0);
    note_taken(t, heads, rest, cells, next, at)
}

// Notes the statements of a section that begin at start, with what they take over.
pub fn note_section<N: CellNumber>(
    t: &[u8],
    heads: &[usize],
    rest: usize,
    cells: &mut [CellOf<N>],
    start: usize,
) -> usize
    requires { Heads t.now heads.now rest × N.fits (length t.now) × (length cells.old ≡ statement_limit) }
    ensures { Holds t.now (N.cells cells.new) result (expand (statements t.now) (body_from t.now start)) }
{
    let mut n = 0;
    let mut at = next_in_body(t, start);
    while at <= t.len() {
        if STATEMENT_LIMIT < n {
            return n;
        }
        n = note_both(t, heads, rest, cells, n, at);
        at = next_in_body(t, next_line(t, at));
    }
    n
}
