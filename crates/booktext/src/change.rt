// What the statements of a section change in the rules before them.
ghost use Rattle.std.specs.Prelude.{◌≡◌, true, List, ◌++◌, map, ℕ, ◌+◌, ◌≤◌, ◌<◌, length, get_or, take, drop};
ghost use Rattle.booktext.specs.Lines.{makes_rule};
ghost use Rattle.booktext.specs.Changes.{amend, amended, dropped, settled_as, settled};
ghost use Rattle.booktext.specs.Standing.{noted, no_cell, Marked, Marks};

use crate::cell::{CellNumber, CellOf, SmallCell};
use crate::line::word_of;
use crate::word::{BOUND, DROP, SEVERITY, is_rule};
use hl7::bytes::byte_at;

// ---- one rule
// Whether one of the statements in the cells drops a rule of this place and kind.
pub fn is_dropped<N: CellNumber>(cells: &[CellOf<N>], spot: usize) -> bool
    ensures { (t : List ℕ) → Marks t (N.cells cells.now) → result ≡ dropped spot (map (noted t) (N.cells cells.now)) }
{
    let mut any = false;
    for &cell in cells {
        any = any | cell.says_of(DROP, spot);
    }
    any
}

// A rule of this place and kind as a later statement leaves it.
fn amend<N: CellNumber>(t: &[u8], rule: CellOf<N>, spot: usize, cell: CellOf<N>) -> CellOf<N>
    requires { (makes_rule (noted t.now (N.cell rule)) ≡ true) × Marked t.now (N.cell cell) }
    ensures { (noted t.now (N.cell result) ≡ amend spot (noted t.now (N.cell rule)) (noted t.now (N.cell cell))) × ((N.cell result).verb ≡ (N.cell rule).verb) × ((N.cell result).spot ≡ (N.cell rule).spot) }
{
    if cell.says_of(SEVERITY, spot) {
        let given = byte_at(word_of(t, cell.line.get(), 3), 0);
        return CellOf { given, ..rule };
    }
    if cell.says_of(BOUND, spot) {
        let bound = Some(cell.line);
        return CellOf { bound, ..rule };
    }
    rule
}

// The same as all statements in the cells leave it.
pub fn amended<N: CellNumber>(
    t: &[u8],
    rule: CellOf<N>,
    spot: usize,
    cells: &[CellOf<N>],
) -> CellOf<N>
    requires { (makes_rule (noted t.now (N.cell rule)) ≡ true) × Marks t.now (N.cells cells.now) }
    ensures { (noted t.now (N.cell result) ≡ amended spot (noted t.now (N.cell rule)) (map (noted t.now) (N.cells cells.now))) × ((N.cell result).verb ≡ (N.cell rule).verb) × ((N.cell result).spot ≡ (N.cell rule).spot) }
{
    let mut last = rule;
    for &cell in cells {
        last = amend(t, last, spot, cell);
    }
    last
}

// ---- all of them
// Settles statement i by those that follow: it comes behind the cells that are kept, or is dropped.
fn settle_one(t: &[u8], cells: &mut [SmallCell], i: usize, count: usize) -> usize
    requires { Marks t.now cells.old × (i < length cells.old) × (count ≤ i) }
    ensures { Marks t.now cells.new × (result ≤ i + 1) × (drop (i + 1) cells.new ≡ drop (i + 1) cells.old) × (map (noted t.now) (take result cells.new) ≡ map (noted t.now) (take count cells.old) ++ settled_as (noted t.now (get_or cells.old i no_cell)) (map (noted t.now) (drop (i + 1) cells.old))) }
{
    let cell = cells[i];
    if !is_rule(cell.verb) {
        cells[count] = cell;
        return count + 1;
    }
    let later = &cells[i + 1..];
    let spot = cell.spot as usize;
    if is_dropped(later, spot) {
        return count;
    }
    let rule = amended(t, cell, spot, later);
    cells[count] = rule;
    count + 1
}

// Settles the statements in the cells, each by those that follow, and answers how many are left: these stand in the first cells then.
pub(crate) fn settle(t: &[u8], cells: &mut [SmallCell]) -> usize
    requires { Marks t.now cells.old }
    ensures { (result ≤ length cells.old) × (map (noted t.now) (take result cells.new) ≡ settled (map (noted t.now) cells.old)) × Marks t.now (take result cells.new) }
{
    let mut count = 0;
    for i in 0..cells.len() {
        count = settle_one(t, cells, i, count);
    }
    count
}
