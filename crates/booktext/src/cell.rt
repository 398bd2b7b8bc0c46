// A statement of a section, as it is noted.
ghost use Rattle.std.specs.Prelude.{◌≡◌, true, ◌&&◌, ◌+◌, ◌*◌, ◌≤◌, eqb, length, drop};
ghost use Rattle.booktext.specs.Lines.{makes_rule};
ghost use Rattle.booktext.specs.Changes.{spot_of};
ghost use Rattle.booktext.specs.Contents.{asks_code};
ghost use Rattle.booktext.specs.Standing.{words_from, statement_at, noted, Marked};

use crate::line::{skip_words, word_of};
use crate::statement::verb_at;
use crate::word::{CODE_KIND, is_placed, is_rule, kind_number, place_in};

// A number of a cell: where a line begins, or a place and kind. A usize holds those of any text; a u32 those of texts that are not too long, in less room.
pub trait CellNumber: Copy {
    ghost use Rattle.std.specs.Prelude.{List, ℕ, map};
    ghost use Rattle.booktext.specs.declared.cell.CellOf.{CellOf};
    ghost use Rattle.booktext.specs.Cells.{Cell, numbered};

    // There is room for a number.
    ghost fits: { ℕ → Type 0 };

    // The number; and a cell, and cells, by their numbers. Members of their own, and not made from the first, so that they are the identity where numbers stand for
    // themselves.
    ghost number: { Self → ℕ };

    ghost cell: { CellOf Self → Cell };

    ghost cells: { List (CellOf Self) → List Cell };

    fn of(n: usize) -> Self
        requires { fits n }
        ensures { number result ≡ n };

    fn get(self) -> usize
        ensures { result ≡ number self };

    // There is room for what is smaller, and for each place and kind.
    ghost less_fits: { (n m : ℕ) → m ≤ n → fits n → fits m };

    ghost spot_fits: { fits 4000000 };

    // A cell is read number by number, and cells one by one.
    ghost cell_is: { (c : CellOf Self) → cell c ≡ numbered number c };

    ghost cells_are: { (cs : List (CellOf Self)) → cells cs ≡ map cell cs };
}

impl CellNumber for usize {
    ghost use Rattle.booktext.specs.Cells.{numbered_same, all_same};

    ghost fits = { λ n. Unit {0} };

    ghost number = { λ n. n };

    ghost cell = { λ c. c };

    ghost cells = { λ cs. cs };

    fn of(n: usize) -> usize {
        n
    }

    fn get(self) -> usize {
        self
    }

    ghost less_fits = { λ n m h k. k };

    ghost spot_fits = { tt };

    ghost cell_is = { numbered_same };

    ghost cells_are = { all_same };
}

impl CellNumber for u32 {
    ghost use Rattle.booktext.specs.Cells.{is_small, less_small, spot_small, numbered_same, all_same};

    ghost fits = { is_small };

    ghost number = { λ n. n };

    ghost cell = { λ c. c };

    ghost cells = { λ cs. cs };

    fn of(n: usize) -> u32 {
        n as u32
    }

    fn get(self) -> usize {
        self as usize
    }

    ghost less_fits = { less_small };

    ghost spot_fits = { spot_small };

    ghost cell_is = { numbered_same };

    ghost cells_are = { all_same };
}

// Where its line begins, where another line begins that has its bound, and the place and kind that it speaks of; the severity that it was given, else 0, and its
// verb. The bytes stand last, so that there is no gap between them.
#[derive(Clone, Copy)]
pub struct CellOf<N> {
    pub line: N,
    pub bound: Option<N>,
    pub spot: N,
    pub given: u8,
    pub verb: u8,
}

// One of a text of any length.
pub type Cell = CellOf<usize>;

// One of a text that is compiled: such a text has at most a mebibyte, and there are up to 2,048 cells at once.
pub type SmallCell = CellOf<u32>;

// Stands where none is noted yet.
pub const NO_CELL: Cell = Cell {
    line: 0,
    bound: None,
    spot: 0,
    given: 0,
    verb: 0,
};

// Likewise. No function makes both: the value of a constant may call none.
pub const NO_SMALL_CELL: SmallCell = SmallCell {
    line: 0,
    bound: None,
    spot: 0,
    given: 0,
    verb: 0,
};

impl<N: CellNumber> CellOf<N> {
    // Whether it has this verb, and this place and kind.
    pub fn says_of(self, verb: u8, spot: usize) -> bool
        ensures { result ≡ (eqb (N.cell self).verb verb && eqb (N.cell self).spot spot) }
    {
        (self.verb == verb) & (self.spot.get() == spot)
    }

    // Where the words of a rule's bound begin.
    pub fn bound_at(self, t: &[u8]) -> usize
        ensures { makes_rule (noted t.now (N.cell self)) ≡ true → words_from t.now result ≡ drop 4 (noted t.now (N.cell self)).words }
    {
        match self.bound {
            Some(line) => skip_words(t, line.get(), 3),
            None => skip_words(t, self.line.get(), 4),
        }
    }

    // Whether it is a rule of kind CODE.
    pub(crate) fn asks_code(self, t: &[u8]) -> bool
        ensures { result ≡ asks_code (noted t.now (N.cell self)) }
    {
        let line = self.line.get();
        is_rule(verb_at(t, line)) & (kind_number(word_of(t, line, 2)) == CODE_KIND)
    }
}

// Place and kind as one number.
pub fn spot_number(segment: u8, field: u8, component: u8, kind: u8) -> usize
    ensures { (result ≡ ((segment * 100 + field) * 21 + component) * 7 + kind) × (result ≤ 4000000) }
{
    let place = ((segment as usize) * 100 + field as usize) * 21 + component as usize;
    place * 7 + kind as usize
}

// Those that the statement of a line speaks of; 0 where it names no place.
fn spot_at(t: &[u8], line: usize) -> usize
    ensures { (result ≡ spot_of (statement_at t.now line 0)) × (result ≤ 4000000) }
{
    if !is_placed(verb_at(t, line)) {
        return 0;
    }
    let place = place_in(word_of(t, line, 1));
    let kind = kind_number(word_of(t, line, 2));
    spot_number(place.segment, place.field, place.component, kind)
}

// The statement of a line, with the severity that it was given.
pub(crate) fn cell_at<N: CellNumber>(t: &[u8], line: usize, given: u8) -> CellOf<N>
    requires { N.fits (length t.now) × (line ≤ length t.now) }
    ensures { (noted t.now (N.cell result) ≡ statement_at t.now line given) × Marked t.now (N.cell result) }
{
    CellOf {
        line: N::of(line),
        given,
        bound: None,
        verb: verb_at(t, line),
        spot: N::of(spot_at(t, line)),
    }
}
