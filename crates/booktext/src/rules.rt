// The rules of a section whose statements are noted in cells: how many there are, and their bytes.
ghost use Rattle.std.specs.Prelude.{◌≡◌, true, List, [], ◌∷◌, map, ℕ};
ghost use Rattle.grade.specs.Encoding.{each, spell_all, rule_bytes};
ghost use Rattle.ack.specs.Splice.{Wrote};
ghost use Rattle.booktext.specs.Lines.{number_from, makes_rule};
ghost use Rattle.booktext.specs.Words.{place_in, is_place};
ghost use Rattle.booktext.specs.Contents.{letter_of, made, rules_of};
ghost use Rattle.booktext.specs.Standing.{CountsRules, noted, Marks, names_in, ready, place_bytes, bound_bytes};

use crate::cell::{CellNumber, CellOf, SmallCell};
use crate::line::word_of;
use crate::names::Names;
use crate::statement::verb_at;
use crate::word::{CODE_KIND, LENGTH_KIND, TIME_KIND, is_rule, kind_number, number_in, place_in};
use ack::output::{put, put_byte};
use hl7::bytes::{byte_at, front, pick};

// ---- how many
pub(crate) fn count_rules(cells: &[SmallCell]) -> usize
    ensures { (t : List ℕ) → Marks t cells.now → CountsRules (map (noted t) cells.now) result }
{
    cells.iter().filter(|cell| is_rule(cell.verb)).count()
}

// ---- bytes
// The severity that a section gives a statement, else its own.
pub fn letter_of<N: CellNumber>(t: &[u8], cell: CellOf<N>) -> u8
    ensures { result ≡ letter_of (noted t.now (N.cell cell)) }
{
    if cell.given == 0 {
        return byte_at(word_of(t, cell.line.get(), 3), 0);
    }
    cell.given
}

// Set number, low, high: 0 where the kind does not use them.
fn put_bound(out: &mut [u8], at: usize, kind: u8, set: u8, low: u8, high: u8) -> usize
    ensures { Wrote out.old at (bound_bytes kind set low high) out.new result }
{
    let second = put_byte(out, at, pick(kind == CODE_KIND, set, 0));
    let timed = (kind == LENGTH_KIND) | (kind == TIME_KIND);
    let third = put_byte(out, second, pick(timed, low, 0));
    put_byte(out, third, pick(kind == LENGTH_KIND, high, 0))
}

// The number of the set with a name, 0 for none.
fn set_number(t: &[u8], name: &[u8], names: &Names) -> u8
    ensures { result ≡ number_from 1 name.now (names_in t.now names.now) }
{
    names.number_of(t, name) as u8
}

// Segment name, field, component.
fn put_place(out: &mut [u8], at: usize, w: &[u8]) -> usize
    requires { is_place w.now ≡ true }
    ensures { Wrote out.old at (place_bytes (place_in w.now)) out.new result }
{
    let place = place_in(w);
    let second = put(out, at, front(w, 3));
    let third = put_byte(out, second, place.field);
    put_byte(out, third, place.component)
}

// The ten bytes of a rule.
fn put_rule(out: &mut [u8], at: usize, t: &[u8], cell: SmallCell, names: &Names) -> usize
    requires { (ready (noted t.now cell) ≡ true) × (makes_rule (noted t.now cell) ≡ true) }
    ensures { Wrote out.old at (rule_bytes (made (names_in t.now names.now) (noted t.now cell))) out.new result }
{
    let bound = cell.bound_at(t);
    let first = word_of(t, bound, 0);
    let kind = kind_number(word_of(t, cell.line as usize, 2));
    let set = set_number(t, first, names);
    let low = number_in(first);
    let high = number_in(word_of(t, bound, 1));
    let second = put_place(out, at, word_of(t, cell.line as usize, 1));
    let third = put_byte(out, second, kind);
    let fourth = put_byte(out, third, letter_of(t, cell));
    put_bound(out, fourth, kind, set, low, high)
}

// The rules of the statements in the cells.
pub(crate) fn put_rules(
    out: &mut [u8],
    at: usize,
    t: &[u8],
    cells: &[SmallCell],
    names: &Names,
) -> usize
    requires { (each ready (map (noted t.now) cells.now) ≡ true) }
    ensures { Wrote out.old at (spell_all rule_bytes (rules_of (names_in t.now names.now) (map (noted t.now) cells.now))) out.new result }
{
    let mut to = at;
    for &cell in cells {
        to = put_made(out, to, t, cell, names);
    }
    put(out, to, b"")
}

// The rule of a statement, where it makes one.
fn put_made(out: &mut [u8], at: usize, t: &[u8], cell: SmallCell, names: &Names) -> usize
    requires { (ready (noted t.now cell) ≡ true) }
    ensures { Wrote out.old at (spell_all rule_bytes (rules_of (names_in t.now names.now) (noted t.now cell ∷ []))) out.new result }
{
    if is_rule(verb_at(t, cell.line as usize)) {
        return put_rule(out, at, t, cell, names);
    }
    put(out, at, b"")
}
