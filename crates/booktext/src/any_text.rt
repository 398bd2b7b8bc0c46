// Cells that hold whole positions: what each call promises of them, and asks, for a text of any length; and a section noted in them.
ghost use Rattle.std.specs.Prelude.{◌≡◌, true, ◌&&◌, List, ℕ, ◌<◌, map, eqb, length, drop};
ghost use Rattle.booktext.specs.Lines.{statements, makes_rule};
ghost use Rattle.booktext.specs.Meaning.{expand};
ghost use Rattle.booktext.specs.Changes.{amended, dropped};
ghost use Rattle.booktext.specs.Contents.{letter_of};
ghost use Rattle.booktext.specs.Refusals.{statement_limit};
ghost use Rattle.booktext.specs.Standing.{words_from, body_from, Heads, noted, Marks, Holds};

use crate::cell::{Cell, NO_CELL};
use crate::change::{amended, is_dropped};
use crate::heads::note_heads;
use crate::line::word_of;
use crate::rules::letter_of;
use crate::section::{STATEMENT_LIMIT, note_section};
use crate::word::{DROP, is_rule};
use hl7::bytes::same_bytes;

fn note_any(t: &[u8], heads: &[usize], rest: usize, cells: &mut [Cell], start: usize) -> usize
    requires { Heads t.now heads.now rest × (length cells.old ≡ statement_limit) }
    ensures { Holds t.now cells.new result (expand (statements t.now) (body_from t.now start)) }
{
    note_section(t, heads, rest, cells, start)
}

fn says_any(cell: Cell, verb: u8, spot: usize) -> bool
    ensures { result ≡ (eqb cell.verb verb && eqb cell.spot spot) }
{
    cell.says_of(verb, spot)
}

fn bound_any(cell: Cell, t: &[u8]) -> usize
    ensures { makes_rule (noted t.now cell) ≡ true → words_from t.now result ≡ drop 4 (noted t.now cell).words }
{
    cell.bound_at(t)
}

fn letter_any(t: &[u8], cell: Cell) -> u8
    ensures { result ≡ letter_of (noted t.now cell) }
{
    letter_of(t, cell)
}

fn dropped_any(cells: &[Cell], spot: usize) -> bool
    ensures { (t : List ℕ) → Marks t cells.now → result ≡ dropped spot (map (noted t) cells.now) }
{
    is_dropped(cells, spot)
}

fn amended_any(t: &[u8], rule: Cell, spot: usize, cells: &[Cell]) -> Cell
    requires { (makes_rule (noted t.now rule) ≡ true) × Marks t.now cells.now }
    ensures { (noted t.now result ≡ amended spot (noted t.now rule) (map (noted t.now) cells.now)) × (result.verb ≡ rule.verb) × (result.spot ≡ rule.spot) }
{
    amended(t, rule, spot, cells)
}

// One of a section's rules as the statements after it amend it.
fn amended_at(t: &[u8], cells: &[Cell], i: usize) -> Option<Cell>
    requires { Marks t.now cells.now × (i < length cells.now) }
{
    let rule = cells[i];
    if !is_rule(rule.verb) {
        return None;
    }
    Some(amended_any(t, rule, rule.spot, &cells[i + 1..]))
}

// A use, the rule that it takes over, a rule of the section's own, another bound and another severity for the first, and a drop of it.
#[test]
fn notes_a_section(rt: HostRuntime) {
    let t =
        b"common c\nrule PID-8 LENGTH W 1 9\nsection AX\nuse c E\nrule PID-7 DATE W\nbound PID-8 LENGTH 2 5\nseverity PID-8 LENGTH I\ndrop PID-8 LENGTH\n";
    let mut heads = [0; 4];
    let noted = note_heads(t, &mut heads);
    let mut cells = [NO_CELL; STATEMENT_LIMIT];
    let count = note_any(t, &heads[..noted.count], noted.rest, &mut cells, 44);
    assert_eq!(rt; count, 6);
    let rule = cells[1];
    assert_eq!(rt; rule.line, 9);
    assert_eq!(rt; letter_any(t, rule), b'E');
    assert!(rt; same_bytes(word_of(t, bound_any(rule, t), 0), b"1"));
    assert_eq!(rt; letter_any(t, cells[2]), b'W');
    assert!(rt; says_any(cells[5], DROP, rule.spot));
    assert!(rt; dropped_any(&cells[2..6], rule.spot));
    assert!(rt; !dropped_any(&cells[2..5], rule.spot));
    let left = amended_at(t, &cells[..count], 1).expect(&rt, "a rule");
    assert_eq!(rt; left.line, 9);
    assert_eq!(rt; letter_any(t, left), b'I');
    assert!(rt; same_bytes(word_of(t, bound_any(left, t), 0), b"2"));
}
