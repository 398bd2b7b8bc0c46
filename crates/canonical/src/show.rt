// The canonical text of a book.
ghost use Rattle.std.specs.Prelude.{◌≡◌, true, false, cond, [], ◌∷◌, map, ◌≤◌, ◌<◌, length, get_or, take, set};
ghost use Rattle.hl7.specs.Text.{bytes};
ghost use Rattle.hl7.specs.Bytes.{all, is_in};
ghost use Rattle.grade.specs.Reader.{is_found, items_of, times};
ghost use Rattle.grade.specs.Book.{text, decoded, malformed, other_version};
ghost use Rattle.grade.specs.Limits.{code_limit, rule_limit};
ghost use Rattle.grade.specs.Rule.{no_rule, severity_letter};
ghost use Rattle.grade.specs.Encoding.{kind_byte};
ghost use Rattle.grade.specs.declared.rule.Kind.{Kind};
ghost use Rattle.grade.specs.Standing.{text_at, TextFits, stands_at, contents_at, rules_in, sets_in, Holds, SetStands, codes_at};
ghost use Rattle.ack.specs.Splice.{Wrote};
ghost use Rattle.ack.specs.Output.{Adds};
ghost use Rattle.ack.specs.Layout.{marked};
ghost use Rattle.booktext.specs.Faults.{told_of};
ghost use Rattle.booktext.specs.Refusals.{written};
ghost use Rattle.canonical.specs.Shown.{line_bytes, printed, set_name, code_line, set_lines, place_word, kind_word, bound_words, rule_spot, rule_line, rule_lines, section_lines, book_lines, shown, show_of};
ghost use Rattle.canonical.specs.Showing.{names_from, pin_bytes, line_of_rule};

use ack::layout::{put_component, put_name};
use ack::output::Output;
use booktext::cell::spot_number;
use booktext::told::{Row, Told};
use grade::book::{Unusable, index_book, site_at};
use grade::limits::{RULE_LIMIT, SECTION_LIMIT};
use grade::lookup::{rule_at, sets_of};
use grade::rule::{Kind, Place, Rule, Severity};
use grade::walk::{Section, pair_at, text_after, text_part};

const LINE_FEED: u8 = 10;

// ---- sets
// A set's name: key, slash, number.
fn put_set_name(out: &mut Output<'_>, key: &[u8], n: usize)
    ensures { Adds out.old (set_name key.now n) out.new }
{
    out.put(key);
    out.put_number(b'/', n);
}

// The line of the code at a position.
fn put_code(out: &mut Output<'_>, book: &[u8], from: usize)
    requires { TextFits book.now from }
    ensures { Adds out.old (line_bytes (code_line (text_at book.now from))) out.new }
{
    out.put(b"code ");
    out.put(text_part(book, from));
    out.put_byte(LINE_FEED);
}

// Those of count codes that stand at start.
fn put_codes(out: &mut Output<'_>, book: &[u8], start: usize, count: usize)
    requires { is_found (times count (text code_limit) book.now start) ≡ true }
    ensures { Adds out.old (printed (map code_line (items_of (times count (text code_limit) book.now start)))) out.new }
{
    let mut from = start;
    for _i in 0..count {
        put_code(out, book, from);
        from = text_after(book, from);
    }
}

// The set at a position, by its number in its section.
fn put_set(out: &mut Output<'_>, book: &[u8], start: usize, key: &[u8], n: usize)
    requires { SetStands book.now start }
    ensures { Adds out.old (printed ((bytes "set" ∷ set_name key.now n ∷ []) ∷ map code_line (codes_at book.now start))) out.new }
{
    out.put(b"set ");
    put_set_name(out, key, n);
    out.put_byte(LINE_FEED);
    put_codes(out, book, start + 2, pair_at(book, start));
}

// The sets of a section with a key.
fn put_sets(out: &mut Output<'_>, book: &[u8], section: Section, key: &[u8])
    requires { Holds book.now section }
    ensures { Adds out.old (printed (set_lines key.now 1 (sets_in book.now section))) out.new }
{
    let places = sets_of(book, section);
    for (i, place) in places[..section.set_count as usize].iter().enumerate() {
        put_set(out, book, *place, key, i + 1);
    }
}

// ---- the line that fixes their order
// One name, with a blank in front.
fn put_named(out: &mut Output<'_>, key: &[u8], n: usize)
    ensures { Adds out.old (32 ∷ set_name key.now n) out.new }
{
    out.put_byte(b' ');
    put_set_name(out, key, n);
}

// Those of count sets.
fn put_names(out: &mut Output<'_>, key: &[u8], count: usize)
    ensures { Adds out.old (marked 32 (names_from key.now 1 count)) out.new }
{
    for i in 0..count {
        put_named(out, key, i + 1);
    }
}

// The line, if there are any.
fn put_pin(out: &mut Output<'_>, key: &[u8], count: usize)
    ensures { Adds out.old (pin_bytes key.now count) out.new }
{
    if count != 0 {
        out.put(b"sets");
        put_names(out, key, count);
        out.put_byte(LINE_FEED);
    }
}

// ---- rules, the words after the first each with a blank in front
// The first word: whether a rule of its place and kind stands before it.
fn put_verb(out: &mut Output<'_>, again: bool)
    ensures { Adds out.old (cond again (bytes "also") (bytes "rule")) out.new }
{
    if again {
        out.put(b"also");
    } else {
        out.put(b"rule");
    }
}

pub fn put_place(out: &mut Output<'_>, place: Place)
    ensures { Adds out.old (32 ∷ place_word place) out.new }
{
    out.put_byte(b' ');
    put_name(out, place.segment);
    out.put_number(b'-', place.field as usize);
    put_component(out, b'.', place.component);
}

pub fn put_kind(out: &mut Output<'_>, kind: Kind)
    ensures { Adds out.old (32 ∷ kind_word kind) out.new }
{
    match kind {
        Kind::Required => out.put(b" REQUIRED"),
        Kind::Length { .. } => out.put(b" LENGTH"),
        Kind::Number => out.put(b" NUMBER"),
        Kind::Date => out.put(b" DATE"),
        Kind::Time { .. } => out.put(b" TIME"),
        Kind::Code { .. } => out.put(b" CODE"),
    }
}

pub fn put_severity(out: &mut Output<'_>, severity: Severity)
    ensures { Adds out.old (32 ∷ severity_letter severity ∷ []) out.new }
{
    match severity {
        Severity::Error => out.put(b" E"),
        Severity::Warning => out.put(b" W"),
        Severity::Informational => out.put(b" I"),
    }
}

// Two numbers.
pub fn put_range(out: &mut Output<'_>, low: u8, high: u8)
    ensures { Adds out.old (marked 32 (bound_words [] (Kind.Length low high))) out.new }
{
    out.put_number(b' ', low as usize);
    out.put_number(b' ', high as usize);
}

// Numbers or the set's name.
fn put_bound(out: &mut Output<'_>, key: &[u8], kind: Kind)
    ensures { Adds out.old (marked 32 (bound_words key.now kind)) out.new }
{
    match kind {
        Kind::Length { low, high } => put_range(out, low, high),
        Kind::Time { digits } => out.put_number(b' ', digits as usize),
        Kind::Code { set } => put_named(out, key, set as usize),
        Kind::Required | Kind::Number | Kind::Date => {}
    }
}

// A rule's line.
fn put_rule(out: &mut Output<'_>, key: &[u8], again: bool, rule: Rule)
    ensures { Adds out.old (line_bytes (line_of_rule key.now again rule)) out.new }
{
    put_verb(out, again);
    put_place(out, rule.place);
    put_kind(out, rule.kind);
    put_severity(out, rule.severity);
    put_bound(out, key, rule.kind);
    out.put_byte(LINE_FEED);
}

// A kind's number in a book: its cases carry values, so that none has a number of its own.
fn kind_byte(kind: Kind) -> u8
    ensures { (result ≡ kind_byte kind) × (result ≤ 6) }
{
    match kind {
        Kind::Required => 1,
        Kind::Length { .. } => 2,
        Kind::Number => 3,
        Kind::Date => 4,
        Kind::Time { .. } => 5,
        Kind::Code { .. } => 6,
    }
}

// Place and kind as one number.
pub fn spot_of(rule: Rule) -> usize
    ensures { result ≡ rule_spot rule }
{
    let place = rule.place;
    spot_number(
        place.segment,
        place.field,
        place.component,
        kind_byte(rule.kind),
    )
}

// Whether a number is among some. It leaves the loop at the end only, so that many are looked at together.
fn is_in(spots: &[usize], x: usize) -> bool
    ensures { result ≡ is_in x spots.now }
{
    let mut any = false;
    for spot in spots {
        any = any | (x == *spot);
    }
    any
}

// The line of the rule with a number; spots are noted of those before it, and then of it.
fn put_noted(
    out: &mut Output<'_>,
    book: &[u8],
    section: Section,
    key: &[u8],
    spots: &mut [usize],
    i: usize,
)
    requires { Holds book.now section × (i < section.rule_count) × (i < length spots.old) }
    ensures { Adds out.old (line_bytes (rule_line key.now (take i spots.old) (get_or (rules_in book.now section) i no_rule))) out.new × (spots.new ≡ set spots.old i (rule_spot (get_or (rules_in book.now section) i no_rule))) }
{
    let rule = rule_at(book, section, i);
    let spot = spot_of(rule);
    let again = is_in(&spots[..i], spot);
    spots[i] = spot;
    put_rule(out, key, again, rule);
}

// The rules of a section with a key.
fn put_rules(out: &mut Output<'_>, book: &[u8], section: Section, key: &[u8], spots: &mut [usize])
    requires { Holds book.now section × (rule_limit ≤ length spots.old) }
    ensures { Adds out.old (printed (rule_lines key.now [] (rules_in book.now section))) out.new }
{
    for i in 0..section.rule_count {
        put_noted(out, book, section, key, spots, i);
    }
}

// ---- sections
// The section at a position: its sets, then itself.
fn put_section(out: &mut Output<'_>, book: &[u8], start: usize, spots: &mut [usize])
    requires { (stands_at book.now start ≡ true) × (rule_limit ≤ length spots.old) }
    ensures { Adds out.old (printed (section_lines (contents_at book.now start))) out.new }
{
    let section = site_at(book, start);
    let key = text_part(book, start);
    put_sets(out, book, section, key);
    out.put(b"section ");
    out.put(key);
    out.put_byte(LINE_FEED);
    put_pin(out, key, section.set_count as usize);
    put_rules(out, book, section, key, spots);
}

// Those at the positions.
fn put_sections(out: &mut Output<'_>, book: &[u8], starts: &[usize], spots: &mut [usize])
    requires { (all (stands_at book.now) starts.now ≡ true) × (rule_limit ≤ length spots.old) }
    ensures { Adds out.old (printed (book_lines (map (contents_at book.now) starts.now))) out.new }
{
    for start in starts {
        put_section(out, book, *start, spots);
    }
}

// The whole text of a book with sections at the positions.
fn put_shown(out: &mut [u8], book: &[u8], starts: &[usize]) -> usize
    requires { all (stands_at book.now) starts.now ≡ true }
    ensures { Wrote out.old 0 (shown (map (contents_at book.now) starts.now)) out.new result }
{
    let mut spots = [0usize; RULE_LIMIT];
    let mut text = Output { bytes: out, at: 0 };
    text.put(b"book 1\n");
    put_sections(&mut text, book, starts, &mut spots);
    text.at
}

// The text into a lent output. It is written onto no byte first, which tells its length.
fn write_shown(book: &[u8], starts: &[usize], output: &mut [u8]) -> Told
    requires { (all (stands_at book.now) starts.now ≡ true) × (decoded book.now ≡ map (contents_at book.now) starts.now) × (malformed book.now ≡ false) × (other_version book.now ≡ false) }
    ensures { (told_of result ≡ (written (shown (decoded book.now)) output.old).told) × (output.new ≡ (written (shown (decoded book.now)) output.old).output) }
{
    let size = put_shown(&mut output[..0], book, starts);
    if output.len() < size {
        return Err(Row::ShortOutput.with(size));
    }
    put_shown(output, book, starts);
    Ok(size)
}

// The canonical text of a book, into a lent output: all of it, or nothing.
pub fn show(book: &[u8], output: &mut [u8]) -> Told
    ensures { (told_of result ≡ (show_of book.now output.old).told) × (output.new ≡ (show_of book.now output.old).output) }
{
    let mut starts = [0usize; SECTION_LIMIT];
    match index_book(book, &mut starts) {
        Ok(count) => write_shown(book, &starts[..count], output),
        Err(Unusable::Malformed) => Err(Row::Malformed.with(0)),
        Err(Unusable::OtherVersion) => Err(Row::OtherVersion.with(0)),
    }
}
