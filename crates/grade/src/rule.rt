// One rule: a place, a severity and one of six kinds, and the ten bytes that say it.
ghost use Rattle.std.specs.Prelude.{◌≡◌, ◌+◌, ◌<◌, ◌≤◌, length, get_or};
ghost use Rattle.std.proofs.Math.Seq.{slice};
ghost use Rattle.grade.specs.Limits.{rule_size};
ghost use Rattle.grade.specs.Standing.{letters_number, letters_of};
ghost use Rattle.grade.specs.Rule.{name_of_letters, first_field, place_fits, severity_of, severity_letter, kind_of, unused_zero, time_digits, kind_fits, error_code, rule_said, rule_of, is_rule};

use crate::limits::{COMPONENT_LIMIT, FIELD_LIMIT, SEGMENT_COUNT};
use hl7::bytes::is_within;

#[derive(Clone, Copy, PartialEq, Eq)]
pub enum Severity {
    Error,
    Warning,
    Informational,
}

#[derive(Clone, Copy, PartialEq, Eq)]
pub enum Kind {
    Required,
    Length { low: u8, high: u8 },
    Number,
    Date,
    Time { digits: u8 },
    Code { set: u8 },
}

// A segment's name by its number: 1 to 10 the names that count, 11 any other; 0 is the message's end, which has none.
// It stays a number, as in the findings that other languages read.
#[derive(Clone, Copy, PartialEq, Eq)]
pub struct Place {
    pub segment: u8,
    pub field: u8,
    pub component: u8,
}

#[derive(Clone, Copy, PartialEq, Eq)]
pub struct Rule {
    pub place: Place,
    pub severity: Severity,
    pub kind: Kind,
}

// The ten names that count, each by its three letters as one number.
const MSH: u32 = 0x4D5348;

const PID: u32 = 0x504944;

const PD1: u32 = 0x504431;

const NK1: u32 = 0x4E4B31;

const PV1: u32 = 0x505631;

const ORC: u32 = 0x4F5243;

const RXA: u32 = 0x525841;

const RXR: u32 = 0x525852;

const OBX: u32 = 0x4F4258;

const NTE: u32 = 0x4E5445;

// Three letters as one number.
fn letters(a: u8, b: u8, c: u8) -> u32
    ensures { result ≡ letters_number a b c }
{
    u32::from(a) * 65536 + u32::from(b) * 256 + u32::from(c)
}

// The number of the name with these three letters.
pub fn name_of_letters(a: u8, b: u8, c: u8) -> u8
    ensures { (result ≡ name_of_letters a b c) × (result ≤ 11) }
{
    match letters(a, b, c) {
        MSH => 1,
        PID => 2,
        PD1 => 3,
        NK1 => 4,
        PV1 => 5,
        ORC => 6,
        RXA => 7,
        RXR => 8,
        OBX => 9,
        NTE => 10,
        _ => 11,
    }
}

// The letters of a name as one number; 0 where the number is none of the ten.
#[tactic(auto, unfolding(crate::specs::Rule::name_bytes, crate::specs::Rule::segment_names))]
pub fn letters_of(name: u8) -> u32
    ensures { (result ≡ letters_of name) × (result < 16777216) }
{
    match name {
        1 => MSH,
        2 => PID,
        3 => PD1,
        4 => NK1,
        5 => PV1,
        6 => ORC,
        7 => RXA,
        8 => RXR,
        9 => OBX,
        10 => NTE,
        _ => 0,
    }
}

fn first_field(segment: u8) -> u8
    ensures { result ≡ first_field segment }
{
    if segment == 1 {
        return 3;
    }
    1
}

#[tactic(auto, unfolding(crate::specs::Rule::place_fits))]
pub fn place_fits(place: Place) -> bool
    ensures { result ≡ place_fits place }
{
    let counted = is_within(place.segment, 1, SEGMENT_COUNT);
    let inside = is_within(place.field, first_field(place.segment), FIELD_LIMIT);
    counted & inside & (place.component <= COMPONENT_LIMIT)
}

// The severity that a letter stands for: no TryFrom, since nobody asks why a letter stands for none.
#[tactic(auto, unfolding(crate::specs::Rule::severity_of))]
fn severity_of(letter: u8) -> Option<Severity>
    ensures { result ≡ severity_of letter }
{
    match letter {
        b'E' => Some(Severity::Error),
        b'W' => Some(Severity::Warning),
        b'I' => Some(Severity::Informational),
        _ => None,
    }
}

// Its letter. A function, as `error_code` is: `From` would have to say the same by another word.
pub fn severity_letter(severity: Severity) -> u8
    ensures { result ≡ severity_letter severity }
{
    match severity {
        Severity::Error => b'E',
        Severity::Warning => b'W',
        Severity::Informational => b'I',
    }
}

// The kind with a number, made of the rule's last three bytes.
#[tactic(auto, unfolding(crate::specs::Rule::kind_of))]
fn kind_of(number: u8, set: u8, low: u8, high: u8) -> Option<Kind>
    ensures { result ≡ kind_of number set low high }
{
    match number {
        1 => Some(Kind::Required),
        2 => Some(Kind::Length { low, high }),
        3 => Some(Kind::Number),
        4 => Some(Kind::Date),
        5 => Some(Kind::Time { digits: low }),
        6 => Some(Kind::Code { set }),
        _ => None,
    }
}

// Whether those of the three bytes that a kind does not use are 0.
fn unused_zero(kind: Kind, set: u8, low: u8, high: u8) -> bool
    ensures { result ≡ unused_zero kind set low high }
{
    match kind {
        Kind::Required | Kind::Number | Kind::Date => (set == 0) & (low == 0) & (high == 0),
        Kind::Length { .. } => set == 0,
        Kind::Time { .. } => (set == 0) & (high == 0),
        Kind::Code { .. } => (low == 0) & (high == 0),
    }
}

pub fn time_digits(n: u8) -> bool
    ensures { result ≡ time_digits n }
{
    matches!(n, 4 | 6 | 8 | 10 | 12 | 14)
}

// Whether a kind is within its limits, in a section with so many sets.
fn kind_fits(sets: u8, kind: Kind) -> bool
    ensures { result ≡ kind_fits sets kind }
{
    match kind {
        Kind::Required | Kind::Number | Kind::Date => true,
        Kind::Length { low, high } => is_within(low, 1, high),
        Kind::Time { digits } => time_digits(digits),
        Kind::Code { set } => is_within(set, 1, sets),
    }
}

// The code that ERR-3 gives where a rule of the kind is broken.
pub(crate) fn error_code(kind: Kind) -> u16
    ensures { result ≡ error_code kind }
{
    match kind {
        Kind::Required => 101,
        Kind::Length { .. } | Kind::Number | Kind::Date | Kind::Time { .. } => 102,
        Kind::Code { .. } => 103,
    }
}

// The number of the name with which a rule's ten bytes at a position begin.
pub(crate) fn name_at(book: &[u8], at: usize) -> u8
    requires { at + rule_size ≤ length book.now }
    ensures { result ≡ name_of_letters (get_or book.now at 0) (get_or book.now (at + 1) 0) (get_or book.now (at + 2) 0) }
{
    name_of_letters(book[at], book[at + 1], book[at + 2])
}

// The place, the severity and the kind that the ten bytes at a position say, whose name is known: with the name left to its callers it is small enough to
// be inlined in both.
pub(crate) fn rule_said(book: &[u8], at: usize, segment: u8) -> Option<Rule>
    requires { (at + rule_size ≤ length book.now) × (segment ≡ name_of_letters (get_or book.now at 0) (get_or book.now (at + 1) 0) (get_or book.now (at + 2) 0)) }
    ensures { result ≡ rule_said (slice at (at + rule_size) book.now) }
{
    let place = Place {
        segment,
        field: book[at + 3],
        component: book[at + 4],
    };
    let severity = severity_of(book[at + 6])?;
    let kind = kind_of(book[at + 5], book[at + 7], book[at + 8], book[at + 9])?;
    Some(Rule {
        place,
        severity,
        kind,
    })
}

// Whether they say a rule, in a section with so many sets: all is within its limits.
pub(crate) fn rule_stands(book: &[u8], at: usize, sets: u8) -> bool
    requires { at + rule_size ≤ length book.now }
    ensures { result ≡ is_rule (rule_of sets (slice at (at + rule_size) book.now)) }
{
    let Some(rule) = rule_said(book, at, name_at(book, at)) else {
        return false;
    };
    place_fits(rule.place)
        & kind_fits(sets, rule.kind)
        & unused_zero(rule.kind, book[at + 7], book[at + 8], book[at + 9])
}
