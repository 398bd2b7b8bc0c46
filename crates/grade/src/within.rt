// Judging one segment: its order, its rules, their repetitions.
ghost use Rattle.std.specs.Prelude.{◌≡◌, true, ◌≤◌, ◌<◌, length, get_or};
ghost use Rattle.hl7.specs.Bytes.{all, differs};
ghost use Rattle.hl7.specs.Cut.{end_from};
ghost use Rattle.hl7.specs.Refusals.{message_limit};
ghost use Rattle.grade.specs.Limits.{field_places, rule_limit, segment_count};
ghost use Rattle.grade.specs.Rule.{kind_fits, no_rule};
ghost use Rattle.grade.specs.Standing.{Holds, Placed, rules_in, sets_in};
ghost use Rattle.grade.specs.Findings.{value_finding, order_finding};
ghost use Rattle.grade.specs.Rest.{CodesStand, CodesAre, broken_from, NextValue, first_spot, bytes_of, HereStands, Parted, Fielded, SpotStands, Given, segment_rest, NextOfRule, NextWithin};

use crate::broken::{breaks_rule, is_required};
use crate::finding::Finding;
use crate::limits::{LINKS, NAME_PLACES, SET_PLACES};
use crate::lookup::{link_at, place_at, rule_named};
use crate::rule::{Kind, Rule, error_code, severity_letter};
use crate::walk::Section;
use hl7::cut::find;
use hl7::place::{Delims, noted_field_span};

// The segment that is being judged: its bytes, its name, and its number among the segments of that name; how many of its parts are noted, and whether
// it is known to have no tilde.
#[derive(Clone, Copy)]
pub struct Here {
    pub start: usize,
    pub end: usize,
    pub name: usize,
    pub ordinal: u32,
    pub count: usize,
    pub single: bool,
}

// Where the codes of a rule's set stand in the book, and where its field stands in the message.
#[derive(Clone, Copy)]
pub struct Field {
    pub codes: usize,
    pub start: usize,
    pub end: usize,
}

// A place among the repetitions of a rule at a segment: the rule, counted from 0, where in its field the next repetition begins, and how many were passed;
// once some were passed, the field is known.
#[derive(Clone, Copy)]
pub struct Spot {
    pub rule: usize,
    pub at: usize,
    pub passed: u32,
    pub field: Field,
}

// A repetition that breaks a rule, and where to look after it.
#[derive(Clone, Copy)]
pub struct Broken {
    pub repetition: u32,
    pub next: usize,
}

// Where the repetition that begins at a position ends: at the field's end, if it has no tilde.
fn repetition_end(fld: &[u8], tilde: u8, single: bool, at: usize) -> usize
    requires { (at ≤ length fld.now) × (single ≡ true → all (differs tilde) fld.now ≡ true) }
    ensures { result ≡ end_from tilde fld.now at }
{
    if single {
        return fld.len();
    }
    find(fld, tilde, at)
}

// The first repetition from a position of a field on that breaks a rule, so many having been passed; single: the field is known to have no tilde.
fn next_value(
    d: Delims,
    fld: &[u8],
    single: bool,
    book: &[u8],
    rule: Rule,
    codes: usize,
    at: usize,
    passed: u32,
) -> Option<Broken>
    requires { (length fld.now ≤ message_limit) × (passed ≤ at) × CodesStand book.now rule.kind codes × (single ≡ true → all (differs d.tilde) fld.now ≡ true) }
    ensures { NextValue d fld.now book.now rule codes (broken_from d fld.now book.now rule codes at passed) result }
{
    let mut from = at;
    let mut done = passed;
    while from <= fld.len() {
        let end = repetition_end(fld, d.tilde, single, from);
        let rep = &fld[from..end];
        if breaks_rule(d, rep, book, rule, codes, done) {
            return Some(Broken {
                repetition: done + 1,
                next: end + 1,
            });
        }
        // REQUIRED is about the first repetition alone
        if is_required(rule.kind) {
            return None;
        }
        done += 1;
        from = end + 1;
    }
    None
}

fn value_finding(here: Here, rule: Rule, i: usize, repetition: u32) -> Finding
    requires { (here.name ≤ segment_count) × (i ≤ rule_limit) }
    ensures { result ≡ value_finding here.name here.ordinal rule i repetition }
{
    Finding {
        name: here.name as u8,
        ordinal: here.ordinal,
        field: rule.place.field,
        repetition,
        component: rule.place.component,
        rule: i as u16,
        code: error_code(rule.kind),
        severity: severity_letter(rule.severity),
    }
}

// Where the codes of a kind's set stand, if it has one.
fn codes_of(book: &[u8], section: Section, sets: &[usize; SET_PLACES], kind: Kind) -> usize
    requires { Holds book.now section × Placed book.now section sets.now × (kind_fits section.set_count kind ≡ true) }
    ensures { CodesAre book.now (sets_in book.now section) kind result }
{
    match kind {
        Kind::Code { set } => place_at(sets, usize::from(set) - 1),
        _ => 0,
    }
}

// Where rule i stands at a segment of its name.
fn open_field(
    d: Delims,
    m: &[u8],
    book: &[u8],
    section: Section,
    sets: &[usize; SET_PLACES],
    starts: &[usize],
    here: Here,
    i: usize,
    rule: Rule,
) -> Field
    requires { Holds book.now section × Placed book.now section sets.now × HereStands m.now here × Parted d (bytes_of m.now here) starts.now here.count here.single × (field_places ≤ length starts.now) × (i < section.rule_count) × ((get_or (rules_in book.now section) i no_rule).place.segment ≡ here.name) × (rule ≡ get_or (rules_in book.now section) i no_rule) }
    ensures { Fielded d m.now book.now section here i result }
{
    let codes = codes_of(book, section, sets, rule.kind);
    let span = noted_field_span(
        d,
        &m[here.start..here.end],
        here.name == 1,
        starts,
        here.count,
        usize::from(rule.place.field),
    );
    Field {
        codes,
        start: here.start + span.start,
        end: here.start + span.end,
    }
}

// Where the rule at a spot stands: known, or found now.
fn field_of(
    d: Delims,
    m: &[u8],
    book: &[u8],
    section: Section,
    sets: &[usize; SET_PLACES],
    starts: &[usize],
    here: Here,
    spot: Spot,
    rule: Rule,
) -> Field
    requires { Holds book.now section × Placed book.now section sets.now × HereStands m.now here × SpotStands d m.now book.now section starts.now here spot × (field_places ≤ length starts.now) × (spot.rule < section.rule_count) × (rule ≡ get_or (rules_in book.now section) spot.rule no_rule) }
    ensures { Fielded d m.now book.now section here spot.rule result }
{
    if 0 < spot.passed {
        return spot.field;
    }
    open_field(d, m, book, section, sets, starts, here, spot.rule, rule)
}

// What the rule at a spot gives next: a finding after which it is asked again, its last one, or none. Each of the three has a name, as an Option within an
// Option would not have.
#[derive(Clone, Copy)]
pub enum Judged {
    Found(Finding, Spot),
    Last(Finding),
    Nothing,
}

// The next finding of the rule at a spot, which is about the segment.
fn at_rule(
    d: Delims,
    m: &[u8],
    book: &[u8],
    section: Section,
    sets: &[usize; SET_PLACES],
    starts: &[usize],
    here: Here,
    spot: Spot,
) -> Judged
    requires { (length m.now ≤ message_limit) × Holds book.now section × Placed book.now section sets.now × HereStands m.now here × SpotStands d m.now book.now section starts.now here spot × (field_places ≤ length starts.now) × (spot.rule < section.rule_count) }
    ensures { NextOfRule d m.now book.now section here spot result }
{
    let rule = rule_named(book, section, spot.rule, here.name as u8);
    let field = field_of(d, m, book, section, sets, starts, here, spot, rule);
    let fld = &m[field.start..field.end];
    match next_value(
        d,
        fld,
        here.single,
        book,
        rule,
        field.codes,
        spot.at,
        spot.passed,
    ) {
        Some(broken) => {
            let finding = value_finding(here, rule, spot.rule + 1, broken.repetition);
            let past = fld.len() < broken.next;
            if past {
                return Judged::Last(finding);
            }
            Judged::Found(
                finding,
                Spot {
                    rule: spot.rule,
                    at: broken.next,
                    passed: broken.repetition,
                    field,
                },
            )
        }
        None => Judged::Nothing,
    }
}

// Before the first repetition of a rule.
pub(crate) fn first_spot(rule: usize) -> Spot
    ensures { result ≡ first_spot rule }
{
    Spot {
        rule,
        at: 0,
        passed: 0,
        field: Field {
            codes: 0,
            start: 0,
            end: 0,
        },
    }
}

// The next finding of a segment: of the rule at the spot, then of the rules after it.
pub(crate) fn next_within(
    d: Delims,
    m: &[u8],
    book: &[u8],
    section: Section,
    sets: &[usize; SET_PLACES],
    links: &[u16; LINKS],
    starts: &[usize],
    here: Here,
    spot: Spot,
) -> Option<(Finding, Spot)>
    requires { Given m.now book.now section sets.now links.now × HereStands m.now here × SpotStands d m.now book.now section starts.now here spot × (field_places ≤ length starts.now) }
    ensures { NextWithin d m.now book.now section starts.now here (segment_rest d m.now book.now section here spot) result }
{
    let mut at = spot;
    while at.rule < section.rule_count {
        match at_rule(d, m, book, section, sets, starts, here, at) {
            Judged::Found(finding, then) => {
                return Some((finding, then));
            }
            Judged::Last(finding) => {
                return Some((finding, first_spot(link_at(links, NAME_PLACES + at.rule))));
            }
            Judged::Nothing => {
                at = first_spot(link_at(links, NAME_PLACES + at.rule));
            }
        }
    }
    None
}

pub(crate) fn order_finding(name: usize, ordinal: u32) -> Finding
    requires { name ≤ segment_count }
    ensures { result ≡ order_finding name ordinal }
{
    Finding {
        name: name as u8,
        ordinal,
        field: 0,
        repetition: 0,
        component: 0,
        rule: 0,
        code: 100,
        severity: b'E',
    }
}
