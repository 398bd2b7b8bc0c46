// The grader: where it stands, and the next finding.
ghost use Rattle.std.specs.Prelude.{◌≡◌, true, ◌+◌, ◌≤◌, ◌<◌, length};
ghost use Rattle.hl7.specs.Refusals.{message_limit};
ghost use Rattle.grade.specs.Limits.{field_places, segment_count};
ghost use Rattle.grade.specs.Standing.{Holds, rules_in};
ghost use Rattle.grade.specs.Linked.{Linked};
ghost use Rattle.grade.specs.Order.{name_of, out_of_order, table_says};
ghost use Rattle.grade.specs.Rest.{Given, Parted, grade_from, CountsStand, grade_rest, rest, Stands, between_at, cursor_at_start, moved_to, end_entered, Enters, Opens, Steps};

use crate::finding::Finding;
use crate::header::{Header, any_wrong, first_wrong, later_wrong, none_wrong};
use crate::limits::{LINKS, NAME_PLACES, SET_PLACES};
use crate::lookup::link_at;
use crate::order::out_of_order;
use crate::rule::name_of_letters;
use crate::walk::Section;
use crate::within::{Field, Here, Spot, first_spot, next_within, order_finding};
use hl7::bytes::{byte_at, pick};
use hl7::cut::{find_far, none_is};
use hl7::place::{Delims, note_fields};

// By what a message is graded: its delimiters, the section of the book that it names, and what its header says.
#[derive(Clone, Copy)]
pub struct Terms {
    pub d: Delims,
    pub section: Section,
    pub header: Header,
}

// Where the grader stands: the header checks whose findings are still to come; in a segment, at a spot of it; then where the next segment begins, and the
// last counted name.
#[derive(Clone, Copy)]
pub struct Cursor {
    pub header: Header,
    pub here: Here,
    pub spot: Spot,
    pub next: usize,
    pub last: usize,
}

// The next segment of a counted name: what its order gives, if it is broken there, and where its rules are judged; or the end. Three ways, and not the
// two of an Option.
#[derive(Clone, Copy)]
pub enum Entered {
    Order(Finding, Cursor),
    Rules(Cursor),
    End,
}

// How many parts of a segment are noted, and whether it has no tilde.
#[derive(Clone, Copy)]
pub struct Marks {
    pub count: usize,
    pub single: bool,
}

// The number of a segment's name.
fn name_of(seg: &[u8]) -> usize
    ensures { result ≡ name_of seg.now }
{
    usize::from(name_of_letters(byte_at(seg, 0), byte_at(seg, 1), byte_at(seg, 2)))
}

// A cursor between two segments: nothing is left of the one before.
fn between(header: Header, section: Section, next: usize, last: usize) -> Cursor
    ensures { result ≡ between_at header section.rule_count next last }
{
    Cursor {
        header,
        here: Here {
            start: 0,
            end: 0,
            name: 2,
            ordinal: 0,
            count: 0,
            single: false,
        },
        spot: first_spot(section.rule_count),
        next,
        last,
    }
}

// Before the first finding. Behind the last segment and with no name before, nothing follows the header's findings.
pub fn start(by: Terms, m: &[u8]) -> Cursor
    ensures { result ≡ cursor_at_start by.header by.section.rule_count (length m.now) }
{
    let next = pick(any_wrong(by.header), m.len(), 0);
    between(by.header, by.section, next, 11)
}

// The end of the message. No name comes after it, so that its finding comes once.
fn finish(table: &[[bool; 11]; 10], section: Section, end: usize, last: usize) -> Entered
    ensures { result ≡ end_entered (out_of_order (table_says table.now)) section.rule_count end last }
{
    if out_of_order(table, last, 0) {
        return Entered::Order(order_finding(0, 0), between(none_wrong(), section, end, 11));
    }
    Entered::End
}

// Notes where the parts of a segment begin, if it has rules.
fn note_segment(d: Delims, seg: &[u8], some: bool, starts: &mut [usize]) -> Marks
    requires { 1 ≤ length starts.old }
    ensures { some ≡ true → Parted d seg.now starts.new result.count result.single }
{
    if some {
        let count = note_fields(d, seg, starts);
        return Marks {
            count,
            single: none_is(seg, d.tilde),
        };
    }
    Marks {
        count: 0,
        single: false,
    }
}

// The segment of a counted name from at to stop, after the counted name last: its parts are noted once, and only if it has rules, of which first is the first.
fn enter(
    table: &[[bool; 11]; 10],
    by: Terms,
    m: &[u8],
    first: usize,
    starts: &mut [usize],
    at: usize,
    stop: usize,
    name: usize,
    ordinal: u32,
    last: usize,
) -> Entered
    requires { (at ≤ stop) × (stop < length m.now) × (1 ≤ length starts.old) × (name ≤ segment_count) }
    ensures { Enters (out_of_order (table_says table.now)) by.d m.now starts.new by.section.rule_count first at stop name ordinal last result }
{
    let some = first < by.section.rule_count;
    let marks = note_segment(by.d, &m[at..stop], some, starts);
    let cursor = Cursor {
        header: none_wrong(),
        here: Here {
            start: at,
            end: stop,
            name,
            ordinal,
            count: marks.count,
            single: marks.single,
        },
        // written out: a call here would send every finding's cursor through memory
        spot: Spot {
            rule: first,
            at: 0,
            passed: 0,
            field: Field {
                codes: 0,
                start: 0,
                end: 0,
            },
        },
        next: stop + 1,
        last: name,
    };
    if out_of_order(table, last, name) {
        return Entered::Order(order_finding(name, ordinal), cursor);
    }
    Entered::Rules(cursor)
}

// The next segment of a counted name, from a position on, after the counted name last; or the end.
fn open_segment(
    table: &[[bool; 11]; 10],
    by: Terms,
    m: &[u8],
    book: &[u8],
    links: &[u16; LINKS],
    starts: &mut [usize],
    counts: &mut [u32; NAME_PLACES],
    from: usize,
    last: usize,
) -> Entered
    requires { (length m.now ≤ message_limit) × Holds book.now by.section × Linked (rules_in book.now by.section) links.now × CountsStand m.now from counts.old × (field_places ≤ length starts.old) }
    ensures { Opens (out_of_order (table_says table.now)) by.d m.now book.now by.section starts.new counts.new from (grade_from (out_of_order (table_says table.now)) by.d m.now book.now by.section from last counts.old) result }
{
    let end = m.len();
    let mut at = from;
    loop {
        let stop = find_far(m, b'\r', at);
        if end <= stop {
            return finish(table, by.section, end, last);
        }
        let name = name_of(&m[at..stop]);
        if name <= 10 {
            let ordinal = counts[name] + 1;
            counts[name] = ordinal;
            let first = link_at(links, name);
            return enter(table, by, m, first, starts, at, stop, name, ordinal, last);
        }
        at = stop + 1;
    }
}

// The cursor at a spot of its segment, with the header checks that are left.
fn moved(c: Cursor, header: Header, spot: Spot) -> Cursor
    ensures { result ≡ moved_to c header spot }
{
    Cursor { header, spot, ..c }
}

// The next finding of the order and of the rules, or the end.
fn next_graded(
    table: &[[bool; 11]; 10],
    by: Terms,
    m: &[u8],
    book: &[u8],
    sets: &[usize; SET_PLACES],
    links: &[u16; LINKS],
    starts: &mut [usize],
    counts: &mut [u32; NAME_PLACES],
    cursor: Cursor,
) -> Option<(Finding, Cursor)>
    requires { Given m.now book.now by.section sets.now links.now × Stands by.d m.now book.now by.section starts.old counts.old cursor × (field_places ≤ length starts.old) }
    ensures { Steps (out_of_order (table_says table.now)) by.d m.now book.now by.section starts.new counts.new (grade_rest (out_of_order (table_says table.now)) by.d m.now book.now by.section counts.old cursor) result }
{
    let mut c = cursor;
    loop {
        if let Some((finding, spot)) = next_within(
            by.d, m, book, by.section, sets, links, starts, c.here, c.spot,
        ) {
            return Some((finding, moved(c, none_wrong(), spot)));
        }
        match open_segment(table, by, m, book, links, starts, counts, c.next, c.last) {
            Entered::Order(finding, then) => {
                return Some((finding, then));
            }
            Entered::Rules(then) => {
                c = then;
            }
            Entered::End => {
                return None;
            }
        }
    }
}

// The next finding by a follow table, or the end: of the header first, one test that fails nearly always. The section's sets stand at the places that
// `sets_of` gave, and its rules are linked as `links_of` did. The parts of the present segment are noted in starts, and the segments of each name are
// counted, from zeros at the start.
pub fn next(
    table: &[[bool; 11]; 10],
    by: Terms,
    m: &[u8],
    book: &[u8],
    sets: &[usize; SET_PLACES],
    links: &[u16; LINKS],
    starts: &mut [usize],
    counts: &mut [u32; NAME_PLACES],
    cursor: Cursor,
) -> Option<(Finding, Cursor)>
    requires { Given m.now book.now by.section sets.now links.now × Stands by.d m.now book.now by.section starts.old counts.old cursor × (field_places ≤ length starts.old) }
    ensures { Steps (out_of_order (table_says table.now)) by.d m.now book.now by.section starts.new counts.new (rest (out_of_order (table_says table.now)) by.d m.now book.now by.section counts.old cursor) result }
{
    if any_wrong(cursor.header) {
        let left = later_wrong(cursor.header);
        return Some((first_wrong(cursor.header), moved(cursor, left, cursor.spot)));
    }
    next_graded(table, by, m, book, sets, links, starts, counts, cursor)
}
