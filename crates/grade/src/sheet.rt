// A message's findings, sheet by sheet: as many of them as a sheet has lines, and where the grader stands behind them. Every call goes by these sheets, so
// that the grader is asked from one place: with a second one its cursor would go through memory at each finding.
ghost use Rattle.std.specs.Prelude.{◌≡◌, true, false, [], ◌∷◌, ◌++◌, ◌≤◌, ◌<◌, ◌+◌, length, take};
ghost use Rattle.hl7.specs.Place.{delims_of};
ghost use Rattle.hl7.specs.Refusals.{message_limit};
ghost use Rattle.grade.specs.Deciding.{is_fault};
ghost use Rattle.grade.specs.Limits.{field_places};
ghost use Rattle.grade.specs.Order.{out_of_order, table_says};
ghost use Rattle.grade.specs.Standing.{Holds};
ghost use Rattle.grade.specs.Rest.{Given, Stands, rest, findings_in};
ghost use Rattle.grade.specs.Sheet.{line_count, finding_limit, to_come, Ready, Gets, Lists};

use crate::finding::{BLANK, Finding};
use crate::limits::{FIELD_PLACES, LINKS, NAME_PLACES, SET_PLACES};
use crate::lookup::{links_of, sets_of};
use crate::order::follow_table;
use crate::step::{Cursor, Terms, next, start};

// So many findings are on a sheet.
pub const LINES: usize = 64;

// The first lines hold its findings, as many as are used. In brief the sheets end at the first E or W. A fault is one of this sheet's findings or of a
// sheet's before it. What the grader was lent stands here too, for the sheet after this one.
#[derive(Clone, Copy)]
pub struct Sheet {
    pub by: Terms,
    pub brief: bool,
    pub lines: [Finding; LINES],
    pub used: usize,
    pub fault: bool,
    pub ended: bool,
    pub cursor: Cursor,
    pub sets: [usize; SET_PLACES],
    pub links: [u16; LINKS],
    pub starts: [usize; FIELD_PLACES],
    pub counts: [u32; NAME_PLACES],
}

// Whether a finding keeps a message from AA: an E or a W.
pub fn is_fault(finding: Finding) -> bool
    ensures { result ≡ is_fault finding }
{
    (finding.severity == b'E') | (finding.severity == b'W')
}

// One finding more, on the line after those that are used; where all are only counted, none is noted.
fn note(whole: bool, lines: &mut [Finding], used: usize, finding: Finding)
    requires { whole ≡ false → used < length lines.old }
    ensures { whole ≡ false → take (used + 1) lines.new ≡ take used lines.old ++ (finding ∷ []) }
{
    if !whole {
        lines[used] = finding;
    }
}

// The sheet behind one: the next findings, until it is full or nothing more comes; or, of the whole, all of them, which are then counted and not noted.
// The sheet is lent: passed by value it would be copied once more, which a short message's answer shows.
pub(crate) fn list_behind(m: &[u8], book: &[u8], s: &Sheet, whole: bool) -> Sheet
    requires { Ready m.now book.now s.now × (s.now.ended ≡ false) × (whole ≡ true → length (to_come m.now book.now s.now) ≤ finding_limit) }
    ensures { Lists m.now book.now whole s.now result }
{
    let table = follow_table();
    let mut starts = s.starts;
    let mut counts = s.counts;
    let mut lines = s.lines;
    let mut cursor = s.cursor;
    let mut used = 0;
    let mut fault = s.fault;
    while let Some((finding, then)) = next(
        &table,
        s.by,
        m,
        book,
        &s.sets,
        &s.links,
        &mut starts,
        &mut counts,
        cursor,
    ) {
        note(whole, &mut lines, used, finding);
        used += 1;
        fault = fault | is_fault(finding);
        cursor = then;
        let ended = s.brief & fault;
        if ended | (!whole & (LINES <= used)) {
            return Sheet {
                lines,
                used,
                fault,
                ended,
                cursor,
                starts,
                counts,
                ..*s
            };
        }
    }
    Sheet {
        lines,
        used,
        fault,
        ended: true,
        cursor,
        starts,
        counts,
        ..*s
    }
}

// The sheet after one; after the last it is empty.
pub fn next_sheet(m: &[u8], book: &[u8], s: Sheet) -> Sheet
    requires { Ready m.now book.now s }
    ensures { Gets m.now book.now s.by s.brief s.fault (to_come m.now book.now s) result }
{
    if s.ended {
        return Sheet { used: 0, ..s };
    }
    list_behind(m, book, &s, false)
}

// The first sheet of a message's findings by a section of a book.
pub fn first_sheet(brief: bool, by: Terms, m: &[u8], book: &[u8]) -> Sheet
    requires { (length m.now ≤ message_limit) × Holds book.now by.section × (by.d ≡ delims_of m.now) }
    ensures { Gets m.now book.now by brief false (findings_in book.now by.section by.header m.now) result }
{
    let unwritten = Sheet {
        by,
        brief,
        lines: [BLANK; LINES],
        used: 0,
        fault: false,
        ended: false,
        cursor: start(by, m),
        sets: sets_of(book, by.section),
        links: links_of(book, by.section),
        starts: [0; FIELD_PLACES],
        counts: [0; NAME_PLACES],
    };
    list_behind(m, book, &unwritten, false)
}
