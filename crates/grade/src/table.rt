// Grading into a table of records that the caller lends.
ghost use Rattle.std.specs.Prelude.{◌≡◌, false, ◌≤◌, ◌<◌, ◌+◌, ◌*◌, length, set, take};
ghost use Rattle.std.proofs.lemmas.List.Edits.{sets};
ghost use Rattle.grade.specs.Admission.{paper};
ghost use Rattle.grade.specs.Table.{grade_into};
ghost use Rattle.grade.specs.Sheet.{line_count, finding_limit, held, Sheeted};
ghost use Rattle.grade.specs.Filling.{all_from, Fills};

use crate::admit::admit;
use crate::book::index_book;
use crate::finding::Finding;
use crate::limits::SECTION_LIMIT;
use crate::refusal::{Answer, Refusal};
use crate::sheet::{Sheet, first_sheet, list_behind, next_sheet};

// How many findings there are, the first sheet given: those behind it are counted and not noted.
fn count_findings(m: &[u8], book: &[u8], first: Sheet) -> usize
    requires { Sheeted m.now book.now first × (first.brief ≡ false) × (length (all_from m.now book.now first) ≤ finding_limit) }
    ensures { result ≡ length (all_from m.now book.now first) }
{
    if first.ended {
        return first.used;
    }
    first.used + list_behind(m, book, &first, true).used
}

// Sets records from one on by a sheet.
fn store_sheet(table: &mut [Finding], from: usize, sheet: Sheet)
    requires { (from + sheet.used ≤ length table.old) × (sheet.used ≤ length sheet.lines) }
    ensures { table.new ≡ sets table.old from (held sheet) }
{
    table[from..from + sheet.used].copy_from_slice(&sheet.lines[..sheet.used]);
}

// Sets the first so many records, all findings from a sheet on or none.
fn fill(table: &mut [Finding], m: &[u8], book: &[u8], first: Sheet, count: usize)
    requires { (count ≤ length table.old) × (1 ≤ count → Fills m.now book.now first count) }
    ensures { table.new ≡ sets table.old 0 (take count (all_from m.now book.now first)) }
{
    let mut sheet = first;
    let mut at: usize = 0;
    while at < count {
        store_sheet(table, at, sheet);
        at += sheet.used;
        sheet = next_sheet(m, book, sheet);
    }
}

// Grades a message by a book into a table, and answers the number of findings, which the first records then hold, or the first of refusals 1 to 9 and 12 that
// applies, which alters nothing.
pub fn grade(m: &[u8], book: &[u8], table: &mut [Finding]) -> Answer
    ensures { (paper result ≡ (grade_into m.now book.now table.old).told) × (table.new ≡ (grade_into m.now book.now table.old).table) }
{
    let room = table.len();
    let mut sections = [0usize; SECTION_LIMIT];
    let indexed = index_book(book, &mut sections);
    let terms = admit(m, book, &sections, indexed)?;
    let first = first_sheet(false, terms, m, book);
    let found = count_findings(m, book, first);
    if room < found {
        return Err(Refusal::ShortTable(found));
    }
    fill(table, m, book, first, found);
    Ok(found)
}
