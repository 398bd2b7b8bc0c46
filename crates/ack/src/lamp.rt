// The lamp: only whether a message would get AA.
ghost use Rattle.std.specs.Prelude.{◌≡◌, ◌≤◌, length};
ghost use Rattle.hl7.specs.Place.{delims_of};
ghost use Rattle.hl7.specs.Refusals.{message_limit};
ghost use Rattle.grade.specs.Admission.{paper};
ghost use Rattle.grade.specs.Standing.{Holds};
ghost use Rattle.grade.specs.Rest.{findings_in};
ghost use Rattle.ack.specs.Lamp.{gets_aa, lamp_of};

use grade::admit::admit_stamped;
use grade::book::index_book;
use grade::header::any_wrong;
use grade::limits::SECTION_LIMIT;
use grade::refusal::Answer;
use grade::sheet::{first_sheet, next_sheet};
use grade::step::Terms;

// Whether a message gets AA: a header finding decides before any rule is looked up, and then the first E or W, at which the sheets end.
fn gets_aa(by: Terms, m: &[u8], book: &[u8]) -> bool
    requires { (length m.now ≤ message_limit) × Holds book.now by.section × (by.d ≡ delims_of m.now) }
    ensures { result ≡ gets_aa (findings_in book.now by.section by.header m.now) }
{
    if any_wrong(by.header) {
        return false;
    }
    let mut sheet = first_sheet(true, by, m, book);
    while !sheet.ended {
        sheet = next_sheet(m, book, sheet);
    }
    !sheet.fault
}

// Whether a message would get AA by a book: 1 or 0, or the first of refusals 1 to 10 that applies.
pub fn lamp(m: &[u8], book: &[u8], stamp: &[u8]) -> Answer
    ensures { paper result ≡ lamp_of m.now book.now stamp.now }
{
    let mut sections = [0usize; SECTION_LIMIT];
    let indexed = index_book(book, &mut sections);
    let by = admit_stamped(m, book, &sections, indexed, stamp)?;
    Ok(usize::from(gets_aa(by, m, book)))
}
