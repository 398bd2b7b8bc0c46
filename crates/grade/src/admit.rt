// Refusals 1 to 10, in the order in which they are tried, or by what a message is graded.
ghost use Rattle.std.specs.Prelude.{◌≡◌, true, [], ◌∷◌};
ghost use Rattle.hl7.specs.Noted.{MshNoted};
ghost use Rattle.hl7.specs.Place.{is_msh};
ghost use Rattle.hl7.specs.Refusals.{first_row};
ghost use Rattle.grade.specs.Admission.{has_control_id, control_row, msh_rows, six_rows, admitted_told};
ghost use Rattle.grade.specs.Standing.{Indexes, AdmitsBy, Admits, AdmitsStamped};

use crate::book::{Indexed, open_at};
use crate::date::is_stamp;
use crate::header::{header_of, msh_value};
use crate::refusal::Refusal;
use crate::step::Terms;
use hl7::place::{Delims, MSH_PLACES, delims_of, note_fields, noted_field, segment};
use hl7::refusal::check;

fn has_control_id(d: Delims, msh: &[u8], starts: &[usize], count: usize) -> bool
    requires { MshNoted d msh.now starts.now count }
    ensures { result ≡ has_control_id d msh.now }
{
    let n = noted_field(d, msh, true, starts, count, 10).len();
    (1 <= n) & (n <= 199)
}

// Rows 6 to 9, of a message whose first segment is given: it is cut once.
fn admit_msh(
    d: Delims,
    msh: &[u8],
    book: &[u8],
    sections: &[usize],
    indexed: Indexed,
) -> Result<Terms, Refusal>
    requires { (is_msh msh.now ≡ true) × Indexes book.now sections.now indexed }
    ensures { AdmitsBy (msh_rows d msh.now book.now) d msh.now book.now result }
{
    let mut starts = [0usize; MSH_PLACES];
    let count = note_fields(d, msh, &mut starts);
    if !has_control_id(d, msh, &starts, count) {
        return Err(Refusal::NoControlId);
    }
    let key = msh_value(d, msh, &starts, count, 6, 1);
    let section = open_at(book, sections, indexed, key)?;
    Ok(Terms {
        d,
        section,
        header: header_of(d, msh, &starts, count),
    })
}

// Row 6 alone.
fn admit_control(d: Delims, msh: &[u8]) -> Result<(), Refusal>
    requires { is_msh msh.now ≡ true }
    ensures { admitted_told result ≡ first_row (control_row d msh.now ∷ []) }
{
    let mut starts = [0usize; MSH_PLACES];
    let count = note_fields(d, msh, &mut starts);
    if has_control_id(d, msh, &starts, count) {
        Ok(())
    } else {
        Err(Refusal::NoControlId)
    }
}

// Rows 1 to 6, which do not look at a book.
pub fn admit_message(m: &[u8]) -> Result<(), Refusal>
    ensures { admitted_told result ≡ first_row (six_rows m.now) }
{
    check(m)?;
    admit_control(delims_of(m), segment(m, 1))
}

// By what a message is graded by a book, if nothing refuses it; `index_book` noted where the book's sections start.
pub(crate) fn admit(
    m: &[u8],
    book: &[u8],
    sections: &[usize],
    indexed: Indexed,
) -> Result<Terms, Refusal>
    requires { Indexes book.now sections.now indexed }
    ensures { Admits m.now book.now result }
{
    check(m)?;
    admit_msh(delims_of(m), segment(m, 1), book, sections, indexed)
}

// The same with a stamp: row 10 stands here for every call that takes one beside a book.
pub fn admit_stamped(
    m: &[u8],
    book: &[u8],
    sections: &[usize],
    indexed: Indexed,
    stamp: &[u8],
) -> Result<Terms, Refusal>
    requires { Indexes book.now sections.now indexed }
    ensures { AdmitsStamped m.now book.now stamp.now result }
{
    let terms = admit(m, book, sections, indexed)?;
    let right = is_stamp(stamp);
    if right {
        Ok(terms)
    } else {
        Err(Refusal::WrongStamp)
    }
}
