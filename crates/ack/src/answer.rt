// Answering a message without a table, for batches: refusals in their order, then the length, then the bytes.
ghost use Rattle.std.specs.Prelude.{◌≡◌, true, ◌≤◌, length};
ghost use Rattle.hl7.specs.Place.{delims_of, is_msh};
ghost use Rattle.hl7.specs.Refusals.{message_limit};
ghost use Rattle.grade.specs.Standing.{Indexes, Holds};
ghost use Rattle.grade.specs.Rest.{findings_in};
ghost use Rattle.grade.specs.Sheet.{finding_limit};
ghost use Rattle.ack.specs.Layout.{ack_bytes};
ghost use Rattle.ack.specs.Pieces.{short_or};
ghost use Rattle.ack.specs.Answers.{answer_of, Gives};

use crate::errs::put_errs;
use crate::layout::{letter_of, put_heading};
use crate::measure::heading_length;
use crate::output::Output;
use grade::admit::admit_stamped;
use grade::book::Indexed;
use grade::header::any_wrong;
use grade::refusal::{Answer, Refusal};
use grade::sheet::first_sheet;
use grade::step::Terms;
use hl7::place::{MSH_PLACES, note_fields, segment};

// The ACK of a message that is graded, where it fits: its findings are gone through once to measure, and once more to write. They come by sheets, and in
// `write::put_ack` as a slice that was weighed.
fn answer_listed(
    out: &mut [u8],
    by: Terms,
    m: &[u8],
    book: &[u8],
    msh: &[u8],
    stamp: &[u8],
    control: u32,
) -> Answer
    requires { (length m.now ≤ message_limit) × Holds book.now by.section × (length msh.now ≤ message_limit) × (length stamp.now ≤ 19) × (length (findings_in book.now by.section by.header m.now) ≤ finding_limit) × (by.d ≡ delims_of m.now) × (is_msh msh.now ≡ true) }
    ensures { Gives result out.new (short_or (ack_bytes by.d msh.now stamp.now control (findings_in book.now by.section by.header m.now)) out.old) }
{
    let first = first_sheet(false, by, m, book);
    let mut none = [0u8; 0];
    let mut measured = Output {
        bytes: &mut none,
        at: 0,
    };
    let fault = put_errs(&mut measured, m, book, first);
    let d = by.d;
    let mut starts = [0usize; MSH_PLACES];
    let count = note_fields(d, msh, &mut starts);
    let need = heading_length(d, msh, &starts, count, stamp, control) + measured.at;
    if out.len() < need {
        return Err(Refusal::ShortOutput(need));
    }
    let second = letter_of(any_wrong(by.header), fault);
    let mut ack = Output { bytes: out, at: 0 };
    put_heading(&mut ack, d, msh, &starts, count, stamp, control, second);
    put_errs(&mut ack, m, book, first);
    Ok(ack.at)
}

// The answer to a message by a book whose sections' starts were noted by `index_book`: many messages can be answered by one index.
pub fn answer_indexed(
    m: &[u8],
    book: &[u8],
    sections: &[usize],
    indexed: Indexed,
    stamp: &[u8],
    control: u32,
    out: &mut [u8],
) -> Answer
    requires { Indexes book.now sections.now indexed }
    ensures { Gives result out.new (answer_of m.now book.now stamp.now control out.old) }
{
    let by = admit_stamped(m, book, sections, indexed, stamp)?;
    answer_listed(out, by, m, book, segment(m, 1), stamp, control)
}
