// Writing the ACK from records that the caller lends.
ghost use Rattle.std.specs.Prelude.{◌≡◌, true, ◌≤◌, ◌<◌, length};
ghost use Rattle.hl7.specs.Place.{delims_of, is_msh};
ghost use Rattle.hl7.specs.Refusals.{message_limit};
ghost use Rattle.grade.specs.Header.{msh_of};
ghost use Rattle.grade.specs.Sheet.{finding_limit};
ghost use Rattle.ack.specs.Answers.{ack_of, Gives};
ghost use Rattle.ack.specs.Pieces.{errs, short_or};
ghost use Rattle.ack.specs.Splice.{limit, Wrote};
ghost use Rattle.ack.specs.Records.{write_from};
ghost use Rattle.ack.specs.Weights.{weightless, weighed_by, weigh_all};

use crate::errs::put_each;
use crate::layout::{letter_of, put_heading};
use crate::measure::{err_length, heading_length};
use crate::output::{Output, advanced};
use grade::admit::admit_message;
use grade::date::is_stamp;
use grade::finding::Finding;
use grade::range::{in_range, is_header};
use grade::refusal::{Answer, Refusal};
use grade::sheet::is_fault;
use hl7::place::{MSH_PLACES, delims_of, note_fields, segment};

// Of records: whether all are in range, how long their ERRs are, whether one is about the header, and whether an E or W is among them.
#[derive(Clone, Copy)]
pub struct Weight {
    pub sound: bool,
    pub length: usize,
    pub header: bool,
    pub fault: bool,
}

// Of no records.
const WEIGHTLESS: Weight = Weight {
    sound: true,
    length: 0,
    header: false,
    fault: false,
};

// With one record more.
fn weighed(weight: Weight, finding: Finding) -> Weight
    ensures { result ≡ weighed_by weight finding }
{
    Weight {
        sound: weight.sound & in_range(finding),
        length: advanced(weight.length, err_length(finding)),
        header: weight.header | is_header(finding),
        fault: weight.fault | is_fault(finding),
    }
}

// What records weigh.
fn weigh(records: &[Finding]) -> Weight
    ensures { result ≡ weigh_all weightless records.now }
{
    let mut weight = WEIGHTLESS;
    for finding in records {
        weight = weighed(weight, *finding);
    }
    weight
}

// Row 11, or the ACK: its heading, and the ERRs of the records that were weighed.
fn put_ack(
    out: &mut [u8],
    m: &[u8],
    records: &[Finding],
    weight: Weight,
    stamp: &[u8],
    control: u32,
) -> Answer
    requires { (is_msh (msh_of m.now) ≡ true) × (length m.now ≤ message_limit) × (length stamp.now ≤ 19) × (length records.now ≤ finding_limit) × (weight ≡ weigh_all weightless records.now) }
    ensures { Gives result out.new (short_or (ack_of m.now records.now stamp.now control) out.old) }
{
    let d = delims_of(m);
    let msh = segment(m, 1);
    let mut starts = [0usize; MSH_PLACES];
    let count = note_fields(d, msh, &mut starts);
    let need = heading_length(d, msh, &starts, count, stamp, control) + weight.length;
    if out.len() < need {
        return Err(Refusal::ShortOutput(need));
    }
    let second = letter_of(weight.header, weight.fault);
    let mut ack = Output { bytes: out, at: 0 };
    put_heading(&mut ack, d, msh, &starts, count, stamp, control, second);
    put_each(&mut ack, d, records);
    Ok(ack.at)
}

// Writes the ACK to a message from the first so many records of a table, by the stated count, and answers the ACK's length, or the first of refusals 1 to 6, 13,
// 10 and 11 that applies, which alters nothing.
pub fn write(
    m: &[u8],
    table: &[Finding],
    count: u32,
    stamp: &[u8],
    control: u32,
    out: &mut [u8],
) -> Answer
    ensures { Gives result out.new (write_from m.now table.now count stamp.now control out.old) }
{
    admit_message(m)?;
    let stated = count as usize;
    if table.len() < stated {
        return Err(Refusal::WrongRecord);
    }
    let records = &table[..stated];
    let weight = weigh(records);
    if !weight.sound {
        return Err(Refusal::WrongRecord);
    }
    if !is_stamp(stamp) {
        return Err(Refusal::WrongStamp);
    }
    put_ack(out, m, records, weight, stamp, control)
}
