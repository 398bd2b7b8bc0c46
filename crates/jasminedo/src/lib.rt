// The calls for other languages, on numbers, byte slices and tables of findings: each answers one number.

#![tactic(auto)]

ghost use Rattle.std.specs.Prelude.{◌≡◌, ◌≤◌, ◌^◌};
ghost use Rattle.hl7.specs.Refusals.{first_row, message_rows, located};
ghost use Rattle.grade.specs.Admission.{paper};
ghost use Rattle.grade.specs.Table.{grade_into};
ghost use Rattle.ack.specs.Records.{write_from};
ghost use Rattle.ack.specs.Lamp.{lamp_of};
ghost use Rattle.batchfile.specs.Batch.{batch_of};
ghost use Rattle.booktext.specs.Faults.{told_of};
ghost use Rattle.booktext.specs.Refusals.{compile_of};
ghost use Rattle.canonical.specs.Shown.{show_of};
ghost use Rattle.difference.specs.Difference.{diff_of};
ghost use Rattle.legend.specs.Legend.{legend_of};
ghost use Rattle.jasminedo.specs.Packed.{packed, packed_span, packed_place, packed_told};

use ack::lamp::lamp;
use ack::write::write;
use batchfile::batch::answer_batch;
use booktext::compile::compile;
use booktext::told::Told;
use canonical::show::show;
use difference::difference::difference;
use grade::finding::Finding;
use grade::refusal::{Answer, of_reading};
use grade::table::grade;
use hl7::cut::Span;
use hl7::locate::locate_span;
use hl7::refusal::check;
use legend::legend::legend;

// The number in the low byte, the detail above.
fn pack(answer: Answer) -> u64
    requires { (paper answer).detail ≤ 2 ^ 52 }
    ensures { result ≡ packed (paper answer) }
{
    let (number, detail) = match answer {
        Ok(detail) => (0, detail),
        Err(refusal) => (refusal.number(), refusal.detail()),
    };
    (detail as u64) * 256 + u64::from(number)
}

// The number in the low byte, the detail above, and above four bytes of it the section's line, which a length never has.
fn pack_told(told: Told) -> u64
    requires { ((told_of told).number ≤ 56) × ((told_of told).detail ≤ 2 ^ 48) × ((told_of told).section ≤ 1048577) }
    ensures { result ≡ packed_told (told_of told) }
{
    match told {
        Ok(size) => (size as u64) * 256,
        Err(fault) => {
            (fault.section as u64) * 1099511627776
                + (fault.detail as u64) * 256
                + (fault.row.number() as u64)
        }
    }
}

// The length in the low two bytes, the start above.
fn pack_span(span: Span) -> u64
    requires { (span.start ≤ span.end) × (span.end ≤ 32768) }
    ensures { result ≡ packed_span span }
{
    (span.start as u64) * 65536 + ((span.end - span.start) as u64)
}

#[unsafe(no_mangle)]
pub extern "C" fn jasminedo_grade(message: &[u8], book: &[u8], table: &mut [Finding]) -> u64
    ensures { (result ≡ packed (grade_into message.now book.now table.old).told) × (table.new ≡ (grade_into message.now book.now table.old).table) }
{
    let told = grade(message, book, table);
    pack(told)
}

#[unsafe(no_mangle)]
pub extern "C" fn jasminedo_write(
    message: &[u8],
    table: &[Finding],
    count: u32,
    stamp: &[u8],
    control: u32,
    output: &mut [u8],
) -> u64
    ensures { (result ≡ packed (write_from message.now table.now count stamp.now control output.old).told) × (output.new ≡ (write_from message.now table.now count stamp.now control output.old).output) }
{
    let told = write(message, table, count, stamp, control, output);
    pack(told)
}

#[unsafe(no_mangle)]
pub extern "C" fn jasminedo_batch(
    file: &[u8],
    book: &[u8],
    stamp: &[u8],
    control: u32,
    output: &mut [u8],
) -> u64
    ensures { (result ≡ packed (batch_of file.now book.now stamp.now control output.old).told) × (output.new ≡ (batch_of file.now book.now stamp.now control output.old).output) }
{
    pack(answer_batch(file, book, stamp, control, output))
}

#[unsafe(no_mangle)]
pub extern "C" fn jasminedo_lamp(message: &[u8], book: &[u8], stamp: &[u8]) -> u64
    ensures { result ≡ packed (lamp_of message.now book.now stamp.now) }
{
    pack(lamp(message, book, stamp))
}

#[unsafe(no_mangle)]
pub extern "C" fn jasminedo_check(message: &[u8]) -> u64
    ensures { result ≡ packed (first_row (message_rows message.now)) }
{
    pack(of_reading(check(message)))
}

#[unsafe(no_mangle)]
pub extern "C" fn jasminedo_locate(
    message: &[u8],
    segment: usize,
    field: usize,
    repetition: usize,
    component: usize,
) -> u64
    ensures { result ≡ packed_place (located message.now segment field repetition component) }
{
    pack_span(locate_span(message, segment, field, repetition, component))
}

#[unsafe(no_mangle)]
pub extern "C" fn jasminedo_compile(text: &[u8], output: &mut [u8]) -> u64
    ensures { (result ≡ packed_told (compile_of text.now output.old).told) × (output.new ≡ (compile_of text.now output.old).output) }
{
    pack_told(compile(text, output))
}

#[unsafe(no_mangle)]
pub extern "C" fn jasminedo_show(book: &[u8], output: &mut [u8]) -> u64
    ensures { (result ≡ packed_told (show_of book.now output.old).told) × (output.new ≡ (show_of book.now output.old).output) }
{
    pack_told(show(book, output))
}

#[unsafe(no_mangle)]
pub extern "C" fn jasminedo_diff(old: &[u8], new: &[u8], output: &mut [u8]) -> u64
    ensures { (result ≡ packed_told (diff_of old.now new.now output.old).told) × (output.new ≡ (diff_of old.now new.now output.old).output) }
{
    pack_told(difference(old, new, output))
}

#[unsafe(no_mangle)]
pub extern "C" fn jasminedo_legend(text: &[u8], output: &mut [u8]) -> u64
    ensures { (result ≡ packed_told (legend_of text.now output.old).told) × (output.new ≡ (legend_of text.now output.old).output) }
{
    pack_told(legend(text, output))
}
