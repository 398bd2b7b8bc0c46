// What the program prints.
ghost use Rattle.std.specs.Prelude.{take};
ghost use Rattle.ack.specs.Splice.{Wrote};
ghost use Rattle.ack.specs.Output.{Adds};
ghost use Rattle.booktext.specs.Faults.{number_of, told_by, told_of};
ghost use Rattle.book.specs.Reply.{line_text, refused_text, source_refused_text, compiled_text, told_text, book_refused_text, shown_text, legend_text, diff_text, file_text, usage_text};
ghost use Rattle.book.specs.Standing.{new_name};

use crate::counts::{Counts, counts_of};
use crate::words::put_words;
use ack::output::Output;
use booktext::told::{Fault, Row, Told};
use hl7::bytes::front;

// A word, and the number of a line after it, where there is one.
fn put_line(out: &mut Output<'_>, word: &[u8], line: usize)
    ensures { Adds out.old (line_text word.now line) out.new }
{
    if line != 0 {
        out.put(word);
        out.put_number(b' ', line);
    }
}

fn put_refused(out: &mut [u8], row: Row, line: usize, section: usize) -> usize
    ensures { Wrote out.old 0 (refused_text (number_of row) line section) out.new result }
{
    let mut text = Output { bytes: out, at: 0 };
    text.put(b"refused");
    text.put_number(b' ', row.number());
    put_line(&mut text, b" line", line);
    put_line(&mut text, b" section", section);
    text.put(b": ");
    put_words(&mut text, row);
    text.put_byte(b'\n');
    text.at
}

// A source that is refused, or a text that is too long to print; the detail of 55 is a length.
fn put_source_refused(out: &mut [u8], fault: Fault) -> usize
    ensures { Wrote out.old 0 (source_refused_text (told_by fault)) out.new result }
{
    match fault.row {
        Row::ShortOutput => put_refused(out, fault.row, 0, fault.section),
        _ => put_refused(out, fault.row, fault.detail, fault.section),
    }
}

fn put_counts(out: &mut [u8], size: usize, counts: Counts) -> usize
    ensures { Wrote out.old 0 (compiled_text size counts.sections counts.rules counts.sets) out.new result }
{
    let mut text = Output { bytes: out, at: 0 };
    text.put(b"compiled");
    text.put_number(b' ', size);
    text.put(b" bytes,");
    text.put_number(b' ', counts.sections);
    text.put(b" sections,");
    text.put_number(b' ', counts.rules);
    text.put(b" rules,");
    text.put_number(b' ', counts.sets);
    text.put(b" sets\n");
    text.at
}

// What compiling told, over the output that it had.
pub(crate) fn put_told(out: &mut [u8], told: Told) -> usize
    ensures { Wrote out.old 0 (told_text (told_of told) out.old) out.new result }
{
    match told {
        Ok(size) => {
            let counts = counts_of(front(out, size));
            put_counts(out, size, counts)
        }
        Err(fault) => put_source_refused(out, fault),
    }
}

fn put_book_refused(out: &mut [u8], row: Row, which: &[u8]) -> usize
    ensures { Wrote out.old 0 (book_refused_text (number_of row) which.now) out.new result }
{
    let mut text = Output { bytes: out, at: 0 };
    text.put(b"book refused");
    text.put_number(b' ', row.number());
    text.put(which);
    text.put_byte(b'\n');
    text.at
}

// The text that stands in the output already.
fn put_made(out: &mut [u8], size: usize) -> usize
    ensures { Wrote out.old 0 (take size out.old) out.new result }
{
    front(out, size).len()
}

// What showing a book told, over the output that it had.
pub(crate) fn put_shown(out: &mut [u8], told: Told) -> usize
    ensures { Wrote out.old 0 (shown_text (told_of told) out.old) out.new result }
{
    match told {
        Ok(size) => put_made(out, size),
        Err(fault) => put_book_refused(out, fault.row, b""),
    }
}

// What asking for a legend told, over the output that it had.
pub(crate) fn put_legend(out: &mut [u8], told: Told) -> usize
    ensures { Wrote out.old 0 (legend_text (told_of told) out.old) out.new result }
{
    match told {
        Ok(size) => put_made(out, size),
        Err(fault) => put_source_refused(out, fault),
    }
}

// What comparing two books told, over the output that it had; the detail of a book that is refused is 1 for the old one.
pub(crate) fn put_diff(out: &mut [u8], told: Told) -> usize
    ensures { Wrote out.old 0 (diff_text (told_of told) out.old) out.new result }
{
    match told {
        Ok(size) => put_made(out, size),
        Err(fault) => match fault.row {
            Row::ShortOutput => put_source_refused(out, fault),
            _ if fault.detail == 1 => put_book_refused(out, fault.row, b" old"),
            _ => put_book_refused(out, fault.row, b" new"),
        },
    }
}

// A file by its path, and what cannot be done with it.
pub(crate) fn put_file(out: &mut [u8], what: &[u8], path: &[u8]) -> usize
    ensures { Wrote out.old 0 (file_text what.now path.now) out.new result }
{
    let mut text = Output { bytes: out, at: 0 };
    text.put(b"file cannot be ");
    text.put(what);
    text.put(b": ");
    text.put(path);
    text.put_byte(b'\n');
    text.at
}

pub(crate) fn put_usage(out: &mut [u8]) -> usize
    ensures { Wrote out.old 0 usage_text out.new result }
{
    let mut text = Output { bytes: out, at: 0 };
    text.put(
        b"usage: book compile SOURCE BOOK | check SOURCE | show BOOK | legend SOURCE | diff OLD NEW\n",
    );
    text.at
}

// The name of a new file beside a path; the six letters are replaced when it is made.
pub(crate) fn put_new_name(out: &mut [u8], path: &[u8]) -> usize
    ensures { Wrote out.old 0 (new_name path.now) out.new result }
{
    let mut text = Output { bytes: out, at: 0 };
    text.put(path);
    text.put(b".XXXXXX");
    text.at
}
