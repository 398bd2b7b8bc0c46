// What differs between two books.
ghost use Rattle.std.specs.Prelude.{◌≡◌, ◌<◌, true, length, IfSome};
ghost use Rattle.std.specs.Option.{unwrap_or};
ghost use mathlib.Core.List.{[], ◌∷◌, map, flat_map};
ghost use Rattle.hl7.specs.Text.{bytes};
ghost use Rattle.hl7.specs.Bytes.{all};
ghost use Rattle.grade.specs.Standing.{text_at, stands_at, contents_at};
ghost use Rattle.ack.specs.Splice.{Wrote};
ghost use Rattle.ack.specs.Output.{Adds};
ghost use Rattle.booktext.specs.Faults.{told_of};
ghost use Rattle.canonical.specs.Shown.{line_bytes, printed};
ghost use Rattle.difference.specs.Difference.{old_section, new_section, differences, diff_of};
ghost use Rattle.difference.specs.Ruled.{key_place, Opened};

use crate::section::put_both;
use crate::side::Side;
use ack::output::Output;
use booktext::told::{Row, Told};
use grade::book::{Unusable, index_book};
use grade::limits::SECTION_LIMIT;
use grade::walk::text_part;
use hl7::bytes::same_bytes;

const LINE_FEED: u8 = 10;

// The number from 0 of the section with a key, of those that start at the positions.
fn find_key(book: &[u8], starts: &[usize], key: &[u8]) -> Option<usize>
    requires { all (stands_at book.now) starts.now ≡ true }
    ensures is { unwrap_or result (length starts.now) ≡ key_place key.now (map (text_at book.now) starts.now) }
    ensures inside { IfSome result (λ i. i < length starts.now) }
{
    for (i, start) in starts.iter().enumerate() {
        if same_bytes(key, text_part(book, *start)) {
            return Some(i);
        }
    }
    None
}

// A section that one book has.
fn put_lone(out: &mut Output<'_>, mark: u8, key: &[u8])
    ensures { Adds out.old (line_bytes ((mark ∷ []) ∷ bytes "section" ∷ key.now ∷ [])) out.new }
{
    out.put_byte(mark);
    out.put(b" section ");
    out.put(key);
    out.put_byte(LINE_FEED);
}

// What became of the old book's section at a position.
fn put_old_section(out: &mut Output<'_>, old: &[u8], start: usize, new: &[u8], news: &[usize])
    requires { (stands_at old.now start ≡ true) × (all (stands_at new.now) news.now ≡ true) }
    ensures { Adds out.old (printed (old_section (map (contents_at new.now) news.now) (contents_at old.now start))) out.new }
{
    let key = text_part(old, start);
    match find_key(new, news, key) {
        Some(i) => {
            let before = Side::new(old, start);
            let after = Side::new(new, news[i]);
            put_both(out, key, &before, &after);
        }
        None => put_lone(out, b'-', key),
    }
}

fn put_old_sections(out: &mut Output<'_>, old: &[u8], olds: &[usize], new: &[u8], news: &[usize])
    requires { (all (stands_at old.now) olds.now ≡ true) × (all (stands_at new.now) news.now ≡ true) }
    ensures { Adds out.old (printed (flat_map (old_section (map (contents_at new.now) news.now)) (map (contents_at old.now) olds.now))) out.new }
{
    for start in olds {
        put_old_section(out, old, *start, new, news);
    }
}

// The new book's section at a position, unless the old one has its key.
fn put_new_section(out: &mut Output<'_>, old: &[u8], olds: &[usize], new: &[u8], start: usize)
    requires { (all (stands_at old.now) olds.now ≡ true) × (stands_at new.now start ≡ true) }
    ensures { Adds out.old (printed (new_section (map (contents_at old.now) olds.now) (contents_at new.now start))) out.new }
{
    let key = text_part(new, start);
    match find_key(old, olds, key) {
        Some(_) => {}
        None => put_lone(out, b'+', key),
    }
}

// A loop beside that over the old ones: one over a closure would be as long, and its contract longer.
fn put_new_sections(out: &mut Output<'_>, old: &[u8], olds: &[usize], new: &[u8], news: &[usize])
    requires { (all (stands_at old.now) olds.now ≡ true) × (all (stands_at new.now) news.now ≡ true) }
    ensures { Adds out.old (printed (flat_map (new_section (map (contents_at old.now) olds.now)) (map (contents_at new.now) news.now))) out.new }
{
    for start in news {
        put_new_section(out, old, olds, new, *start);
    }
}

// All lines, of books with sections at the positions.
fn put_differences(out: &mut [u8], old: &[u8], olds: &[usize], new: &[u8], news: &[usize]) -> usize
    requires { (all (stands_at old.now) olds.now ≡ true) × (all (stands_at new.now) news.now ≡ true) }
    ensures { Wrote out.old 0 (printed (differences (map (contents_at old.now) olds.now) (map (contents_at new.now) news.now))) out.new result }
{
    let mut text = Output { bytes: out, at: 0 };
    put_old_sections(&mut text, old, olds, new, news);
    put_new_sections(&mut text, old, olds, new, news);
    text.at
}

// They are written onto no byte of the lent output first, which tells their length.
fn write_differences(
    old: &[u8],
    olds: &[usize],
    new: &[u8],
    news: &[usize],
    output: &mut [u8],
) -> Told
    requires { Opened old.now olds.now × Opened new.now news.now }
    ensures { (told_of result ≡ (diff_of old.now new.now output.old).told) × (output.new ≡ (diff_of old.now new.now output.old).output) }
{
    let size = put_differences(&mut output[..0], old, olds, new, news);
    if output.len() < size {
        return Err(Row::ShortOutput.with(size));
    }
    put_differences(output, old, olds, new, news);
    Ok(size)
}

// The second book too has to be one that can be used.
fn compare(old: &[u8], olds: &[usize], new: &[u8], output: &mut [u8]) -> Told
    requires { Opened old.now olds.now }
    ensures { (told_of result ≡ (diff_of old.now new.now output.old).told) × (output.new ≡ (diff_of old.now new.now output.old).output) }
{
    let mut starts = [0usize; SECTION_LIMIT];
    match index_book(new, &mut starts) {
        Ok(count) => write_differences(old, olds, new, &starts[..count], output),
        Err(Unusable::Malformed) => Err(Row::Malformed.with(2)),
        Err(Unusable::OtherVersion) => Err(Row::OtherVersion.with(2)),
    }
}

// What differs between two books, into a lent output: all of it, or nothing.
pub fn difference(old: &[u8], new: &[u8], output: &mut [u8]) -> Told
    ensures { (told_of result ≡ (diff_of old.now new.now output.old).told) × (output.new ≡ (diff_of old.now new.now output.old).output) }
{
    let mut starts = [0usize; SECTION_LIMIT];
    match index_book(old, &mut starts) {
        Ok(count) => compare(old, &starts[..count], new, output),
        Err(Unusable::Malformed) => Err(Row::Malformed.with(1)),
        Err(Unusable::OtherVersion) => Err(Row::OtherVersion.with(1)),
    }
}
