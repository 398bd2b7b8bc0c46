// What a program prints, put together in the output that was lent for the answer.
ghost use Rattle.std.specs.Prelude.{◌≡◌, min, ◌++◌, length, take, drop};
ghost use Rattle.grade.specs.Admission.{refusal_told, paper};
ghost use Rattle.ack.specs.Splice.{Wrote};
ghost use Rattle.show.specs.Shown.{line_feed, line_feeds, refusal, bad_text, Printed};

use ack::output::Output;
use grade::refusal::{Answer, Refusal};

fn put_refusal(text: &mut [u8], why: Refusal) -> usize
    ensures { Wrote text.old 0 (refusal (refusal_told why).number (refusal_told why).detail) text.new result }
{
    let mut line = Output { bytes: text, at: 0 };
    line.put(b"refused");
    line.put_number(b' ', usize::from(why.number()));
    line.put_number(b' ', why.detail());
    line.put_byte(b'\n');
    line.at
}

// The text for a bad line.
pub fn put_bad_line(text: &mut [u8]) -> usize
    ensures { Wrote text.old 0 bad_text text.new result }
{
    let mut line = Output { bytes: text, at: 0 };
    line.put(b"bad line\n");
    line.at
}

fn line_feed_for(b: u8) -> u8
    ensures { result ≡ line_feed b }
{
    if b == b'\r' {
        return b'\n';
    }
    b
}

// Turns each CR among the first `count` bytes of text into a line feed, in place, and answers how many bytes these are.
fn turn_lines(text: &mut [u8], count: usize) -> usize
    ensures { (text.new ≡ line_feeds (take count text.old) ++ drop count text.old) × (result ≡ min count (length text.old)) }
{
    let end = count.min(text.len());
    for b in text[..end].iter_mut() {
        *b = line_feed_for(*b);
    }
    end
}

// The text for an answer, in the output that was lent for it; it ends where the function answers.
pub fn put_answer(text: &mut [u8], answer: Answer) -> usize
    ensures { Printed (paper answer) text.old text.new result }
{
    match answer {
        Ok(count) => turn_lines(text, count),
        Err(refusal) => put_refusal(text, refusal),
    }
}
