// The words for people of a line: what follows its first bar, without the blanks around it.
ghost use Rattle.std.specs.Prelude.{◌≡◌, length};
ghost use Rattle.legend.specs.People.{untrailed, trimmed, line_at, people};

use booktext::line::{is_blank, past_blanks};
use hl7::bytes::{after, front};
use hl7::cut::find_far;

pub(crate) const LINE_FEED: u8 = 10;

const BAR: u8 = 124;

// Where s ends without the blanks behind it.
fn dark_end(s: &[u8]) -> usize
    ensures { result ≡ length (untrailed s.now) }
{
    match s.iter().rposition(|byte| !is_blank(*byte)) {
        Some(last) => last + 1,
        None => 0,
    }
}

// Without the blanks around it.
fn trim(s: &[u8]) -> &[u8]
    ensures { result.now ≡ trimmed s.now }
{
    let led = after(s, past_blanks(s, 0));
    front(led, dark_end(led))
}

// The words for people of the line that begins at a position.
pub(crate) fn people_at(t: &[u8], at: usize) -> &[u8]
    ensures { result.now ≡ people (line_at t.now at) }
{
    let rest = after(t, at);
    let line = front(rest, find_far(rest, LINE_FEED, 0));
    trim(after(after(line, find_far(line, BAR, 0)), 1))
}
