// Where sets, commons and sections stand, noted once, so that a name is looked up among them and not in the whole text.
ghost use Rattle.std.specs.Prelude.{◌≡◌, true, cond, ◌+◌, ◌≤◌, ◌<◌, length, take, set};
ghost use Rattle.hl7.specs.Bytes.{within};
ghost use Rattle.booktext.specs.Lines.{verb, statements};
ghost use Rattle.booktext.specs.Meaning.{from};
ghost use Rattle.booktext.specs.Standing.{statement_at, next_line, left, Finds, Heads};

use crate::statement::{is_of, next_line, next_statement, seek, verb_at};
use crate::word::{SECTION, SET};
use hl7::bytes::is_within;

// So many are noted; those of a longer text are looked for in its lines.
pub const HEAD_LIMIT: usize = 4096;

// How many are noted, and where the text goes on after them.
#[derive(Clone, Copy)]
pub struct Noted {
    pub count: usize,
    pub rest: usize,
}

// Notes a statement, where it is one of them.
fn note_head(t: &[u8], heads: &mut [usize], count: usize, at: usize) -> usize
    requires { count < length heads.old }
    ensures { (result ≡ cond (within 2 4 (verb (statement_at t.now at 0))) (count + 1) count) × (heads.new ≡ cond (within 2 4 (verb (statement_at t.now at 0))) (set heads.old count at) heads.old) }
{
    if is_within(verb_at(t, at), SET, SECTION) {
        heads[count] = at;
        return count + 1;
    }
    count
}

// Notes as many as there is room for.
pub fn note_heads(t: &[u8], heads: &mut [usize]) -> Noted
    ensures { (result.count ≤ length heads.new) × Heads t.now (take result.count heads.new) result.rest }
{
    let mut count = 0;
    let mut at = next_statement(t, 0);
    while at <= t.len() {
        if heads.len() <= count {
            return Noted { count, rest: at };
        }
        count = note_head(t, heads, count, at);
        at = next_statement(t, next_line(t, at));
    }
    Noted { count, rest: at }
}

// The first one of the text with a verb and a name.
pub(crate) fn seek_head(t: &[u8], heads: &[usize], rest: usize, verb: u8, name: &[u8]) -> usize
    requires { Heads t.now heads.now rest × (within 2 4 verb ≡ true) }
    ensures { Finds t.now (from verb name.now (statements t.now)) (left t.now (next_line t.now result)) result }
{
    for &at in heads {
        if is_of(t, at, verb, name) {
            return at;
        }
    }
    seek(t, rest, verb, name)
}
