// Cutting bytes at a delimiter: where a part ends, and one part by its number.
ghost use Rattle.std.specs.Prelude.{◌≡◌, ◌+◌, ◌≤◌, length};
ghost use Rattle.hl7.specs.Bytes.{all, differs};
ghost use Rattle.hl7.specs.Cut.{cut, end_from, piece_at};
ghost use Rattle.hl7.specs.Spans.{Spans, piece_from, occurrences};

use crate::bytes::after;

// Bytes that are looked at together.
const BLOCK: usize = 16;

// Bytes in which delimiters are counted together.
const COUNTED: usize = 64;

// A part of a slice, by where it starts and ends there.
#[derive(Clone, Copy)]
pub struct Span {
    pub start: usize,
    pub end: usize,
}

impl Span {
    // Where a part of what stands here stands in the bytes that hold it all.
    pub(crate) fn of_part(self, part: Span) -> Span
        requires { (part.start ≤ part.end) × (self.start + part.end ≤ self.end) }
        ensures { (result.start ≡ self.start + part.start) × (result.end ≡ self.start + part.end) }
    {
        Span {
            start: self.start + part.start,
            end: self.start + part.end,
        }
    }
}

// Where the part that begins at from ends: at the first d there, or at the end of s.
pub fn find(s: &[u8], d: u8, from: usize) -> usize
    ensures { result ≡ end_from d s.now from }
{
    for i in from..s.len() {
        if s[i] == d {
            return i;
        }
    }
    from.max(s.len())
}

// Whether no byte of v is d: no early exit, so that many bytes are looked at together.
pub fn none_is(v: &[u8], d: u8) -> bool
    ensures { result ≡ all (differs d) v.now }
{
    let mut none = true;
    for x in v {
        none &= *x != d;
    }
    none
}

// Goes over whole blocks that have no d: the part that begins at from ends where one that begins at the answer does.
fn pass_clear(s: &[u8], d: u8, from: usize) -> usize
    ensures { end_from d s.now from ≡ end_from d s.now result }
{
    let mut at = from;
    for block in after(s, from).chunks_exact(BLOCK) {
        if !none_is(block, d) {
            return at;
        }
        at += BLOCK;
    }
    at
}

// As find, for parts that are long: block by block first.
pub fn find_far(s: &[u8], d: u8, from: usize) -> usize
    ensures { result ≡ end_from d s.now from }
{
    find(s, d, pass_clear(s, d, from))
}

// How many bytes of a block are d, in a byte, so that many are counted together.
fn count_in(v: &[u8], d: u8) -> u8
    requires { length v.now ≤ 255 }
    ensures { result ≡ occurrences d v.now }
{
    let mut n: u8 = 0;
    for x in v {
        n += u8::from(*x == d);
    }
    n
}

// A position, and how many parts lie between it and the part asked for.
#[derive(Clone, Copy)]
struct Left {
    at: usize,
    parts: usize,
}

// Goes over whole blocks that end before part k begins.
fn pass_parts(s: &[u8], d: u8, k: usize) -> Left
    ensures { (result.at ≤ length s.now) × (piece_at (cut d s.now) k ≡ piece_from d s.now result.at result.parts) }
{
    let mut left = Left { at: 0, parts: k };
    for block in s.chunks_exact(COUNTED) {
        let n = usize::from(count_in(block, d));
        if left.parts <= n {
            return left;
        }
        left.parts -= n;
        left.at += COUNTED;
    }
    left
}

// Part k of s cut at d, counted from 0; what is missing stands at the end of s.
pub(crate) fn part(s: &[u8], d: u8, k: usize) -> Span
    ensures { Spans s.now (piece_at (cut d s.now) k) result }
{
    let n = s.len();
    let passed = pass_parts(s, d, k);
    let mut start = passed.at;
    for _ in 0..passed.parts {
        let end = find(s, d, start);
        if n <= end {
            return Span { start: n, end: n };
        }
        start = end + 1;
    }
    Span {
        start,
        end: find(s, d, start),
    }
}
