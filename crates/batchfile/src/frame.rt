// The frame of a batch file: where its parts stand, and whether they are right.
ghost use Rattle.std.specs.Prelude.{◌≡◌, ◌≤◌, ◌<◌, length};
ghost use Rattle.hl7.specs.Counted.{too_large};
ghost use Rattle.hl7.specs.Place.{delims_of};
ghost use Rattle.batchfile.specs.Frame.{keeps_rows, is_segment, is_none, is_framed, is_count, count_in, is_counted};
ghost use Rattle.batchfile.specs.Walk.{gathered_at, BodyEnds, Framing};

use crate::message::{is_frame, line_end};
use hl7::bytes::begins_with;
use hl7::delimiters::opens_with;
use hl7::number::read_digits;
use hl7::place::{Delims, field_span, is_msh, segment};
use hl7::refusal::{wrong_byte, wrong_segment};

// Where the messages end, and how many there are.
#[derive(Clone, Copy)]
pub struct Body {
    pub end: usize,
    pub count: usize,
}

// Where the parts of a file stand: FHS ends at bhs, BHS at start, the messages at end, BTS at fts, FTS at over. How many messages there are.
#[derive(Clone, Copy)]
pub struct Frame {
    pub bhs: usize,
    pub start: usize,
    pub end: usize,
    pub fts: usize,
    pub over: usize,
    pub count: usize,
}

// ---- places
// The messages that begin at a position, up to the next frame name.
fn body_from(f: &[u8], at: usize) -> Body
    ensures { BodyEnds f.now at result }
{
    let mut end = at;
    let mut count = 0;
    while end < f.len() {
        let next = line_end(f, end);
        let line = &f[end..next];
        if is_frame(line) {
            return Body { end, count };
        }
        count += usize::from(is_msh(line));
        end = next;
    }
    Body { end, count }
}

pub(crate) fn frame_of(f: &[u8]) -> Frame
    ensures { Framing f.now result }
{
    let bhs = line_end(f, 0);
    let start = line_end(f, bhs);
    let body = body_from(f, start);
    let end = body.end;
    let fts = line_end(f, end);
    let over = line_end(f, fts);
    Frame {
        bhs,
        start,
        end,
        fts,
        over,
        count: body.count,
    }
}

// ---- the shape
// Whether a frame segment keeps rows 3 and 5.
fn keeps_rows(d: Delims, line: &[u8]) -> bool
    ensures { result ≡ keeps_rows d line.now }
{
    wrong_byte(line).is_none() & wrong_segment(d, line).is_none()
}

// Whether a segment is the frame segment of a name.
fn is_segment(d: Delims, name: &[u8], line: &[u8]) -> bool
    ensures { result ≡ is_segment d name.now line.now }
{
    begins_with(line, name) & keeps_rows(d, line)
}

// Whether the segment that begins at a position, if any, is a message's first or has a frame name: then nothing stands before the first message.
fn is_started(f: &[u8], at: usize) -> bool
    requires { at ≤ length f.now }
    ensures { result ≡ is_none (gathered_at f.now at).before }
{
    let end = line_end(f, at);
    let line = &f[at..end];
    (line.len() == 0) | is_frame(line) | is_msh(line)
}

// Whether the file is of the right shape.
pub(crate) fn is_framed(d: Delims, f: &[u8], frame: Frame) -> bool
    requires { (d ≡ delims_of f.now) × Framing f.now frame }
    ensures { result ≡ is_framed f.now }
{
    let Frame {
        bhs,
        start,
        end,
        fts,
        over,
        ..
    } = frame;
    opens_with(f, b"FHS")
        & keeps_rows(d, &f[0..bhs])
        & is_segment(d, b"BHS", &f[bhs..start])
        & is_started(f, start)
        & is_segment(d, b"BTS", &f[end..fts])
        & is_segment(d, b"FTS", &f[fts..over])
        & (over == f.len())
}

// ---- the counts
// Whether a field is empty or n in decimal digits.
fn is_count(field: &[u8], n: usize) -> bool
    requires { n < too_large }
    ensures { result ≡ is_count n field.now }
{
    let read = read_digits(field);
    (field.len() == 0) | (read.all & (read.value == n))
}

// Whether field 1 of a frame segment is empty or n in decimal digits.
fn has_count(d: Delims, line: &[u8], n: usize) -> bool
    requires { n < too_large }
    ensures { result ≡ is_count n (count_in d line.now) }
{
    let seg = segment(line, 1);
    let first = field_span(d, seg, 1);
    is_count(&seg[first.start..first.end], n)
}

// Whether the counts of BTS and FTS are right.
pub(crate) fn is_counted(d: Delims, f: &[u8], frame: Frame) -> bool
    requires { (d ≡ delims_of f.now) × Framing f.now frame × (frame.count < too_large) }
    ensures { result ≡ is_counted f.now }
{
    let Frame {
        end,
        fts,
        over,
        count,
        ..
    } = frame;
    has_count(d, &f[end..fts], count) & has_count(d, &f[fts..over], 1)
}
