// Segments, fields, repetitions and components: each a part of the bytes that hold it, and where it stands there.
ghost use Rattle.std.specs.Prelude.{◌≡◌, true, ◌+◌, ◌<◌, length};
ghost use Rattle.hl7.specs.Cut.{cut, piece_at, missing};
ghost use Rattle.hl7.specs.Place.{delims_of, nth_of, cut_unless, is_msh, never_cut, segment_of, field_of, repetition_of, component_of, in_field, in_segment, place, Lies};
ghost use Rattle.hl7.specs.Spans.{Spans};
ghost use Rattle.hl7.specs.Noted.{FieldIs, Noted, Notes};

use crate::bytes::{begins_with, byte_at};
use crate::cut::{Span, find, find_far, part};

// Room for the starts of parts 0 to 12, and for the end of the last.
pub const MSH_PLACES: usize = 14;

// The five bytes that a message is cut by, each named after the byte that usually stands there.
#[derive(Clone, Copy, PartialEq, Eq)]
pub struct Delims {
    pub bar: u8,
    pub caret: u8,
    pub tilde: u8,
    pub backslash: u8,
    pub ampersand: u8,
}

// The delimiters of a message: its bytes 3 to 7. Every cut takes its byte from here.
pub fn delims_of(m: &[u8]) -> Delims
    ensures { result ≡ delims_of m.now }
{
    Delims {
        bar: byte_at(m, 3),
        caret: byte_at(m, 4),
        tilde: byte_at(m, 5),
        backslash: byte_at(m, 6),
        ampersand: byte_at(m, 7),
    }
}

// Where what is missing in s stands: at its end.
fn missing_span(s: &[u8]) -> Span
    ensures { Spans s.now (missing s.now) result }
{
    let n = s.len();
    Span { start: n, end: n }
}

// Part k, from 1, of s cut at d; or of s as one part.
fn nth(s: &[u8], d: u8, whole: bool, k: usize) -> Span
    ensures { Spans s.now (nth_of s.now (cut_unless whole d s.now) k) result }
{
    if k == 0 {
        return missing_span(s);
    }
    if whole {
        if k == 1 {
            return Span {
                start: 0,
                end: s.len(),
            };
        }
        return missing_span(s);
    }
    if k == 1 {
        return Span {
            start: 0,
            end: find_far(s, d, 0),
        };
    }
    part(s, d, k - 1)
}

// Whether a segment is named MSH.
pub fn is_msh(seg: &[u8]) -> bool
    ensures { result ≡ is_msh seg.now }
{
    begins_with(seg, b"MSH")
}

// Whether field f of a segment is one that tildes and carets do not cut.
fn never_cut(seg: &[u8], f: usize) -> bool
    ensures { result ≡ never_cut seg.now f }
{
    (f <= 2) && is_msh(seg)
}

// Where segment n of a message stands, without its CR.
fn segment_span(m: &[u8], n: usize) -> Span
    ensures { Spans m.now (segment_of m.now n) result }
{
    nth(m, b'\r', false, n)
}

// Segment n of a message, without its CR. `noted_field`, `repetition` and `component` are as short: what the four share is the cut, in `nth` and `part`.
pub fn segment(m: &[u8], n: usize) -> &[u8]
    ensures { Lies m.entry result (segment_of m.now n) }
{
    let at = segment_span(m, n);
    &m[at.start..at.end]
}

// Which part of a segment a field is: none, the bar after the name MSH, or a part by its number. Three ways, and not the two of an Option.
#[derive(Clone, Copy)]
enum FieldAt {
    Missing,
    Bar,
    Part(usize),
}

// Which part field f is. The bar itself is MSH-1, so that MSH's other fields are one part further left.
#[tactic(auto, using(crate::proofs::Placing::field_msh, crate::proofs::Placing::field_other))]
fn field_at(msh: bool, f: usize) -> FieldAt
    ensures { FieldIs msh f result }
{
    match (msh, f) {
        (_, 0) => FieldAt::Missing,
        (true, 1) => FieldAt::Bar,
        (true, _) => FieldAt::Part(f - 1),
        (false, _) => FieldAt::Part(f),
    }
}

// Where MSH-1 stands, which is missing if the name is all there is.
fn bar_span(d: Delims, msh: &[u8]) -> Span
    requires { is_msh msh.now ≡ true }
    ensures { Spans msh.now (field_of d msh.now 1) result }
{
    if msh.len() == 3 {
        return Span { start: 3, end: 3 };
    }
    Span { start: 3, end: 4 }
}

// Where field f of a segment stands.
pub fn field_span(d: Delims, seg: &[u8], f: usize) -> Span
    ensures { Spans seg.now (field_of d seg.now f) result }
{
    match field_at(is_msh(seg), f) {
        FieldAt::Missing => missing_span(seg),
        FieldAt::Bar => bar_span(d, seg),
        FieldAt::Part(k) => part(seg, d.bar, k),
    }
}

// Notes where the parts of a segment cut at the bar begin, each part's start after the one before and one more for its end, as many as there is room for;
// answers how many parts.
pub fn note_fields(d: Delims, seg: &[u8], starts: &mut [usize]) -> usize
    ensures { Notes d.bar seg.now starts.old starts.new result }
{
    let n = seg.len();
    let size = starts.len();
    if size == 0 {
        return 0;
    }
    let room = size - 1;
    let mut at = 0;
    for k in 0..room {
        starts[k] = at;
        if n < at {
            return k;
        }
        at = find(seg, d.bar, at) + 1;
    }
    starts[room] = at;
    room
}

// Part k of a segment whose parts are noted; what is missing stands at the segment's end.
fn noted_part(d: Delims, seg: &[u8], starts: &[usize], count: usize, k: usize) -> Span
    requires { Noted d.bar seg.now starts.now count × (k + 1 < length starts.now) }
    ensures { Spans seg.now (piece_at (cut d.bar seg.now) k) result }
{
    if k < count {
        return Span {
            start: starts[k],
            end: starts[k + 1] - 1,
        };
    }
    missing_span(seg)
}

// Where field f of a segment stands whose parts are noted; msh says whether it is named MSH.
pub fn noted_field_span(
    d: Delims,
    seg: &[u8],
    msh: bool,
    starts: &[usize],
    count: usize,
    f: usize,
) -> Span
    requires { Noted d.bar seg.now starts.now count × (msh ≡ is_msh seg.now) × (f + 1 < length starts.now) }
    ensures { Spans seg.now (field_of d seg.now f) result }
{
    match field_at(msh, f) {
        FieldAt::Missing => missing_span(seg),
        FieldAt::Bar => bar_span(d, seg),
        FieldAt::Part(k) => noted_part(d, seg, starts, count, k),
    }
}

// Field f of a segment whose parts are noted.
pub fn noted_field<'a, 'b>(
    d: Delims,
    seg: &'a [u8],
    msh: bool,
    starts: &'b [usize],
    count: usize,
    f: usize,
) -> &'a [u8]
    requires { Noted d.bar seg.now starts.now count × (msh ≡ is_msh seg.now) × (f + 1 < length starts.now) }
    ensures { Lies seg.entry result (field_of d seg.now f) }
{
    let at = noted_field_span(d, seg, msh, starts, count, f);
    &seg[at.start..at.end]
}

// Where repetition r of a field stands.
fn repetition_span(d: Delims, fld: &[u8], whole: bool, r: usize) -> Span
    ensures { Spans fld.now (repetition_of d whole fld.now r) result }
{
    nth(fld, d.tilde, whole, r)
}

// Repetition r of a field.
pub fn repetition(d: Delims, fld: &[u8], whole: bool, r: usize) -> &[u8]
    ensures { Lies fld.entry result (repetition_of d whole fld.now r) }
{
    let at = repetition_span(d, fld, whole, r);
    &fld[at.start..at.end]
}

// Where component c of a repetition stands; 0 is the repetition.
fn component_span(d: Delims, rep: &[u8], whole: bool, c: usize) -> Span
    ensures { Spans rep.now (component_of d whole rep.now c) result }
{
    if c == 0 {
        return Span {
            start: 0,
            end: rep.len(),
        };
    }
    nth(rep, d.caret, whole, c)
}

// Component c of a repetition; 0 is the repetition.
pub fn component(d: Delims, rep: &[u8], whole: bool, c: usize) -> &[u8]
    ensures { Lies rep.entry result (component_of d whole rep.now c) }
{
    let at = component_span(d, rep, whole, c);
    &rep[at.start..at.end]
}

// Where component c of repetition r of a field stands.
fn in_field(d: Delims, fld: &[u8], whole: bool, r: usize, c: usize) -> Span
    ensures { Spans fld.now (in_field d whole fld.now r c) result }
{
    let rep = repetition_span(d, fld, whole, r);
    rep.of_part(component_span(d, &fld[rep.start..rep.end], whole, c))
}

// Where field f, repetition r, component c of a segment stands.
fn in_segment(d: Delims, seg: &[u8], f: usize, r: usize, c: usize) -> Span
    ensures { Spans seg.now (in_segment d seg.now f r c) result }
{
    let whole = never_cut(seg, f);
    let fld = field_span(d, seg, f);
    fld.of_part(in_field(d, &seg[fld.start..fld.end], whole, r, c))
}

// Where segment n, field f, repetition r, component c of any bytes stands.
pub(crate) fn in_message(d: Delims, m: &[u8], n: usize, f: usize, r: usize, c: usize) -> Span
    ensures { Spans m.now (place d m.now n f r c) result }
{
    let seg = segment_span(m, n);
    seg.of_part(in_segment(d, &m[seg.start..seg.end], f, r, c))
}
