// The header: what MSH-9, MSH-11 and MSH-12 say of the message, and its findings.
ghost use Rattle.std.specs.Prelude.{◌≡◌, true, [], ◌∷◌, ◌<◌, ◌≤◌, take, drop};
ghost use Rattle.hl7.specs.Bytes.{same};
ghost use Rattle.hl7.specs.Noted.{MshNoted};
ghost use Rattle.grade.specs.Header.{msh_at, is_processing_id, header_of, header_finding, header_findings, any_wrong};
ghost use Rattle.grade.specs.Rest.{none_wrong};

use crate::finding::Finding;
use hl7::bytes::same_bytes;
use hl7::place::{Delims, component, noted_field, repetition};

// Which of the four header checks fail.
#[derive(Clone, Copy)]
pub struct Header {
    pub type_wrong: bool,
    pub event_wrong: bool,
    pub processing_wrong: bool,
    pub version_wrong: bool,
}

// A component of MSH, in the first repetition of its field.
pub(crate) fn msh_value<'a, 'b>(
    d: Delims,
    msh: &'a [u8],
    starts: &'b [usize],
    count: usize,
    f: usize,
    c: usize,
) -> &'a [u8]
    requires { MshNoted d msh.now starts.now count × (2 < f) × (f ≤ 12) }
    ensures { result.now ≡ msh_at d msh.now f c }
{
    let fld = noted_field(d, msh, true, starts, count, f);
    let rep = repetition(d, fld, false, 1);
    component(d, rep, false, c)
}

// Whether a component of MSH, in the first repetition of its field, is a text.
fn msh_is(
    d: Delims,
    msh: &[u8],
    starts: &[usize],
    count: usize,
    f: usize,
    c: usize,
    text: &[u8],
) -> bool
    requires { MshNoted d msh.now starts.now count × (2 < f) × (f ≤ 12) }
    ensures { result ≡ same (msh_at d msh.now f c) text.now }
{
    same_bytes(msh_value(d, msh, starts, count, f, c), text)
}

fn is_processing_id(v: &[u8]) -> bool
    ensures { result ≡ is_processing_id v.now }
{
    same_bytes(v, b"P") | same_bytes(v, b"T") | same_bytes(v, b"D")
}

fn has_processing_id(d: Delims, msh: &[u8], starts: &[usize], count: usize) -> bool
    requires { MshNoted d msh.now starts.now count }
    ensures { result ≡ is_processing_id (msh_at d msh.now 11 1) }
{
    is_processing_id(msh_value(d, msh, starts, count, 11, 1))
}

pub(crate) fn header_of(d: Delims, msh: &[u8], starts: &[usize], count: usize) -> Header
    requires { MshNoted d msh.now starts.now count }
    ensures { result ≡ header_of d msh.now }
{
    Header {
        type_wrong: !msh_is(d, msh, starts, count, 9, 1, b"VXU"),
        event_wrong: !msh_is(d, msh, starts, count, 9, 2, b"V04"),
        processing_wrong: !has_processing_id(d, msh, starts, count),
        version_wrong: !msh_is(d, msh, starts, count, 12, 1, b"2.5.1"),
    }
}

// Whether any header check fails.
pub fn any_wrong(header: Header) -> bool
    ensures { result ≡ any_wrong header }
{
    header.type_wrong | header.event_wrong | header.processing_wrong | header.version_wrong
}

// No header check fails.
pub(crate) fn none_wrong() -> Header
    ensures { result ≡ none_wrong }
{
    Header {
        type_wrong: false,
        event_wrong: false,
        processing_wrong: false,
        version_wrong: false,
    }
}

// A finding about the header: an E at the first MSH.
fn header_finding(code: u16, field: u8, component: u8) -> Finding
    ensures { result ≡ header_finding code field component }
{
    Finding {
        name: 1,
        ordinal: 1,
        field,
        repetition: 1,
        component,
        rule: 0,
        code,
        severity: b'E',
    }
}

// The finding of the first header check that fails, where one does.
pub(crate) fn first_wrong(header: Header) -> Finding
    requires { any_wrong header ≡ true }
    ensures { take 1 (header_findings header) ≡ result ∷ [] }
{
    if header.type_wrong {
        return header_finding(200, 9, 1);
    }
    if header.event_wrong {
        return header_finding(201, 9, 2);
    }
    if header.processing_wrong {
        return header_finding(202, 11, 1);
    }
    header_finding(203, 12, 1)
}

// The header checks that fail after it.
pub(crate) fn later_wrong(header: Header) -> Header
    ensures { header_findings result ≡ drop 1 (header_findings header) }
{
    let one = header.type_wrong;
    let two = one | header.event_wrong;
    let three = two | header.processing_wrong;
    Header {
        type_wrong: false,
        event_wrong: one & header.event_wrong,
        processing_wrong: two & header.processing_wrong,
        version_wrong: three & header.version_wrong,
    }
}
