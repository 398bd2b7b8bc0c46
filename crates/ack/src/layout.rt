// The ACK's segments, each written by what the layout says of it.
ghost use Rattle.std.specs.Prelude.{◌≡◌, cond, ◌∷◌, ◌≤◌};
ghost use Rattle.hl7.specs.Noted.{MshNoted};
ghost use Rattle.hl7.specs.declared.place.Delims.{Delims};
ghost use Rattle.grade.specs.Rule.{name_bytes};
ghost use Rattle.ack.specs.Splice.{Wrote};
ghost use Rattle.ack.specs.Output.{Adds};
ghost use Rattle.ack.specs.Layout.{own_byte, own, marked, joined, copied, msh_line, letter, msa_line, component_parts, value_parts, place_parts, code_text, err_line, ended};
ghost use Rattle.ack.specs.Pieces.{heading};

use crate::output::{Output, advanced, fitting};
use grade::finding::Finding;
use grade::rule::letters_of;
use hl7::delimiters::is_standard;
use hl7::place::{Delims, noted_field};

// The message's own delimiter for each of the standard five.
#[tactic(auto, unfolding(crate::specs::Layout::own_byte))]
fn own_byte(d: Delims, x: u8) -> u8
    ensures { result ≡ own_byte d x }
{
    match x {
        b'|' => d.bar,
        b'^' => d.caret,
        b'~' => d.tilde,
        b'\\' => d.backslash,
        b'&' => d.ampersand,
        _ => x,
    }
}

// A text, byte by byte with the message's own delimiters.
fn put_translated(out: &mut [u8], at: usize, d: Delims, text: &[u8]) -> usize
    ensures { Wrote out.old at (own d text.now) out.new result }
{
    let next = advanced(at, text.len());
    let n = fitting(out.len(), at, text.len());
    for (i, byte) in text[..n].iter().enumerate() {
        out[at + i] = own_byte(d, *byte);
    }
    next
}

// A text, written with the message's own delimiters: as it stands, where they are the standard five.
fn put_own(out: &mut Output<'_>, d: Delims, text: &[u8])
    ensures { Adds out.old (own d text.now) out.new }
{
    if is_standard(d) {
        out.put(text);
    } else {
        out.at = put_translated(out.bytes, out.at, d, text);
    }
}

// A segment's name by its number.
pub fn put_name(out: &mut Output<'_>, name: u8)
    ensures { Adds out.old (name_bytes name) out.new }
{
    let letters = letters_of(name);
    if letters != 0 {
        let text = [
            (letters / 65536) as u8,
            (letters / 256 % 256) as u8,
            (letters % 256) as u8,
        ];
        out.put(&text);
    }
}

// ERR-2's component, where it is not 0.
pub fn put_component(out: &mut Output<'_>, caret: u8, component: u8)
    ensures { Adds out.old (marked caret (component_parts component)) out.new }
{
    if component != 0 {
        out.put_number(caret, component as usize);
    }
}

// ERR-2's field, repetition and component, where the finding is about a value.
fn put_value(out: &mut Output<'_>, caret: u8, finding: Finding)
    ensures { Adds out.old (marked caret (value_parts finding)) out.new }
{
    if finding.field != 0 {
        out.put_number(caret, finding.field as usize);
        out.put_number(caret, finding.repetition as usize);
        put_component(out, caret, finding.component);
    }
}

// ERR-2.
fn put_place(out: &mut Output<'_>, caret: u8, finding: Finding)
    ensures { Adds out.old (joined caret (place_parts finding)) out.new }
{
    if finding.name != 0 {
        put_name(out, finding.name);
        out.put_number(caret, finding.ordinal as usize);
        put_value(out, caret, finding);
    }
}

// ERR-3.
fn put_code(out: &mut Output<'_>, d: Delims, code: u16)
    ensures { Adds out.old (own d (code_text code)) out.new }
{
    match code {
        100 => put_own(out, d, b"100^Segment sequence error^HL70357"),
        101 => put_own(out, d, b"101^Required field missing^HL70357"),
        102 => put_own(out, d, b"102^Data type error^HL70357"),
        103 => put_own(out, d, b"103^Table value not found^HL70357"),
        200 => put_own(out, d, b"200^Unsupported message type^HL70357"),
        201 => put_own(out, d, b"201^Unsupported event code^HL70357"),
        202 => put_own(out, d, b"202^Unsupported processing id^HL70357"),
        203 => put_own(out, d, b"203^Unsupported version id^HL70357"),
        _ => {}
    }
}

// The ERR segment of a finding.
pub(crate) fn put_err(out: &mut Output<'_>, d: Delims, finding: Finding)
    ensures { Adds out.old (ended (err_line d finding)) out.new }
{
    put_own(out, d, b"ERR||");
    put_place(out, d.caret, finding);
    out.put_byte(d.bar);
    put_code(out, d, finding.code);
    out.put_byte(d.bar);
    out.put_byte(finding.severity);
    out.put_number(d.bar, finding.rule as usize);
    put_own(out, d, b"^^L\r");
}

// A bar, and a field of the message's own MSH.
fn put_copy(out: &mut Output<'_>, d: Delims, msh: &[u8], starts: &[usize], count: usize, k: usize)
    requires { MshNoted d msh.now starts.now count × (k ≤ 12) }
    ensures { Adds out.old (d.bar ∷ copied d msh.now k) out.new }
{
    out.put_field(d.bar, noted_field(d, msh, true, starts, count, k));
}

// The MSH segment; msh is the MSH of the message that is answered, its fields noted.
fn put_msh(
    out: &mut Output<'_>,
    d: Delims,
    msh: &[u8],
    starts: &[usize],
    count: usize,
    stamp: &[u8],
    control: u32,
)
    requires { MshNoted d msh.now starts.now count }
    ensures { Adds out.old (ended (msh_line d msh.now stamp.now control)) out.new }
{
    put_own(out, d, b"MSH|^~\\&");
    put_copy(out, d, msh, starts, count, 5);
    put_copy(out, d, msh, starts, count, 6);
    put_copy(out, d, msh, starts, count, 3);
    put_copy(out, d, msh, starts, count, 4);
    out.put_field(d.bar, stamp);
    put_own(out, d, b"||ACK^V04^ACK");
    out.put_number(d.bar, control as usize);
    put_copy(out, d, msh, starts, count, 11);
    put_own(out, d, b"|2.5.1|||NE|NE|||||Z23^CDCPHINVS\r");
}

// The MSA segment; second is the second letter of MSA-1.
fn put_msa(out: &mut Output<'_>, d: Delims, msh: &[u8], starts: &[usize], count: usize, second: u8)
    requires { MshNoted d msh.now starts.now count }
    ensures { Adds out.old (ended (msa_line d msh.now second)) out.new }
{
    put_own(out, d, b"MSA|A");
    out.put_byte(second);
    put_copy(out, d, msh, starts, count, 10);
    out.put_byte(b'\r');
}

// The first two segments.
pub(crate) fn put_heading(
    out: &mut Output<'_>,
    d: Delims,
    msh: &[u8],
    starts: &[usize],
    count: usize,
    stamp: &[u8],
    control: u32,
    second: u8,
)
    requires { MshNoted d msh.now starts.now count }
    ensures { Adds out.old (heading d msh.now stamp.now control second) out.new }
{
    put_msh(out, d, msh, starts, count, stamp, control);
    put_msa(out, d, msh, starts, count, second);
}

// The second letter of MSA-1.
pub(crate) fn letter_of(header: bool, fault: bool) -> u8
    ensures { result ≡ letter header fault }
{
    if header {
        b'R'
    } else if fault {
        b'E'
    } else {
        b'A'
    }
}
