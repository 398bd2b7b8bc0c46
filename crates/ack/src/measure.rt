// How long an ACK's segments are, by their numbers alone: the worst message has millions of findings.
ghost use Rattle.std.specs.Prelude.{◌≡◌, ℕ, ◌≤◌, length};
ghost use Rattle.hl7.specs.Noted.{MshNoted};
ghost use Rattle.hl7.specs.Refusals.{message_limit};
ghost use Rattle.hl7.specs.declared.place.Delims.{Delims};
ghost use Rattle.grade.specs.Rule.{name_bytes};
ghost use Rattle.ack.specs.Layout.{copied, marked, joined, component_parts, value_parts, place_parts, code_text, err_line, ended};
ghost use Rattle.ack.specs.Pieces.{heading};

use crate::output::decimal_length;
use grade::finding::Finding;
use grade::rule::letters_of;
use hl7::place::{Delims, noted_field};

// How long a field of the message's own MSH is.
fn copy_length(d: Delims, msh: &[u8], starts: &[usize], count: usize, k: usize) -> usize
    requires { MshNoted d msh.now starts.now count × (length msh.now ≤ message_limit) × (k ≤ 12) }
    ensures { (result ≡ length (copied d msh.now k)) × (result ≤ message_limit) }
{
    noted_field(d, msh, true, starts, count, k).len()
}

// How long the first two segments are, whatever MSA-1 is: their fixed bytes, and what stands between them.
pub(crate) fn heading_length(
    d: Delims,
    msh: &[u8],
    starts: &[usize],
    count: usize,
    stamp: &[u8],
    control: u32,
) -> usize
    requires { MshNoted d msh.now starts.now count × (length msh.now ≤ message_limit) × (length stamp.now ≤ 19) }
    ensures { (second : ℕ) → result ≡ length (heading d msh.now stamp.now control second) }
{
    69 + stamp.len()
        + decimal_length(control as usize)
        + copy_length(d, msh, starts, count, 3)
        + copy_length(d, msh, starts, count, 4)
        + copy_length(d, msh, starts, count, 5)
        + copy_length(d, msh, starts, count, 6)
        + copy_length(d, msh, starts, count, 10)
        + copy_length(d, msh, starts, count, 11)
}

// How long ERR-2's component is, with its caret.
fn component_length(component: u8) -> usize
    ensures { ((mark : ℕ) → result ≡ length (marked mark (component_parts component))) × (result ≤ 21) }
{
    if component == 0 {
        return 0;
    }
    1 + decimal_length(component as usize)
}

// How long ERR-2 is from its field on.
fn value_length(finding: Finding) -> usize
    ensures { ((mark : ℕ) → result ≡ length (marked mark (value_parts finding))) × (result ≤ 63) }
{
    if finding.field == 0 {
        return 0;
    }
    2 + decimal_length(finding.field as usize)
        + decimal_length(finding.repetition as usize)
        + component_length(finding.component)
}

// How long a segment's name is.
fn name_length(name: u8) -> usize
    ensures { (result ≡ length (name_bytes name)) × (result ≤ 3) }
{
    if letters_of(name) == 0 { 0 } else { 3 }
}

// How long ERR-2 is.
fn place_length(finding: Finding) -> usize
    ensures { ((mark : ℕ) → result ≡ length (joined mark (place_parts finding))) × (result ≤ 87) }
{
    if finding.name == 0 {
        return 0;
    }
    1 + name_length(finding.name) + decimal_length(finding.ordinal as usize) + value_length(finding)
}

// How long ERR-3 is.
fn code_length(code: u16) -> usize
    ensures { (result ≡ length (code_text code)) × (result ≤ 40) }
{
    match code {
        100 => 34,
        101 => 34,
        102 => 27,
        103 => 33,
        200 => 36,
        201 => 34,
        202 => 37,
        203 => 34,
        _ => 0,
    }
}

// How long the ERR segment of a finding is.
pub(crate) fn err_length(finding: Finding) -> usize
    ensures { ((d : Delims) → result ≡ length (ended (err_line d finding))) × (result ≤ 160) }
{
    13 + place_length(finding) + code_length(finding.code) + decimal_length(finding.rule as usize)
}
