// Whether a finding's record is in range.
ghost use Rattle.std.specs.Prelude.{◌≡◌, ◌&&◌, ◌||◌};
ghost use Rattle.hl7.specs.Bytes.{within};
ghost use Rattle.grade.specs.Limits.{rule_limit};
ghost use Rattle.grade.specs.Deciding.{is_header};
ghost use Rattle.grade.specs.Range.{number_limit, is_code, is_error, has_severity, at_segment, at_end, order_in_range, at_place, value_in_range, in_range};

use crate::finding::Finding;
use crate::limits::{COMPONENT_LIMIT, FIELD_LIMIT, SEGMENT_COUNT};
use hl7::bytes::is_within;

// The highest number of a segment and of a repetition.
const NUMBER_LIMIT: u32 = 32768;

const RULE_LIMIT: u16 = 256;

// A code from 200 to 203.
pub fn is_header(finding: Finding) -> bool
    ensures { result ≡ is_header finding }
{
    (200 <= finding.code) & (finding.code <= 203)
}

fn is_code(code: u16) -> bool
    ensures { result ≡ is_code code }
{
    ((100 <= code) & (code <= 103)) | ((200 <= code) & (code <= 203))
}

fn is_number(n: u32) -> bool
    ensures { result ≡ within 1 number_limit n }
{
    (1 <= n) & (n <= NUMBER_LIMIT)
}

fn is_rule(n: u16) -> bool
    ensures { result ≡ within 1 rule_limit n }
{
    (1 <= n) & (n <= RULE_LIMIT)
}

fn is_error(finding: Finding) -> bool
    ensures { result ≡ is_error finding }
{
    finding.severity == b'E'
}

fn has_severity(finding: Finding) -> bool
    ensures { result ≡ has_severity finding }
{
    is_error(finding) | (finding.severity == b'W') | (finding.severity == b'I')
}

// One of the ten names, and a number of a segment.
fn at_segment(finding: Finding) -> bool
    ensures { result ≡ at_segment finding }
{
    is_within(finding.name, 1, SEGMENT_COUNT) & is_number(finding.ordinal)
}

fn at_end(finding: Finding) -> bool
    ensures { result ≡ at_end finding }
{
    (finding.name == 0) & (finding.ordinal == 0)
}

fn order_in_range(finding: Finding) -> bool
    ensures { result ≡ order_in_range finding }
{
    is_error(finding)
        & (finding.field == 0)
        & (finding.repetition == 0)
        & (finding.component == 0)
        & (finding.rule == 0)
        & (at_segment(finding) | at_end(finding))
}

fn at_place(finding: Finding) -> bool
    ensures { result ≡ at_place finding }
{
    at_segment(finding)
        & is_within(finding.field, 1, FIELD_LIMIT)
        & is_number(finding.repetition)
        & (finding.component <= COMPONENT_LIMIT)
}

// A header code has rule 0, the others a rule's number.
fn value_in_range(finding: Finding) -> bool
    ensures { result ≡ value_in_range finding }
{
    if is_header(finding) {
        return is_error(finding) & (finding.rule == 0) & at_place(finding);
    }
    has_severity(finding) & is_rule(finding.rule) & at_place(finding)
}

pub fn in_range(finding: Finding) -> bool
    ensures { result ≡ in_range finding }
{
    if finding.code == 100 {
        return order_in_range(finding);
    }
    is_code(finding.code) & value_in_range(finding)
}
