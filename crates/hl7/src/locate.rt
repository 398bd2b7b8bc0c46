// A reader asks for a place, and gets a part of the lent message itself.
ghost use Rattle.hl7.specs.Refusals.{located};
ghost use Rattle.hl7.specs.Place.{Lies};
ghost use Rattle.hl7.specs.Spans.{Spans};

use crate::cut::Span;
use crate::place::{delims_of, in_message};
use crate::refusal::is_sound;

// Where a place stands in a message: nowhere, at its start, where refusals 1 to 5 apply. Its four numbers stand alone, as the call for other languages has
// them.
pub fn locate_span(
    m: &[u8],
    segment: usize,
    field: usize,
    repetition: usize,
    component: usize,
) -> Span
    ensures { Spans m.now (located m.now segment field repetition component) result }
{
    if is_sound(m) {
        return in_message(delims_of(m), m, segment, field, repetition, component);
    }
    Span { start: 0, end: 0 }
}

// The bytes of a place, as a part of the message itself; empty where it is missing or refusals 1 to 5 apply.
pub fn locate(m: &[u8], segment: usize, field: usize, repetition: usize, component: usize) -> &[u8]
    ensures { Lies m.entry result (located m.now segment field repetition component) }
{
    let at = locate_span(m, segment, field, repetition, component);
    &m[at.start..at.end]
}
