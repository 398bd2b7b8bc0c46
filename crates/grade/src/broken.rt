// Whether a value breaks a kind, and whether a repetition breaks a rule.
ghost use Rattle.std.specs.Prelude.{◌≡◌, false};
ghost use Rattle.grade.specs.Standing.{codes_at};
ghost use Rattle.grade.specs.Broken.{is_value, is_required, fits, broken, judges};
ghost use Rattle.grade.specs.Findings.{value_in};
ghost use Rattle.grade.specs.Rest.{CodesStand, breaks_by};

use crate::date::{is_date, is_time};
use crate::lookup::has_code;
use crate::rule::{Kind, Rule};
use crate::value::{has_length, is_number};
use hl7::place::{Delims, component};

pub(crate) fn is_required(kind: Kind) -> bool
    ensures { result ≡ is_required kind }
{
    matches!(kind, Kind::Required)
}

// Whether bytes count as a value: they are neither none nor exactly two quotes.
// A goal is named after its test: found by a lemma, and not by a file that cites the name, it can be proved of another test of the same meaning too.
#[tactic(auto, using(crate::proofs::Quotes::value_of_two, crate::proofs::Quotes::value_of_others))]
fn is_value(v: &[u8]) -> bool
    ensures { result ≡ is_value v.now }
{
    if v.len() == 2 {
        return (v[0] != b'"') | (v[1] != b'"');
    }
    0 < v.len()
}

// Whether what counts as a value fits a kind, the codes of whose set stand at a position of the book.
fn does_fit(kind: Kind, value: &[u8], book: &[u8], codes: usize) -> bool
    requires { CodesStand book.now kind codes }
    ensures { result ≡ fits kind (codes_at book.now codes) value.now }
{
    match kind {
        Kind::Required => true,
        Kind::Length { low, high } => has_length(value, usize::from(low), usize::from(high)),
        Kind::Number => is_number(value),
        Kind::Date => is_date(value),
        Kind::Time { digits } => is_time(value, usize::from(digits)),
        Kind::Code { .. } => has_code(book, codes, value),
    }
}

#[tactic(auto, unfolding(crate::specs::Broken::broken))]
fn is_broken(kind: Kind, value: &[u8], book: &[u8], codes: usize) -> bool
    requires { CodesStand book.now kind codes }
    ensures { result ≡ broken kind (codes_at book.now codes) value.now }
{
    if !is_value(value) {
        return is_required(kind);
    }
    !does_fit(kind, value, book, codes)
}

// Whether a kind is about a repetition of which so many came before.
#[tactic(auto, unfolding(crate::specs::Broken::judges))]
fn is_judged(kind: Kind, passed: u32) -> bool
    ensures { result ≡ judges kind passed }
{
    !is_required(kind) | (passed == 0)
}

// Whether a rule is broken at a repetition of which so many came before, by its value there.
pub(crate) fn breaks_rule(
    d: Delims,
    rep: &[u8],
    book: &[u8],
    rule: Rule,
    codes: usize,
    passed: u32,
) -> bool
    requires { CodesStand book.now rule.kind codes }
    ensures { result ≡ breaks_by book.now rule codes passed (value_in d false rule rep.now) }
{
    let value = component(d, rep, false, usize::from(rule.place.component));
    is_judged(rule.kind, passed) & is_broken(rule.kind, value, book, codes)
}
