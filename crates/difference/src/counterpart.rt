// Which rules of two sections belong together.
ghost use Rattle.std.specs.Prelude.{◌≡◌, ◌<◌, length, take, IfSome};
ghost use Rattle.hl7.specs.Spans.{occurrences};
ghost use Rattle.grade.specs.Limits.{rule_limit};
ghost use Rattle.grade.specs.Standing.{rules_in, Holds};
ghost use Rattle.difference.specs.Difference.{spots, numbered, counterpart};
ghost use Rattle.difference.specs.Number.{number_or_0};

use canonical::show::spot_of;
use grade::limits::RULE_LIMIT;
use grade::lookup::rule_at;
use grade::walk::Section;

// Place and kind of each rule of a section, each as one number.
pub(crate) fn spots_of(book: &[u8], section: Section) -> [usize; RULE_LIMIT]
    requires { Holds book.now section }
    ensures { (length result ≡ rule_limit) × (take section.rule_count result ≡ spots (rules_in book.now section)) }
{
    let mut noted = [0usize; RULE_LIMIT];
    for i in 0..section.rule_count {
        noted[i] = spot_of(rule_at(book, section, i));
    }
    noted
}

// How many of the spots are this one.
fn count_of(noted: &[usize], spot: usize) -> usize
    ensures { result ≡ occurrences spot noted.now }
{
    noted.iter().filter(|&x| *x == spot).count()
}

// The number from 0 of the one that is this spot and has so many such before it.
fn number_of(noted: &[usize], spot: usize, before: usize) -> Option<usize>
    ensures is { number_or_0 result ≡ numbered 1 spot before noted.now }
    ensures inside { IfSome result (λ k. k < length noted.now) }
{
    let mut left = before;
    for (i, x) in noted.iter().enumerate() {
        let here = *x == spot;
        if here & (left == 0) {
            return Some(i);
        }
        left = left.saturating_sub(usize::from(here));
    }
    None
}

// The number from 0, among others, of the counterpart of one.
pub(crate) fn counterpart_of(own: &[usize], others: &[usize], i: usize) -> Option<usize>
    requires { i < length own.now }
    ensures is { number_or_0 result ≡ counterpart own.now others.now i }
    ensures inside { IfSome result (λ k. k < length others.now) }
{
    let spot = own[i];
    let before = count_of(&own[..i], spot);
    number_of(others, spot, before)
}
