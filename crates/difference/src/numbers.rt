// The numbers of a rule's bound.
ghost use Rattle.std.specs.Prelude.{◌≡◌};
ghost use Rattle.difference.specs.Difference.{low_of, high_of, same_numbers};

use grade::rule::Kind;

// The numbers as a rule has them, 0 where there is none; two kinds with the same numbers may differ in their set, which a derive would tell apart.
fn low_of(kind: Kind) -> u8
    ensures { result ≡ low_of kind }
{
    match kind {
        Kind::Length { low, .. } => low,
        Kind::Time { digits } => digits,
        _ => 0,
    }
}

fn high_of(kind: Kind) -> u8
    ensures { result ≡ high_of kind }
{
    match kind {
        Kind::Length { high, .. } => high,
        _ => 0,
    }
}

pub(crate) fn same_numbers(kind: Kind, other: Kind) -> bool
    ensures { result ≡ same_numbers kind other }
{
    let low = low_of(kind) == low_of(other);
    let high = high_of(kind) == high_of(other);
    low & high
}
