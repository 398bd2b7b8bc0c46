// A section of one of the two books.
ghost use Rattle.std.specs.Prelude.{◌≡◌, true, take};
ghost use Rattle.grade.specs.Standing.{rules_in, stands_at, site_at, Placed};
ghost use Rattle.difference.specs.Difference.{spots};

use crate::counterpart::{counterpart_of, spots_of};
use crate::ruled::Ruled;
use grade::book::site_at;
use grade::limits::{RULE_LIMIT, SET_PLACES};
use grade::lookup::{rule_at, sets_of};
use grade::rule::Kind;
use grade::walk::{Section, pair_at};

// A section, where its sets stand, and place and kind of each of its rules.
#[derive(Drop)]
pub struct Side<'a> {
    pub book: &'a [u8],
    pub start: usize,
    pub section: Section,
    pub places: [usize; SET_PLACES],
    pub noted: [usize; RULE_LIMIT],
    ghost stands: { stands_at book.now start ≡ true },
    ghost sited: { section ≡ site_at book.now start },
    ghost placed: { Placed book.now section places },
    ghost are: { take section.rule_count noted ≡ spots (rules_in book.now section) },
}

impl<'a> Side<'a> {
    ghost use Rattle.std.specs.Prelude.{◌≡◌, true, ◌<◌, IfSome};
    ghost use Rattle.grade.specs.Standing.{rules_in, sets_in, stands_at};
    ghost use Rattle.difference.specs.Difference.{spots, counterpart};
    ghost use Rattle.difference.specs.Ruled.{Rules};
    ghost use Rattle.difference.specs.Number.{number_or_0};

    // The section that starts at a position of a book.
    pub(crate) fn new(book: &'a [u8], start: usize) -> Side<'a>
        requires { stands_at book.now start ≡ true }
        ensures { (result.book.now ≡ book.now) × (result.start ≡ start) }
    {
        let section = site_at(book, start);
        Side {
            book,
            start,
            section,
            places: sets_of(book, section),
            noted: spots_of(book, section),
        }
    }

    // Place and kind of each rule.
    pub(crate) fn spots(&self) -> &[usize]
        ensures { result.now ≡ spots (rules_in self.now.book.now self.now.section) }
    {
        &self.noted[..self.section.rule_count]
    }

    // The rule with a number from 0.
    pub(crate) fn ruled(&self, i: usize) -> Ruled<'a>
        requires { i < self.now.section.rule_count }
        ensures { Rules (rules_in self.now.book.now self.now.section) (sets_in self.now.book.now self.now.section) i result }
    {
        let rule = rule_at(self.book, self.section, i);
        let Kind::Code { set } = rule.kind else {
            return Ruled {
                rule,
                book: self.book,
                from: 0,
                count: 0,
            };
        };
        let start = self.places[set as usize - 1];
        Ruled {
            rule,
            book: self.book,
            from: start + 2,
            count: pair_at(self.book, start),
        }
    }

    // The number from 0, in another section, of the counterpart of a rule of this one.
    pub(crate) fn counterpart(&self, other: &Side<'_>, i: usize) -> Option<usize>
        requires { i < self.now.section.rule_count }
        ensures is { number_or_0 result ≡ counterpart (spots (rules_in self.now.book.now self.now.section)) (spots (rules_in other.now.book.now other.now.section)) i }
        ensures inside { IfSome result (λ k. k < other.now.section.rule_count) }
    {
        counterpart_of(self.spots(), other.spots(), i)
    }
}
