// A rule and the codes of its set.
ghost use Rattle.std.specs.Prelude.{◌≡◌, true};
ghost use Rattle.grade.specs.Book.{text};
ghost use Rattle.grade.specs.Limits.{code_limit};
ghost use Rattle.grade.specs.Reader.{is_found, times};

use grade::lookup::among_codes;
use grade::rule::Rule;
use grade::walk::{text_after, text_part};

// The rule, and how many codes stand where in its book: none, if it has no set.
#[derive(Clone, Copy)]
pub struct Ruled<'a> {
    pub rule: Rule,
    pub book: &'a [u8],
    pub from: usize,
    pub count: usize,
    ghost stand: { is_found (times count (text code_limit) book.now from) ≡ true },
}

impl Ruled<'_> {
    ghost use Rattle.std.specs.Prelude.{◌≡◌};
    ghost use Rattle.hl7.specs.Bytes.{among};
    ghost use Rattle.difference.specs.Difference.{all_among};
    ghost use Rattle.difference.specs.Ruled.{codes_in};

    // A code is one of them.
    pub(crate) fn has_code(&self, code: &[u8]) -> bool
        ensures { result ≡ among code.now (codes_in self.now) }
    {
        among_codes(self.book, self.from, self.count, code)
    }

    // Each of them is one of another rule's.
    pub(crate) fn all_among(&self, other: &Ruled<'_>) -> bool
        ensures { result ≡ all_among (codes_in self.now) (codes_in other.now) }
    {
        let mut every = true;
        let mut from = self.from;
        for _i in 0..self.count {
            every = every & other.has_code(text_part(self.book, from));
            from = text_after(self.book, from);
        }
        every
    }
}
