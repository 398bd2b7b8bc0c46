// How much a book holds, read from its own bytes.
ghost use Rattle.std.specs.Prelude.{◌≡◌, true, map, ◌≤◌, length};
ghost use Rattle.hl7.specs.Bytes.{all};
ghost use Rattle.grade.specs.Limits.{section_limit};
ghost use Rattle.grade.specs.Standing.{stands_at, contents_at};
ghost use Rattle.book.specs.Counts.{sections_in};
ghost use Rattle.book.specs.Standing.{counts_of};

use grade::book::{index_book, site_at};

// How many sections a book has, and how many rules and sets they have together.
#[derive(Clone, Copy)]
pub struct Counts {
    pub sections: usize,
    pub rules: usize,
    pub sets: usize,
}

// Those of the sections that start at the positions.
fn add_up(book: &[u8], starts: &[usize]) -> Counts
    requires { (all (stands_at book.now) starts.now ≡ true) × (length starts.now ≤ section_limit) }
    ensures { result ≡ counts_of (map (contents_at book.now) starts.now) }
{
    let mut rules = 0;
    let mut sets = 0;
    for start in starts {
        let site = site_at(book, *start);
        rules += site.rule_count;
        sets += site.set_count as usize;
    }
    Counts {
        sections: starts.len(),
        rules,
        sets,
    }
}

// Those of a book; one that cannot be used holds nothing.
pub(crate) fn counts_of(book: &[u8]) -> Counts
    ensures { result ≡ counts_of (sections_in book.now) }
{
    let mut starts = [0usize; 64];
    match index_book(book, &mut starts) {
        Ok(count) => add_up(book, &starts[..count]),
        Err(_) => add_up(book, &[]),
    }
}
