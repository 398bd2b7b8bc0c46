// The whole book: its head, its sections, and the section with a key.
ghost use Rattle.std.specs.Prelude.{Err, ◌≡◌, ℕ, ◌≤◌, ◌<◌, true, not, [], ◌∷◌, map, length, get_or, drop, take};
ghost use Rattle.hl7.specs.Bytes.{all, among};
ghost use Rattle.hl7.specs.Refusals.{row};
ghost use Rattle.grade.specs.Limits.{head_size, section_limit};
ghost use Rattle.grade.specs.Reader.{is_found, times};
ghost use Rattle.grade.specs.Book.{section, distinct, head_right, sections};
ghost use Rattle.grade.specs.Admission.{book_rows, refusal_told, indexed_told};
ghost use Rattle.grade.specs.Standing.{up_to, text_at, TextFits, stands_at, site_at, starting, site_of, site_in, IndexesBy, Indexes, OpensBook};

use crate::limits::{BOOK_LIMIT, BOOK_VERSION, HEAD_SIZE, RULE_SIZE, SECTION_LIMIT};
use crate::refusal::Refusal;
use crate::walk::{Section, pair_at, section_end, text_after, text_part};
use hl7::bytes::{begins_with, same_bytes};

// Why a book cannot be used: rows 7 and 8.
#[derive(Clone, Copy, PartialEq, Eq)]
pub enum Unusable {
    Malformed,
    OtherVersion,
}

// How many sections a book has, or why it cannot be used.
pub type Indexed = Result<usize, Unusable>;

impl From<Unusable> for Refusal {
    ghost from_gives = { λ why refusal. refusal_told refusal ≡ indexed_told (Err why) };

    fn from(why: Unusable) -> Refusal {
        match why {
            Unusable::Malformed => Refusal::Malformed,
            Unusable::OtherVersion => Refusal::OtherVersion,
        }
    }
}

// Reads count sections, and notes where each starts.
fn walk_sections(book: &[u8], at: usize, count: usize, starts: &mut [usize]) -> Option<usize>
    requires { count ≤ length starts.old }
    ensures { times count (starting section) book.now at ≡ up_to (take count starts.new) result }
{
    let mut from = at;
    for i in 0..count {
        let end = section_end(book, from)?;
        starts[i] = from;
        from = end;
    }
    Some(from)
}

// The key is that of a section.
fn is_among(book: &[u8], starts: &[usize], key: &[u8]) -> bool
    requires { (k : ℕ) → k < length starts.now → TextFits book.now (get_or starts.now k 0) }
    ensures { result ≡ among key.now (map (text_at book.now) starts.now) }
{
    starts
        .iter()
        .any(|at| same_bytes(key, text_part(book, *at)))
}

fn keys_distinct(book: &[u8], starts: &[usize]) -> bool
    requires { (k : ℕ) → k < length starts.now → TextFits book.now (get_or starts.now k 0) }
    ensures { result ≡ distinct (map (text_at book.now) starts.now) }
{
    let mut rest = starts;
    while let Some((at, later)) = rest.split_first() {
        if is_among(book, later, text_part(book, *at)) {
            return false;
        }
        rest = later;
    }
    true
}

// Where the rules and the sets of the section at a position stand. Rules are all of one size, so nothing is read again.
pub fn site_at(book: &[u8], at: usize) -> Section
    requires { stands_at book.now at ≡ true }
    ensures { result ≡ site_at book.now at }
{
    let counts = text_after(book, at);
    let rules_at = counts + 3;
    let rule_count = pair_at(book, counts);
    Section {
        rules_at,
        rule_count,
        sets_at: rules_at + RULE_SIZE * rule_count,
        set_count: book[counts + 2],
    }
}

// The section with a key, of those that start at the positions.
fn find_section(book: &[u8], starts: &[usize], key: &[u8]) -> Result<Section, Refusal>
    requires { all (stands_at book.now) starts.now ≡ true }
    ensures { OpensBook (row 9 (not (among key.now (map (text_at book.now) starts.now))) ∷ []) (site_of book.now key.now starts.now) result }
{
    match starts
        .iter()
        .find(|at| same_bytes(key, text_part(book, **at)))
    {
        Some(at) => Ok(site_at(book, *at)),
        None => Err(Refusal::NoSection),
    }
}

#[tactic(auto, unfolding(crate::specs::Book::head_right))]
fn head_right(book: &[u8]) -> bool
    ensures { result ≡ head_right book.now }
{
    let marked = begins_with(book, b"VXB");
    (HEAD_SIZE <= book.len()) & (book.len() <= BOOK_LIMIT) & marked
}

fn index_sections(book: &[u8], starts: &mut [usize]) -> Indexed
    requires { section_limit ≤ length starts.old }
    ensures { IndexesBy (row 7 (not (is_found (sections book.now head_size))) ∷ []) book.now starts.new result }
{
    if book.len() <= HEAD_SIZE {
        return Err(Unusable::Malformed);
    }
    let count = book[HEAD_SIZE] as usize;
    if !((1 <= count) & (count <= SECTION_LIMIT)) {
        return Err(Unusable::Malformed);
    }
    let Some(end) = walk_sections(book, HEAD_SIZE + 1, count, starts) else {
        return Err(Unusable::Malformed);
    };
    if end != book.len() {
        return Err(Unusable::Malformed);
    }
    if keys_distinct(book, &starts[..count]) {
        Ok(count)
    } else {
        Err(Unusable::Malformed)
    }
}

// How many sections a book has, and first in the lent slice where they start; or why the book cannot be used. The whole book is checked, once for any
// number of keys.
pub fn index_book(book: &[u8], starts: &mut [usize]) -> Indexed
    requires { section_limit ≤ length starts.old }
    ensures { Indexes book.now starts.new result }
{
    if !head_right(book) {
        return Err(Unusable::Malformed);
    }
    if pair_at(book, 3) != BOOK_VERSION {
        return Err(Unusable::OtherVersion);
    }
    index_sections(book, starts)
}

// The book's refusals in their order, or the section with the key, by what `index_book` answered and noted.
pub(crate) fn open_at(
    book: &[u8],
    starts: &[usize],
    indexed: Indexed,
    key: &[u8],
) -> Result<Section, Refusal>
    requires { Indexes book.now starts.now indexed }
    ensures { OpensBook (book_rows book.now key.now) (site_in book.now key.now) result }
{
    let count = indexed?;
    find_section(book, &starts[..count], key)
}
