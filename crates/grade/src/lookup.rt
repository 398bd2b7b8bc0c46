// What stands in a section of a sound book: a rule by its number, the rules of a name, and the codes of a set.
ghost use Rattle.std.specs.Prelude.{◌≡◌, ◌<◌, ◌≤◌, true, get_or};
ghost use Rattle.hl7.specs.Bytes.{among};
ghost use Rattle.grade.specs.Limits.{code_limit, link_limit, name_places, set_limit};
ghost use Rattle.grade.specs.Reader.{is_found, items_of, times};
ghost use Rattle.grade.specs.Book.{text, code_set};
ghost use Rattle.grade.specs.Rule.{no_rule};
ghost use Rattle.grade.specs.Standing.{end_of, TextFits, Looks, rules_in, Holds, SetStands, codes_at, NotedSets, Placed};
ghost use Rattle.grade.specs.Linked.{Linked};

use crate::limits::{LINKS, NAME_PLACES, RULE_SIZE, SET_PLACES};
use crate::rule::{Rule, name_at, rule_said};
use crate::walk::{Section, pair_at, text_after, text_part};
use hl7::bytes::same_bytes;
use std::ops::ControlFlow;

// The rule with a number, counted from 0, whose name is known. Its limits are not looked at again.
pub(crate) fn rule_named(book: &[u8], section: Section, i: usize, segment: u8) -> Rule
    requires { Holds book.now section × (i < section.rule_count) × (segment ≡ (get_or (rules_in book.now section) i no_rule).place.segment) }
    ensures { result ≡ get_or (rules_in book.now section) i no_rule }
{
    rule_said(book, section.rules_at + RULE_SIZE * i, segment).unwrap()
}

// The rule with a number, counted from 0.
pub fn rule_at(book: &[u8], section: Section, i: usize) -> Rule
    requires { Holds book.now section × (i < section.rule_count) }
    ensures { result ≡ get_or (rules_in book.now section) i no_rule }
{
    rule_named(book, section, i, name_of_rule(book, section, i))
}

// The number of the name that the rule with a number is about.
fn name_of_rule(book: &[u8], section: Section, i: usize) -> u8
    requires { Holds book.now section × (i < section.rule_count) }
    ensures { (result ≡ (get_or (rules_in book.now section) i no_rule).place.segment) × (result < name_places) }
{
    name_at(book, section.rules_at + RULE_SIZE * i)
}

// For each name the first rule about it, and behind the names for each rule the next one about its segment: the rules' number where there is none.
pub fn links_of(book: &[u8], section: Section) -> [u16; LINKS]
    requires { Holds book.now section }
    ensures { Linked (rules_in book.now section) result }
{
    let n = section.rule_count;
    let mut links = [n as u16; LINKS];
    for i in (0..n).rev() {
        let name = usize::from(name_of_rule(book, section, i));
        links[NAME_PLACES + i] = links[name];
        links[name] = i as u16;
    }
    links
}

// The link with a number.
pub(crate) fn link_at(links: &[u16; LINKS], k: usize) -> usize
    requires { k < link_limit }
    ensures { result ≡ get_or links.now k 0 }
{
    usize::from(links[k])
}

// Where the codes that stand at a position end.
fn codes_after(book: &[u8], at: usize, count: usize) -> usize
    requires { is_found (times count (text code_limit) book.now at) ≡ true }
    ensures { end_of (times count (text code_limit) book.now at) ≡ Some result }
{
    (0..count).fold(at, |from, _| text_after(book, from))
}

// Where the set that stands at a position ends.
fn set_after(book: &[u8], at: usize) -> usize
    requires { SetStands book.now at }
    ensures { end_of (code_set book.now at) ≡ Some result }
{
    codes_after(book, at + 2, pair_at(book, at))
}

// Where each of count sets stands, the first at a position.
fn note_sets(book: &[u8], at: usize, count: usize) -> [usize; SET_PLACES]
    requires { (is_found (times count code_set book.now at) ≡ true) × (count ≤ set_limit) }
    ensures { NotedSets book.now at count result }
{
    let mut places = [0usize; SET_PLACES];
    let mut from = at;
    for i in 0..count {
        places[i] = from;
        from = set_after(book, from);
    }
    places
}

// Where each set of a section stands: they are walked once, and then found at once.
pub fn sets_of(book: &[u8], section: Section) -> [usize; SET_PLACES]
    requires { Holds book.now section }
    ensures { Placed book.now section result }
{
    note_sets(book, section.sets_at, usize::from(section.set_count))
}

// The place with a number.
pub(crate) fn place_at(places: &[usize; SET_PLACES], k: usize) -> usize
    requires { k < set_limit }
    ensures { result ≡ get_or places.now k 0 }
{
    places[k]
}

// Looks at one code: breaks off where it is the value, or else goes on where the next one stands. One as long as the value ends where the value's length
// says, so that the next look does not wait for this one's length byte.
fn look(book: &[u8], at: usize, value: &[u8]) -> ControlFlow<(), usize>
    requires { TextFits book.now at }
    ensures { Looks book.now at value.now result }
{
    let n = value.len();
    if usize::from(book[at]) == n {
        if same_bytes(value, text_part(book, at)) {
            return ControlFlow::Break(());
        }
        return ControlFlow::Continue(at + 1 + n);
    }
    ControlFlow::Continue(text_after(book, at))
}

// The value is one of count codes that stand at a position.
pub fn among_codes(book: &[u8], at: usize, count: usize, value: &[u8]) -> bool
    requires { is_found (times count (text code_limit) book.now at) ≡ true }
    ensures { result ≡ among value.now (items_of (times count (text code_limit) book.now at)) }
{
    let mut from = at;
    for _ in 0..count {
        match look(book, from, value) {
            ControlFlow::Break(()) => return true,
            ControlFlow::Continue(next) => from = next,
        }
    }
    false
}

// The value is a code of the set that stands at a position.
pub(crate) fn has_code(book: &[u8], at: usize, value: &[u8]) -> bool
    requires { SetStands book.now at }
    ensures { result ≡ among value.now (codes_at book.now at) }
{
    among_codes(book, at + 2, pair_at(book, at), value)
}
