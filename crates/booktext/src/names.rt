// The names of the sets that a section holds, in their order: where each stands in the text. Names are compared by their bytes.
ghost use Rattle.std.specs.Prelude.{◌≤◌};

use crate::cell::SmallCell;
use crate::line::{next_word, part, skip_words};
use crate::statement::verb_at;
use crate::word::SETS;
use hl7::bytes::same_bytes;
use hl7::cut::Span;

// The most sets of a section.
const SET_LIMIT: usize = 64;

// So many of the spans are names.
#[derive(Clone, Copy)]
pub struct Names {
    pub spans: [Span; 64],
    pub count: usize,
    pub ghost few: { count ≤ 64 },
}

impl Names {
    ghost use Rattle.std.specs.Prelude.{◌≡◌, [], ◌∷◌, map, ◌<◌, ◌≤◌, length, get_or};
    ghost use Rattle.booktext.specs.Lines.{number_from};
    ghost use Rattle.booktext.specs.Contents.{with_names, pinned, named, names_of};
    ghost use Rattle.booktext.specs.Standing.{no_span, span_bytes, words_from, statement_at, noted, names_in, NamesMore, NamesAre};

    fn none() -> Names
        ensures { result.count ≡ 0 }
    {
        Names {
            spans: [Span { start: 0, end: 0 }; 64],
            count: 0,
        }
    }

    // Name i, from 0.
    pub(crate) fn name_at<'a>(&self, t: &'a [u8], i: usize) -> &'a [u8]
        requires { i < self.now.count }
        ensures { result.now ≡ span_bytes t.now (get_or self.now.spans i no_span) }
    {
        part(t, self.spans[i])
    }

    // The number of a name, from 1; 0 where it is none of them.
    pub(crate) fn number_of(&self, t: &[u8], name: &[u8]) -> usize
        ensures { (result ≡ number_from 1 name.now (names_in t.now self.now)) × (result ≤ 64) }
    {
        for i in 0..self.count {
            if same_bytes(name, self.name_at(t, i)) {
                return i + 1;
            }
        }
        0
    }

    // Notes one name more, where it is new; or there is no room for it.
    fn note(&mut self, t: &[u8], name: Span) -> bool
        ensures { NamesMore t.now self.old result self.new (span_bytes t.now name ∷ []) }
    {
        if self.number_of(t, part(t, name)) != 0 {
            return true;
        }
        if SET_LIMIT <= self.count {
            return false;
        }
        self.spans[self.count] = name;
        self.count += 1;
        true
    }

    // Notes the words from a position on.
    fn note_words(&mut self, t: &[u8], at: usize) -> bool
        ensures { NamesMore t.now self.old result self.new (words_from t.now at) }
    {
        let mut i = at;
        loop {
            let w = next_word(t, i);
            if w.end <= w.start {
                return true;
            }
            if !self.note(t, w) {
                return false;
            }
            i = w.end;
        }
    }

    // Notes those of a statement's `sets`.
    fn note_sets(&mut self, t: &[u8], cell: SmallCell) -> bool
        ensures { NamesMore t.now self.old result self.new (pinned (noted t.now cell ∷ [])) }
    {
        if verb_at(t, cell.line as usize) == SETS {
            return self.note_words(t, skip_words(t, cell.line as usize, 1));
        }
        true
    }

    // Notes the one that a rule of kind CODE gives.
    fn note_code(&mut self, t: &[u8], cell: SmallCell) -> bool
        ensures { NamesMore t.now self.old result self.new (named (noted t.now cell ∷ [])) }
    {
        if cell.asks_code(t) {
            return self.note(t, next_word(t, cell.bound_at(t)));
        }
        true
    }

    // Those in `sets` lines of the statements in the cells; none where there are too many.
    fn pinned(t: &[u8], cells: &[SmallCell]) -> Option<Names>
        ensures { NamesAre t.now (with_names [] (pinned (map (noted t.now) cells.now))) result }
    {
        let mut names = Names::none();
        for &cell in cells {
            if !names.note_sets(t, cell) {
                return None;
            }
        }
        Some(names)
    }

    // The sets that a section holds whose statements are in the cells; none where there are too many.
    pub(crate) fn of(t: &[u8], cells: &[SmallCell]) -> Option<Names>
        ensures { NamesAre t.now (names_of (map (noted t.now) cells.now)) result }
    {
        let mut names = Names::pinned(t, cells)?;
        for &cell in cells {
            if !names.note_code(t, cell) {
                return None;
            }
        }
        Some(names)
    }
}
