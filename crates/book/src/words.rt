// The words for a refusal.
ghost use Rattle.std.specs.Prelude.{◌≡◌};
ghost use Rattle.ack.specs.Output.{Adds};
ghost use Rattle.booktext.specs.Faults.{number_of};
ghost use Rattle.book.specs.Words.{words_for};

use ack::output::Output;
use booktext::told::Row;
use booktext::told::Row::*;

// None for those of a book.
#[tactic(auto, unfolding(crate::specs::Words::words_for, crate::specs::Words::later_words, crate::specs::Words::last_words))]
fn words_for(row: Row) -> &'static [u8]
    ensures { result.now ≡ words_for (number_of row) }
{
    match row {
        LongText => b"the text has over 1,048,576 bytes",
        WrongByte =>
            b"a byte that is not allowed: only ASCII signs, blanks, tabs and line ends are",
        UnknownStatement => b"the first word is no statement's name",
        Misplaced => b"this statement may not stand here",
        WordCount => b"too few or too many words",
        WrongVersion => b"the version is not 1",
        WrongKey => b"not a key: 1 to 20 signs, none of | ^ ~ \\ &",
        WrongCode => b"not a code: 1 to 20 signs, none of | ^ ~ \\ &",
        WrongPlace => b"not a place: SEGMENT-FIELD or SEGMENT-FIELD.COMPONENT",
        WrongKind => b"not a kind: REQUIRED, LENGTH, NUMBER, DATE, TIME or CODE",
        WrongSeverity => b"not a severity: E, W or I",
        WrongBound => b"the bound does not fit the kind",
        NameTaken => b"an earlier one has this name or key",
        SectionCount => b"there are no sections, or over 64",
        UnknownName => b"it names a set or common that there is not",
        UsedTwice => b"the section has used this common before",
        RuleStands =>
            b"the section has a rule of this place and kind: write also for a further one",
        NoRule => b"the section has no rule of this place and kind",
        WrongChange => b"a code that more adds is there, or one that less takes is not",
        RuleCount => b"the section has over 256 rules",
        SetCount => b"the section holds over 64 sets",
        StraySet => b"the section does not hold this set",
        CodeCount => b"the set has no code, or over 1,024",
        LongBook => b"the book has over 65,536 bytes, counted up to this section",
        ShortOutput => b"what is to be printed has over 4,194,304 bytes",
        StatementCount => b"the section has over 2,048 statements, with those it takes over",
        Malformed | OtherVersion => b"",
    }
}

pub(crate) fn put_words(out: &mut Output<'_>, row: Row)
    ensures { Adds out.old (words_for (number_of row)) out.new }
{
    out.put(words_for(row));
}
