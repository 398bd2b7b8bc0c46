// Why a call refuses, and what a call answers.
ghost use Rattle.std.specs.Prelude.{◌≡◌};
ghost use Rattle.hl7.specs.Refusals.{reading_told};
ghost use Rattle.grade.specs.Admission.{refusal_told, paper};
ghost use Rattle.grade.specs.declared.refusal.Refusal.{Refusal};

use hl7::refusal::Unreadable;

// Why a call refuses: a case for each row of the paper, with what the row tells.
#[derive(Clone, Copy)]
pub enum Refusal {
    Unreadable(Unreadable),
    NoControlId,
    Malformed,
    OtherVersion,
    NoSection,
    WrongStamp,
    ShortOutput(usize),
    ShortTable(usize),
    WrongRecord,
    WrongFile,
    WrongMessage(usize),
}

// What a call answers: what was asked for, or the first refusal that applies.
pub type Answer = Result<usize, Refusal>;

impl From<Unreadable> for Refusal {
    ghost from_gives = { λ why refusal. refusal ≡ Refusal.Unreadable why };

    fn from(why: Unreadable) -> Refusal {
        Refusal::Unreadable(why)
    }
}

impl Refusal {
    // The row's number.
    pub fn number(self) -> u8
        ensures { result ≡ (refusal_told self).number }
    {
        match self {
            Refusal::Unreadable(Unreadable::Empty) => 1,
            Refusal::Unreadable(Unreadable::TooLong) => 2,
            Refusal::Unreadable(Unreadable::WrongByte(_)) => 3,
            Refusal::Unreadable(Unreadable::NoHeader) => 4,
            Refusal::Unreadable(Unreadable::WrongSegment(_)) => 5,
            Refusal::NoControlId => 6,
            Refusal::Malformed => 7,
            Refusal::OtherVersion => 8,
            Refusal::NoSection => 9,
            Refusal::WrongStamp => 10,
            Refusal::ShortOutput(_) => 11,
            Refusal::ShortTable(_) => 12,
            Refusal::WrongRecord => 13,
            Refusal::WrongFile => 14,
            Refusal::WrongMessage(_) => 15,
        }
    }

    // The row's detail.
    pub fn detail(self) -> usize
        ensures { result ≡ (refusal_told self).detail }
    {
        match self {
            Refusal::Unreadable(Unreadable::WrongByte(at)) => at,
            Refusal::Unreadable(Unreadable::WrongSegment(start)) => start,
            Refusal::ShortOutput(need) | Refusal::ShortTable(need) => need,
            Refusal::WrongMessage(ordinal) => ordinal,
            _ => 0,
        }
    }
}

// What reading a message says: 0, or one of refusals 1 to 5.
pub fn of_reading(reading: Result<(), Unreadable>) -> Answer
    ensures { paper result ≡ reading_told reading }
{
    reading?;
    Ok(0)
}
