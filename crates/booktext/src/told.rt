// What a call answers.
ghost use Rattle.std.specs.Prelude.{◌≡◌};
ghost use Rattle.booktext.specs.Faults.{number_of, told_by, tell};

// The refusals, each with its number.
#[derive(Clone, Copy, PartialEq, Eq)]
pub enum Row {
    // of a book
    Malformed = 7,
    OtherVersion = 8,
    // of the text's bytes
    LongText = 31,
    WrongByte = 32,
    // of one statement by itself
    UnknownStatement = 33,
    Misplaced = 34,
    WordCount = 35,
    WrongVersion = 36,
    WrongKey = 37,
    WrongCode = 38,
    WrongPlace = 39,
    WrongKind = 40,
    WrongSeverity = 41,
    WrongBound = 42,
    // of names
    NameTaken = 43,
    SectionCount = 44,
    UnknownName = 45,
    // of what stands in a section before a statement
    UsedTwice = 46,
    RuleStands = 47,
    NoRule = 48,
    WrongChange = 49,
    // of a whole section
    RuleCount = 50,
    SetCount = 51,
    StraySet = 52,
    CodeCount = 53,
    LongBook = 54,
    // of the output
    ShortOutput = 55,
    StatementCount = 56,
}

// A refusal and two details: a line, a length, or which of two books; and the line of the section that was being made, 0 outside one.
#[derive(Clone, Copy, PartialEq, Eq)]
pub struct Fault {
    pub row: Row,
    pub detail: usize,
    pub section: usize,
}

// The length of what was made, or why nothing was.
pub type Told = Result<usize, Fault>;

impl Row {
    pub fn number(self) -> usize
        ensures { result ≡ number_of self }
    {
        self as usize
    }

    // Outside a section.
    pub fn with(self, detail: usize) -> Fault
        ensures { told_by result ≡ tell (number_of self) detail 0 }
    {
        self.in_section(detail, 0)
    }

    // In the section that has its head in a line.
    pub(crate) fn in_section(self, detail: usize, section: usize) -> Fault
        ensures { told_by result ≡ tell (number_of self) detail section }
    {
        Fault {
            row: self,
            detail,
            section,
        }
    }
}
