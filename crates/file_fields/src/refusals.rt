// What can be wrong with a case, a book, the arguments of a call or its lent memory, and what a run can meet, each with its number in the paper.
// 13 is retired and not used again.
ghost use Rattle.std.specs.Prelude.{◌≡◌};
ghost use Rattle.file_fields.specs.Faults.{number_of};

#[derive(Clone, Copy, PartialEq, Eq)]
pub enum Fault {
    Overrun = 1,
    UnknownTag = 2,
    Misplaced = 3,
    WrongLength = 4,
    WrongCount = 5,
    OutOfRange = 6,
    WrongEnds = 7,
    WrongPath = 8,
    WrongTimes = 9,
    WrongTable = 10,
    NoTable = 11,
    NoRoom = 12,
    TooShort = 14,
    WrongChoice = 15,
    NoTrain = 16,
    StopTooLate = 17,
    WrongCouple = 18,
}

impl Fault {
    // Its number in the paper.
    pub fn number(self) -> u16
        ensures { result ≡ number_of self }
    {
        self as u16
    }
}

// The refusal of a case, a book or the arguments of a call: what is wrong, in which file (0 case, 1 book), and at which place of it.
// The file stays a number: so the record Refusal of rules/specs/Refusals, `told` in file_lookup and the answer that C reads have it.
#[derive(Clone, Copy, PartialEq, Eq)]
pub struct Refusal {
    pub fault: Fault,
    pub file: usize,
    pub place: usize,
}
