// What an entry answers: done with a value, or refused for a reason of the table in docs/PROMISES.md. One error type for all entries;
// serves them and whoever calls them.
#![tactic(auto)]

ghost use Rattle.std.specs.Prelude.{◌≡◌};
ghost use Rattle.answers.specs.Answers.{flaw_number, number_of};
ghost use Rattle.answers.specs.declared.Refusal.TheVariants.{InFile};

// What of a file is wrong.
#[derive(Clone, Copy, Debug, PartialEq, Eq)]
pub enum Flaw {
    EndsEarly,
    Misspelled,
    OtherEdition,
    WordSize,
    ManyArrows,
    OtherArrow,
    Leftovers,
    OtherCheck,
}

// What is wrong, and where in the file it shows.
#[derive(Clone, Copy, Debug, PartialEq, Eq)]
pub struct Fault {
    pub flaw: Flaw,
    pub place: usize,
}

// Why an entry refuses.
#[derive(Clone, Copy, Debug, PartialEq, Eq)]
pub enum Refusal {
    EmptyWord,
    LongWord,
    ShortRoom,
    LongText,
    ShortOutput,
    Unmade,
    ShortWord,
    InFile(Fault),
}

// A fault of a file is a reason to refuse it, so that `?` hands it on.
impl From<Fault> for Refusal {
    ghost from_gives = { λ fault refusal. refusal ≡ InFile fault };

    fn from(shown: Fault) -> Refusal {
        Refusal::InFile(shown)
    }
}

impl Flaw {
    // The fault that it is where it shows.
    pub fn at(self, place: usize) -> Fault
        ensures { result ≡ record { flaw = self; place = place } }
    {
        Fault { flaw: self, place }
    }

    // The number of the table.
    pub fn number(self) -> u8
        ensures { result ≡ flaw_number self }
    {
        match self {
            Flaw::EndsEarly => 5,
            Flaw::Misspelled => 6,
            Flaw::OtherEdition => 7,
            Flaw::WordSize => 8,
            Flaw::ManyArrows => 9,
            Flaw::OtherArrow => 10,
            Flaw::Leftovers => 11,
            Flaw::OtherCheck => 13,
        }
    }
}

impl Refusal {
    // The number of the table.
    pub fn number(self) -> u8
        ensures { result ≡ number_of self }
    {
        match self {
            Refusal::EmptyWord => 1,
            Refusal::LongWord => 2,
            Refusal::ShortRoom => 3,
            Refusal::LongText => 4,
            Refusal::InFile(fault) => fault.flaw.number(),
            Refusal::ShortOutput => 12,
            Refusal::Unmade => 16,
            Refusal::ShortWord => 17,
        }
    }
}
