// Letters, words and the places where they stand: definitions and laws, and the kinds of number that code uses for them. A state, a place
// and a letter are types of their own, so that none is taken for another. The types serve the rooms above; there is no code. The longest
// word and the longest text, in bytes, the longest words that a stream is opened for and that a storacle is built for, the most marks of a
// set, and the least word that is saved.
#![tactic(auto)]

ghost use Rattle.std.specs.Prelude.{◌≡◌, ℕ};
ghost use Rattle.std.proofs.Math.Option.{Option};
ghost use Rattle.words.specs.Answers.{arrow_to};

pub const WORD_LIMIT: usize = 4096;

pub const TEXT_LIMIT: usize = 16777216;

pub const STREAMED_LIMIT: usize = 64;

pub const STORACLE_LIMIT: usize = 128;

pub const MARKS_LIMIT: usize = 16;

pub const LEAST_SAVED: usize = 2;

#[derive(Clone, Copy, Debug, PartialEq, Eq)]
pub struct Letter(pub u8);

// A text stays a slice, and each clause asks that its places fit: a type for that one fact would stand in every clause that names a text.
#[derive(Clone, Copy, Debug, PartialEq, Eq)]
pub struct Place(pub u32);

// Where an arrow leads and what a supply is, is a state or none: `Option<State>`.
#[derive(Clone, Copy, Debug, PartialEq, Eq)]
pub struct State(pub u16);

// What is asked where its arrows lead.
pub trait Arrows {
    ghost arrow: { Self → ℕ → ℕ → Option ℕ };

    fn lookup(&self, x: State, c: Letter) -> Option<State>
        ensures { result ≡ arrow_to (arrow self.now x.0 c.0) };
}
