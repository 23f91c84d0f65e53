// Loading a saved file: reading it field by field and comparing its arrows with the word's own. Nothing is written here. Serves the
// entries.
#![tactic(auto)]

ghost use Rattle.std.specs.Prelude.{◌≡◌};
ghost use Rattle.number.specs.Number.{number_at};
ghost use Rattle.saved.specs.File.{own_steps};
ghost use Rattle.loaded.specs.Load.{front_at, letters_at, two_at, arrows_at, ending, behind, closed};
ghost use Rattle.loaded.specs.Answers.{head_of, pair_of, ending_of, verdict_of};

use answers::{Fault, Flaw};
use number::{Cursor, Number, Reader};
use saved::Indexed;

// The number that the file shows at a place. Loading keeps a reader over the lent file and its place, and this is where it reads on.
// Elsewhere the two go side by side, as each function reads at one place of its own.
fn number_at(file: &[u8], cursor: Cursor) -> Result<Number, Fault>
    ensures { result ≡ number_at file.now cursor.at }
{
    Reader { file, cursor }.next()
}

// How many letters, and where they stand.
#[derive(Clone, Copy, Debug, PartialEq, Eq)]
pub struct Head {
    pub letters: usize,
    pub at: usize,
}

// The file up to its letters, from the number of letters on.
pub fn read_letters(file: &[u8], c: Cursor) -> Result<Head, Fault>
    ensures { head_of result ≡ letters_at file.now c.at }
{
    let Number { value, next } = number_at(file, c)?;
    let letters = value as usize;
    if !(words::LEAST_SAVED..=words::WORD_LIMIT).contains(&letters) {
        return Err(Flaw::WordSize.at(c.at));
    }
    let cut = file.len() - next.at < letters;
    if cut {
        return Err(Flaw::EndsEarly.at(file.len()));
    }
    Ok(Head {
        letters,
        at: next.at,
    })
}

// The file that stands from a place on, up to its letters.
#[tactic(auto, unfolding(crate::specs::Load::front_within))]
pub fn read_front(file: &[u8], start: usize) -> Result<Head, Fault>
    ensures { head_of result ≡ front_at file.now start }
{
    let edition = number_at(file, Cursor { at: start })?;
    if edition.value != saved::EDITION {
        return Err(Flaw::OtherEdition.at(start));
    }
    read_letters(file, edition.next)
}

// The two numbers of an arrow, and the next place.
#[derive(Clone, Copy, Debug, PartialEq, Eq)]
pub struct Pair {
    pub up: u32,
    pub over: u32,
    pub next: Cursor,
}

// The two numbers of an arrow.
#[tactic(auto, unfolding(crate::specs::Load::two_at))]
fn read_two(file: &[u8], c: Cursor) -> Result<Pair, Fault>
    ensures { pair_of result ≡ two_at file.now c.at }
{
    let Number { value: up, next } = number_at(file, c)?;
    let Number { value: over, next } = number_at(file, next)?;
    Ok(Pair { up, over, next })
}

// So many declared arrows from a place of the file on, against all of the word's own; and the place behind them.
fn compare_arrows(
    indexed: &Indexed<'_>,
    file: &[u8],
    start: Cursor,
    declared: u32,
) -> Result<usize, Fault>
    ensures { ending_of result ≡ arrows_at file.now start.at declared (own_steps indexed.now.word.now) }
{
    let total = indexed.arrow_count();
    let declared = declared as usize;
    let mut cursor = start;
    let mut from = words::State(0);
    for slot in 0..declared {
        let shown = read_two(file, cursor)?;
        if total <= slot {
            return Err(Flaw::OtherArrow.at(cursor.at));
        }
        let own = indexed.next_step(from, slot);
        let other = shown.up != own.up || shown.over != own.over;
        if other {
            return Err(Flaw::OtherArrow.at(cursor.at));
        }
        cursor = shown.next;
        from = own.source;
    }
    let missing = declared < total;
    if missing {
        return Err(Flaw::OtherArrow.at(cursor.at));
    }
    Ok(cursor.at)
}

// The file from a place on, where the number of arrows stands, against a word and its table; bytes may follow.
#[tactic(auto, using(std::proofs::lemmas::Bool::Decides::nat_tests), unfolding(crate::specs::Load::ending))]
pub fn compare_open(indexed: &Indexed<'_>, file: &[u8], at: usize) -> Result<usize, Fault>
    ensures { ending_of result ≡ ending file.now at indexed.now.word.now }
{
    let count = number_at(file, Cursor { at })?;
    let declared = count.value;
    if declared as usize > indexed.word.len() - 1 {
        return Err(Flaw::ManyArrows.at(at));
    }
    compare_arrows(indexed, file, count.next, declared)
}

// What the ending comes to where nothing may follow.
pub fn close(file: &[u8], shown: Result<usize, Fault>) -> Result<(), Fault>
    ensures { verdict_of result ≡ closed file.now (ending_of shown) }
{
    let end = shown?;
    let followed = end < file.len();
    if followed {
        return Err(Flaw::Leftovers.at(end));
    }
    Ok(())
}
