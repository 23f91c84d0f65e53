// The numbers of a saved file: groups of seven bits, one spelling each. Serves the rooms above, which load and save.
#![tactic(auto)]

ghost use Rattle.std.specs.Prelude.{◌≡◌, ◌+◌, ◌≤◌, length};
ghost use Rattle.number.specs.Number.{spell_number, written, refuses, number_at};

use answers::{Fault, Flaw};

// A place in the file.
#[derive(Clone, Copy, Debug, PartialEq, Eq)]
pub struct Cursor {
    pub at: usize,
}

// A number that was read, and the place behind it.
#[derive(Clone, Copy, Debug, PartialEq, Eq)]
pub struct Number {
    pub value: u32,
    pub next: Cursor,
}

// Whether a byte is refused behind n others of its number.
#[tactic(auto, using(std::proofs::lemmas::Bool::Decides::nat_tests), unfolding(crate::specs::Number::refuses))]
fn refuses(n: usize, b: u8) -> bool
    ensures { result ≡ refuses n b }
{
    (0 < n && b == 0) || (n == 4 && 15 < b)
}

// The number that the file shows at a place.
fn read(file: &[u8], start: usize) -> Result<Number, Fault>
    ensures { result ≡ number_at file.now start }
{
    let mut value: u32 = 0;
    let mut unit: u32 = 1;
    for at in start..file.len() {
        let b = file[at];
        if refuses(at - start, b) {
            return Err(Flaw::Misspelled.at(at));
        }
        value += unit * (b % 128) as u32;
        if b < 128 {
            return Ok(Number {
                value,
                next: Cursor { at: at + 1 },
            });
        }
        unit *= 128;
    }
    Err(Flaw::EndsEarly.at(file.len()))
}

// A reader over the lent bytes of a file, and its place. It is passed by value, as 01 fixes it.
#[derive(Clone, Copy)]
pub struct Reader<'a> {
    pub file: &'a [u8],
    pub cursor: Cursor,
}

impl<'a> Reader<'a> {
    // The number that the file shows at the reader's place.
    pub fn next(self) -> Result<Number, Fault>
        ensures { result ≡ number_at self.entry.file.now self.entry.cursor.at }
    {
        read(self.file, self.cursor.at)
    }
}

// How many bytes a number takes: one more for each group that is taken off it.
pub fn width(v: u32) -> usize
    ensures { (result ≡ length (spell_number v)) × (result ≤ 5) }
{
    let mut left = v;
    let mut n = 1;
    while left >= 128 {
        left /= 128;
        n += 1;
    }
    n
}

// Writes a number at a place, and answers the next place. Each group that is taken off the number moves the place on.
pub fn write(out: &mut [u8], c: Cursor, v: u32) -> Cursor
    requires { c.at + length (spell_number v) ≤ length out.old }
    ensures { (result.at ≡ c.at + length (spell_number v)) × (out.new ≡ written out.old c.at v) }
{
    let mut at = c.at;
    let mut left = v;
    while left >= 128 {
        out[at] = (128 + left % 128) as u8;
        left /= 128;
        at += 1;
    }
    out[at] = left as u8;
    Cursor { at: at + 1 }
}
