// The saved file of a word: its one spelling, and writing it from the word's table. Serves the entries.
#![tactic(auto)]

ghost use Rattle.std.specs.Prelude.{◌≡◌, ◌++◌, ◌<◌, ◌≤◌, length, drop};
ghost use Rattle.saved.specs.File.{own_steps, spell};
ghost use Rattle.saved.specs.Stepping.{Tabled, Standing, Leapt};

use number::Cursor;

// The number of edition 1, which is written here.
pub const EDITION: u32 = 1;

// An arrow as the file has it, and its source.
#[derive(Clone, Copy, Debug, PartialEq, Eq)]
pub struct Leap {
    pub up: u32,
    pub over: u32,
    pub source: words::State,
}

// A word with its table.
#[derive(Clone, Copy)]
pub struct Indexed<'a> {
    pub word: &'a [u8],
    pub table: &'a [u16],
    ghost tabled: { Tabled word.now table.now },
}

impl<'a> Indexed<'a> {
    // How many extra arrows the word has: where those of the last state, which has none, would start.
    pub fn arrow_count(&self) -> usize
        ensures { result ≡ length (own_steps self.now.word.now) }
    {
        let m = self.word.len();
        self.table[2 * (m + 1) + m] as usize
    }

    // The word's own step at a slot, `from` being the source of the one before. Over all slots, the states are gone through once.
    pub fn next_step(&self, from: words::State, slot: usize) -> Leap
        requires { (slot < length (own_steps self.now.word.now)) × Standing self.now.word.now from.0 slot }
        ensures { Leapt self.now.word.now from.0 slot result }
    {
        let table = self.table;
        let n = self.word.len() + 1;
        let before = from.0 as usize;
        let mut x = before;
        // No end to count to: from state to state, until the next one's arrows start behind the slot.
        while table[2 * n + x + 1] as usize <= slot {
            x += 1;
        }
        let y = table[3 * n + slot] as usize;
        Leap {
            up: (x - before) as u32,
            over: (y - x - 2) as u32,
            source: words::State(x as u16),
        }
    }

    // How many bytes the word's file has.
    pub fn file_size(&self) -> usize
        ensures { result ≡ length (spell self.now.word.now) }
    {
        let m = self.word.len();
        let count = self.arrow_count();
        let edition_width = number::width(EDITION);
        let m_width = number::width(m as u32);
        let count_width = number::width(count as u32);
        let mut size = edition_width + m_width + m + count_width;
        let mut from = words::State(0);
        for slot in 0..count {
            let leap = self.next_step(from, slot);
            size += number::width(leap.up) + number::width(leap.over);
            from = leap.source;
        }
        size
    }

    // Writes the word's file to the front of the output.
    pub fn write_file(&self, out: &mut [u8])
        requires { length (spell self.now.word.now) ≤ length out.old }
        ensures { out.new ≡ spell self.now.word.now ++ drop (length (spell self.now.word.now)) out.old }
    {
        let m = self.word.len();
        let count = self.arrow_count();
        let size = number::write(out, Cursor { at: 0 }, EDITION);
        let letters = number::write(out, size, m as u32);
        let start = letters.at;
        let end = start + m;
        let room = &mut out[start..end];
        copies::copy(self.word, room);
        let mut at = number::write(out, Cursor { at: end }, count as u32);
        let mut from = words::State(0);
        for slot in 0..count {
            let leap = self.next_step(from, slot);
            let middle = number::write(out, at, leap.up);
            at = number::write(out, middle, leap.over);
            from = leap.source;
        }
    }
}
