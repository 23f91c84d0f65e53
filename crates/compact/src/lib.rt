// Compact rows, the second form of an oracle's table: how an arrow is found there. A letter without one is told by one bit; where there is
// one, the ones below it are counted. Serves the filling, the search and the entries.
#![tactic(auto)]

ghost use Rattle.std.specs.Prelude.{◌≡◌, true, ◌+◌, ◌-◌, ◌*◌, ◌/◌, ◌%◌, ◌<◌, ◌≤◌, length};
ghost use Rattle.std.proofs.Math.Option.{some};
ghost use Rattle.std.specs.Int.Count.{ones};
ghost use Rattle.words.specs.Lists.{at};
ghost use Rattle.words.specs.Answers.{arrow_to};
ghost use Rattle.compact.specs.Compact.{sets_room, compact_room, arrow_number, bit_at, in_set, how_many};
ghost use Rattle.compact.specs.CompactFormed.{CompactFormed, OnesBelow};

// Whether an arrow on c leaves x. It is asked of a set alone, so it takes no `Rows`.
pub fn has_arrow(sets: &[u64], x: words::State, c: words::Letter) -> bool
    requires { 4 * x.0 + 4 ≤ length sets.now }
    ensures { result ≡ in_set sets.now x.0 c.0 }
{
    let number = 256 * (x.0 as usize) + (c.0 as usize);
    let word = sets[number / 64];
    let bit = (number % 64) as u32;
    (word >> bit) % 2 == 1
}

// How many bits of a word are 1. Most words have one or none, which is told without counting: one less has then no bit in common.
pub fn ones_of(word: u64) -> usize
    ensures { result ≡ ones word }
{
    if word & word.saturating_sub(1) == 0 {
        return usize::from(word != 0);
    }
    word.count_ones() as usize
}

// How many of the first bits of a word are 1.
fn low_ones(word: u64, bits: u32) -> usize
    requires { bits < 64 }
    ensures { result ≡ how_many (bit_at word) bits }
{
    ones_of(word % (1u64 << bits))
}

// Of a state's word i, which is for the letters from 64i on: how many of its ones are for letters below c. The others are masked.
fn ones_below(word: u64, i: usize, c: usize) -> usize
    requires { (i < 4) × (c ≤ 256) }
    ensures { OnesBelow word i c result }
{
    if c <= 64 * i {
        return 0;
    }
    if 64 * i + 64 <= c {
        return word.count_ones() as usize;
    }
    let bits = (c - 64 * i) as u32;
    low_ones(word, bits)
}

// The place of the target of the arrow from x on c: where its word's targets start, and the ones of the word below its bit. It is asked of
// rows that are only being filled, too, so it takes no `Rows`.
pub fn place(sets: &[u64], table: &[u16], m: usize, x: words::State, c: words::Letter) -> usize
    requires { (m < 30000) × (x.0 ≤ m) × (sets_room m ≤ length sets.now) × (compact_room m ≤ length table.now) }
    ensures { result ≡ at table.now (4 * (m + 1) + arrow_number x.0 c.0 / 64)
        + how_many (bit_at (at sets.now (arrow_number x.0 c.0 / 64))) (arrow_number x.0 c.0 % 64) }
{
    let number = 256 * (x.0 as usize) + (c.0 as usize);
    let i = number / 64;
    let bit = (number % 64) as u32;
    let word = sets[i];
    let below = low_ones(word, bit);
    let start = table[4 * (m + 1) + i] as usize;
    start + below
}

// On how many letters below c an arrow leaves x: the ones of four words, masked.
// The four stand one by one, as they do in the theorem that docs/ name, `rank_told`: that is the form which the project has for a rank.
pub fn rank(sets: &[u64], x: words::State, c: usize) -> usize
    requires { (4 * x.0 + 4 ≤ length sets.now) × (c ≤ 256) }
    ensures { result ≡ how_many (in_set sets.now x.0) c }
{
    let top = 4 * (x.0 as usize);
    ones_below(sets[top], 0, c)
        + ones_below(sets[top + 1], 1, c)
        + ones_below(sets[top + 2], 2, c)
        + ones_below(sets[top + 3], 3, c)
}

// Compact rows that are read, of a word of m letters.
#[derive(Clone, Copy)]
pub struct Rows<'a> {
    pub sets: &'a [u64],
    pub entries: &'a [u16],
    pub m: usize,
    ghost formed: { CompactFormed sets.now entries.now m },
}

impl<'a> Rows<'a> {
    ghost use Rattle.compact.specs.Asked.{arrow_of};

    // The same of these rows.
    pub fn has_arrow(&self, x: words::State, c: words::Letter) -> bool
        requires { 4 * x.0 + 4 ≤ length self.now.sets.now }
        ensures { result ≡ in_set self.now.sets.now x.0 c.0 }
    {
        has_arrow(self.sets, x, c)
    }

    // Where the arrow from x on c leads, which is there.
    fn target_of(&self, x: words::State, c: words::Letter) -> words::State
        requires { (x.0 < self.now.m) × (in_set self.now.sets.now x.0 c.0 ≡ true) }
        ensures { arrow_of self.now x.0 c.0 ≡ some result.0 }
    {
        let nth = place(self.sets, self.entries, self.m, x, c);
        words::State(self.entries[8 * (self.m + 1) + nth])
    }
}

impl<'a> words::Arrows for Rows<'a> {
    ghost use Rattle.compact.specs.Asked.{arrow_of};

    ghost arrow = { arrow_of };

    // The spine's is tried first: where a text goes along the word, the next state is guessed and not waited for.
    fn lookup(&self, x: words::State, c: words::Letter) -> Option<words::State> {
        let from = x.0 as usize;
        if from >= self.m {
            return None;
        }
        if self.entries[from + 1] == u16::from(c.0) {
            return Some(words::State((from + 1) as u16));
        }
        if self.has_arrow(x, c) {
            return Some(self.target_of(x, c));
        }
        None
    }
}
