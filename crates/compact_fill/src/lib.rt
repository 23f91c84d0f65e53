// How compact rows are filled, in time linear in m: the first form of the same word is made in the entries; state by state its arrows are
// marked in the words, where each word's targets start is told, and the targets are put in their places; then what was the first form's
// alone is cleared. Serves the entries.
#![tactic(auto)]

ghost use Rattle.std.specs.Prelude.{◌≡◌, cond, ℕ, suc, ◌+◌, ◌*◌, ◌<◌, ◌≤◌, length, set, replicate, ltb};
ghost use Rattle.std.proofs.Math.Option.{some};
ghost use Rattle.words.specs.Lists.{at};
ghost use Rattle.words.specs.Words.{mirror};
ghost use Rattle.oracle.specs.SuffixRule.{oracle};
ghost use Rattle.chains.specs.Letters.{word_in};
ghost use Rattle.compact.specs.Compact.{sets_room, compact_room, arrow_number, targets_up_to, sets_from, compact_sets, compact_table};
ghost use Rattle.compact_fill.specs.Filling.{out_targets, letter_into, place_of, first_place, FirstForm, Words64, WithBit};
ghost use Rattle.compact_fill.specs.Filling.{NoneOf, WithSet, OwnWords, OwnStarts, WithStarts, WithTargets, AllStates, FilledRows};

// Rows that are filled, for a word of m letters whose first form stands in the entries meanwhile. A state and the place where its targets
// start go side by side: what is said of the two holds before that state alone.
#[derive(Drop)]
struct Filling<'a> {
    sets: &'a mut [u64],
    entries: &'a mut [u16],
    m: usize,
    ghost first_form: { FirstForm (word_in entries.now m) entries.now m },
    ghost words: { length sets.now ≡ sets_room m },
}

impl<'a> Filling<'a> {
    ghost use Rattle.compact_fill.specs.Held.{word_of, arrows_of, SameRows, SameEntries, SameSets, FillsState};

    // How many arrows leave x.
    fn arrow_count(&self, x: words::State) -> usize
        requires { x.0 < self.now.m }
        ensures { result ≡ length (out_targets (word_of self.now) x.0) }
    {
        let from = 2 * (self.m + 1) + (x.0 as usize);
        let start = self.entries[from] as usize;
        let end = self.entries[from + 1] as usize;
        end - start + 1
    }

    // Where arrow j of x leads; the first is the spine's.
    fn arrow_target(&self, x: words::State, j: usize) -> words::State
        requires { (x.0 < self.now.m) × (j < length (out_targets (word_of self.now) x.0)) }
        ensures { result.0 ≡ at (out_targets (word_of self.now) x.0) j }
    {
        if j == 0 {
            return words::State(x.0 + 1);
        }
        let start = self.entries[2 * (self.m + 1) + (x.0 as usize)] as usize;
        words::State(self.entries[3 * (self.m + 1) + start + (j - 1)])
    }

    // The letter of the arrows into y.
    fn letter_into(&self, y: words::State) -> words::Letter
        requires { (0 < y.0) × (y.0 ≤ self.now.m) }
        ensures { result.0 ≡ letter_into (word_of self.now) y.0 }
    {
        let c = self.entries[y.0 as usize];
        words::Letter((c % 256) as u8)
    }

    // The arrow from x on c in the set of x.
    fn mark(&mut self, x: words::State, c: words::Letter)
        requires { x.0 ≤ self.old.m }
        ensures same { SameEntries self.old self.new }
        ensures bit { WithBit self.old.sets.now (arrow_number x.0 c.0) self.new.sets.now }
    {
        let number = 256 * (x.0 as usize) + (c.0 as usize);
        self.sets[number / 64] |= 1u64 << (number % 64);
    }

    // The set of x.
    fn mark_state(&mut self, x: words::State)
        requires { x.0 < self.old.m }
        ensures same { SameEntries self.old self.new }
        ensures set { WithSet (arrows_of self.old) x.0 self.old.sets.now self.new.sets.now }
    {
        for j in 0..self.arrow_count(x) {
            let y = self.arrow_target(x, j);
            self.mark(x, self.letter_into(y));
        }
    }

    // Where the targets of the words of x start: each behind those of the words before it. The answer is where those of the next state do.
    fn start_state(&mut self, x: words::State, before: usize) -> usize
        requires { (x.0 ≤ self.old.m) × OwnWords (arrows_of self.old) x.0 self.old.sets.now
            × (before ≡ first_place (arrows_of self.old) x.0) }
        ensures same { SameSets self.old self.new }
        ensures next { result ≡ first_place (arrows_of self.old) (suc x.0) }
        ensures starts { WithStarts (arrows_of self.old) self.old.m x.0 self.old.entries.now self.new.entries.now }
    {
        let mut so_far = before;
        for i in 0..4 {
            let own = 4 * (x.0 as usize) + i;
            self.entries[4 * (self.m + 1) + own] = so_far as u16;
            so_far += compact::ones_of(self.sets[own]);
        }
        so_far
    }

    // The place of y among all targets, where an arrow leads there from x.
    fn place_for(&self, x: words::State, y: words::State) -> usize
        requires leads { (x.0 < self.now.m) × (arrows_of self.now x.0 (letter_into (word_of self.now) y.0) ≡ some y.0) }
        requires told { OwnWords (arrows_of self.now) x.0 self.now.sets.now
            × OwnStarts (arrows_of self.now) self.now.m x.0 self.now.entries.now }
        ensures { (result < 2 * (self.now.m + 1))
            × (result ≡ place_of (word_of self.now) x.0 (letter_into (word_of self.now) y.0)) }
    {
        let c = self.letter_into(y);
        compact::place(self.sets, self.entries, self.m, x, c)
    }

    // A target in its place.
    fn put(&mut self, place: usize, y: words::State)
        requires { (place < 2 * (self.old.m + 1)) }
        ensures same { SameSets self.old self.new }
        ensures target { self.new.entries.now ≡ set self.old.entries.now (8 * (self.old.m + 1) + place) y.0 }
    {
        self.entries[8 * (self.m + 1) + place] = y.0;
    }

    // The targets of x.
    fn put_state(&mut self, x: words::State)
        requires { (x.0 < self.old.m) × OwnWords (arrows_of self.old) x.0 self.old.sets.now
            × OwnStarts (arrows_of self.old) self.old.m x.0 self.old.entries.now }
        ensures same { SameSets self.old self.new }
        ensures targets { WithTargets (arrows_of self.old) self.old.m x.0 self.old.entries.now self.new.entries.now }
    {
        for j in 0..self.arrow_count(x) {
            let y = self.arrow_target(x, j);
            self.put(self.place_for(x, y), y);
        }
    }

    // All of x: its set, its starts and its targets. The answer is where those of the next state start.
    fn several_arrows(&mut self, x: words::State, before: usize) -> usize
        requires { (x.0 < self.old.m) × Words64 self.old.sets.now × NoneOf x.0 self.old.sets.now
            × (before ≡ first_place (arrows_of self.old) x.0) }
        ensures same { SameRows self.old self.new }
        ensures filled { FillsState self.old x.0 self.new result }
    {
        self.mark_state(x);
        let next = self.start_state(x, before);
        self.put_state(x);
        next
    }

    // The starts of x, which one arrow leaves, on c, or two, on c and on d: nothing needs to be counted. Where it is one, d is no letter.
    fn few_starts(&mut self, x: words::State, before: usize, c: usize, d: usize)
        requires state { (x.0 < self.old.m) × (before ≤ 2 * (self.old.m + 1)) }
        requires by_index { (i : ℕ) → i < 4 → before + cond (ltb c (64 * i)) 1 0 + cond (ltb d (64 * i)) 1 0
            ≡ length (targets_up_to (arrows_of self.old) (64 * (4 * x.0 + i))) }
        ensures same { SameSets self.old self.new }
        ensures starts { WithStarts (arrows_of self.old) self.old.m x.0 self.old.entries.now self.new.entries.now }
    {
        for i in 0..4 {
            let own = 4 * (x.0 as usize) + i;
            let start = before + usize::from(c < 64 * i) + usize::from(d < 64 * i);
            self.entries[4 * (self.m + 1) + own] = start as u16;
        }
    }

    // All of x, as above, whose only arrow is the spine's.
    fn lone_arrow(&mut self, x: words::State, before: usize) -> usize
        requires { (x.0 < self.old.m) × (length (out_targets (word_of self.old) x.0) ≡ 1)
            × (before ≡ first_place (arrows_of self.old) x.0) }
        ensures same { SameRows self.old self.new }
        ensures filled { FillsState self.old x.0 self.new result }
    {
        let y = words::State(x.0 + 1);
        let c = self.letter_into(y);
        self.mark(x, c);
        self.few_starts(x, before, c.0 as usize, 256);
        self.put(before, y);
        before + 1
    }

    // All of x, which the spine's arrow and one more leave: the one on the smaller letter comes first.
    fn two_arrows(&mut self, x: words::State, before: usize) -> usize
        requires { (x.0 < self.old.m) × (length (out_targets (word_of self.old) x.0) ≡ 2)
            × (before ≡ first_place (arrows_of self.old) x.0) }
        ensures same { SameRows self.old self.new }
        ensures filled { FillsState self.old x.0 self.new result }
    {
        let y = words::State(x.0 + 1);
        let z = self.arrow_target(x, 1);
        let to_y = self.letter_into(y);
        let to_z = self.letter_into(z);
        self.mark(x, to_y);
        self.mark(x, to_z);
        let c = to_y.0 as usize;
        let d = to_z.0 as usize;
        self.few_starts(x, before, c, d);
        self.put(before + usize::from(d < c), y);
        self.put(before + usize::from(c < d), z);
        before + 2
    }

    // All of x, whichever it is. Mostly one arrow or two leave it.
    fn fill_state(&mut self, x: words::State, before: usize) -> usize
        requires { (x.0 < self.old.m) × Words64 self.old.sets.now × NoneOf x.0 self.old.sets.now
            × (before ≡ first_place (arrows_of self.old) x.0) }
        ensures same { SameRows self.old self.new }
        ensures filled { FillsState self.old x.0 self.new result }
    {
        match self.arrow_count(x) {
            1 => self.lone_arrow(x, before),
            2 => self.two_arrows(x, before),
            _ => self.several_arrows(x, before),
        }
    }

    // All states below m, in words and rows of starts and targets that are zero. The answer is how many targets there are.
    fn fill_states(&mut self) -> usize
        requires zeros { (i : ℕ) → 4 * (self.old.m + 1) ≤ i → at self.old.entries.now i ≡ 0 }
        requires empty { self.old.sets.now ≡ replicate (sets_room self.old.m) 0 }
        ensures same { SameRows self.old self.new }
        ensures next { result ≡ first_place (arrows_of self.old) self.old.m }
        ensures sets { self.new.sets.now ≡ sets_from (arrows_of self.old) self.old.m }
        ensures states { AllStates (arrows_of self.old) self.old.m self.old.entries.now self.new.entries.now }
    {
        let mut before = 0;
        for x in 0..self.m {
            before = self.fill_state(words::State(x as u16), before);
        }
        before
    }

    // All states: the last one, which no arrow leaves, has starts alone.
    fn fill_all(&mut self)
        requires zeros { (i : ℕ) → 4 * (self.old.m + 1) ≤ i → at self.old.entries.now i ≡ 0 }
        requires empty { self.old.sets.now ≡ replicate (sets_room self.old.m) 0 }
        ensures same { SameRows self.old self.new }
        ensures sets { self.new.sets.now ≡ sets_from (arrows_of self.old) self.old.m }
        ensures rows { FilledRows (arrows_of self.old) self.old.m self.old.entries.now self.new.entries.now }
    {
        let all = self.fill_states();
        self.start_state(words::State(self.m as u16), all);
    }
}

// The sets, the starts and the targets of all states, in words and rows that are zero.
fn fill_rows(sets: &mut [u64], table: &mut [u16], m: usize)
    requires first_form { FirstForm (word_in table.old m) table.old m }
    requires zeros { (sets.old ≡ replicate (sets_room m) 0) × ((i : ℕ) → 4 * (m + 1) ≤ i → at table.old i ≡ 0) }
    ensures sets { sets.new ≡ sets_from (oracle (word_in table.old m)) m }
    ensures rows { FilledRows (oracle (word_in table.old m)) m table.old table.new }
{
    let mut filling = Filling {
        sets,
        entries: table,
        m,
    };
    filling.fill_all();
}

// Compact rows from the first form of the word that stands in row 0.
fn finish(sets: &mut [u64], table: &mut [u16], m: usize)
    requires first_form { FirstForm (word_in table.old m) table.old m }
    requires zeros { (length sets.old ≡ sets_room m) × ((i : ℕ) → 4 * (m + 1) ≤ i → at table.old i ≡ 0) }
    ensures { (sets.new ≡ compact_sets (word_in table.old m))
        × (table.new ≡ compact_table (word_in table.old m)) }
{
    sets.fill(0);
    fill_rows(sets, table, m);
    let rows = 2 * (m + 1);
    table[rows..2 * rows].fill(0);
}

// The compact rows of a word.
// A twin of `fill_mirror` but for one call: a function that is handed the call would have the same lines and a bound more.
pub fn fill(word: &[u8], sets: &mut [u64], table: &mut [u16])
    requires { (length word.now < 30000) × (length sets.old ≡ sets_room (length word.now))
        × (length table.old ≡ compact_room (length word.now)) }
    ensures { (sets.new ≡ compact_sets word.now) × (table.new ≡ compact_table word.now) }
{
    table.fill(0);
    let room = 6 * (word.len() + 1);
    table::fill(word, &mut table[..room]);
    finish(sets, table, word.len());
}

// The compact rows of a word's mirror.
pub fn fill_mirror(word: &[u8], sets: &mut [u64], table: &mut [u16])
    requires { (length word.now < 30000) × (length sets.old ≡ sets_room (length word.now))
        × (length table.old ≡ compact_room (length word.now)) }
    ensures { (sets.new ≡ compact_sets (mirror word.now))
        × (table.new ≡ compact_table (mirror word.now)) }
{
    table.fill(0);
    let room = 6 * (word.len() + 1);
    table::fill_mirror(word, &mut table[..room]);
    finish(sets, table, word.len());
}
