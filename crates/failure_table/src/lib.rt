// The table of a word's failure oracle, 10(m+1) entries of 16 bits in rows: how it is filled, and what becomes of a letter by it. Serves
// the search and the entries.
// What fills a table is lent the slice and its size side by side: no fact on its entries holds at every write. A slot and a failure arrow
// of 0 are none: docs/TABLE.md fixes the rows.
#![tactic(auto)]

ghost use Rattle.std.specs.Prelude.{◌≡◌, ℕ, ◌+◌, ◌*◌, ◌<◌, ◌≤◌, ◌↔◌, IsTrue, length};
ghost use Rattle.words.specs.Words.{mirror, letter};
ghost use Rattle.words.specs.Answers.{arrow_to};
ghost use Rattle.failure_table.specs.FailureTable.{word_alone, failure_table, read_symbol, read_ask};
ghost use Rattle.failure_table.specs.FailureFormed.{FailureFormed};
ghost use Rattle.failure_table.specs.Building.{answered_as, word_in, with_arrow, slots_with, Stage, Shared, AlongSpine};

// Where a letter leads, the last state that was asked for it, and the failure arrows taken.
#[derive(Clone, Copy)]
pub struct Answered {
    pub leads: Option<words::State>,
    pub last: words::State,
    pub taken: usize,
}

// How many letters are compared at a time.
const BLOCK: usize = 32;

// A table that is read, of a word of m letters.
#[derive(Clone, Copy)]
pub struct FailureTable<'a> {
    pub entries: &'a [u16],
    pub m: usize,
    ghost formed: { FailureFormed entries.now m },
}

impl<'a> FailureTable<'a> {
    // The symbol arrow from x on c.
    fn symbol(&self, x: words::State, c: words::Letter) -> Option<words::State>
        requires { x.0 ≤ self.now.m }
        ensures { result ≡ arrow_to (read_symbol self.now.m self.now.entries.now x.0 c.0) }
    {
        let table = self.entries;
        let m = self.m;
        let n = m + 1;
        let from = x.0 as usize;
        let on = c.0 as u16;
        if from < m && table[from + 1] == on {
            return Some(words::State((from + 1) as u16));
        }
        let mut slot = table[2 * n + from] as usize;
        while slot != 0 {
            let y = table[4 * n + slot];
            if table[y as usize] == on {
                return Some(words::State(y));
            }
            slot = table[3 * n + slot] as usize;
        }
        None
    }

    // One letter, along the failure path: every failure arrow climbs.
    pub fn ask(&self, x: words::State, c: words::Letter) -> Answered
        requires { x.0 ≤ self.now.m }
        ensures { result ≡ answered_as (read_ask self.now.m self.now.entries.now x.0 c.0) }
    {
        let n = self.m + 1;
        let mut last = x;
        let mut taken = 0;
        loop {
            if let Some(y) = self.symbol(last, c) {
                break Answered {
                    leads: Some(y),
                    last,
                    taken,
                };
            }
            let to = self.entries[n + last.0 as usize];
            if to == 0 {
                break Answered {
                    leads: None,
                    last,
                    taken,
                };
            }
            last = words::State(to);
            taken += 1;
        }
    }
}

// A chain as `chains::push` has, in other rows: their numbers as parameters would say less than their names in docs/TABLE.md.
// The arrow that a walk lacks which is stuck at x with the letters up to k spelled; the answer is how many slots are used.
#[tactic(auto, using(std::proofs::lemmas::Bool::Decides::nat_tests), unfolding(crate::specs::FailureTable::slotted))]
fn add_arrow(table: &mut [u16], m: usize, used: usize, x: words::State, k: usize) -> usize
    requires { (m < 65535) × (x.0 ≤ m) × (k < m) × (used + 1 ≤ m) × (length table.old ≡ 10 * (m + 1)) }
    ensures { (result ≡ slots_with used x.0 k) × (table.new ≡ with_arrow table.old (m + 1) used x.0 k) }
{
    let n = m + 1;
    let from = x.0 as usize;
    if from < k {
        table[n + from] = k as u16;
        return used;
    }
    let first = table[2 * n + from];
    let slot = used + 1;
    table[4 * n + slot] = (k + 1) as u16;
    table[3 * n + slot] = first;
    table[2 * n + from] = slot as u16;
    slot
}

// Whether two rows are the same. All entries are looked at, so that the compiler can take many at a time: with `==`, which stops at the
// first other one, a long word that repeats one letter takes twice as long to build.
fn same_row(a: &[u16], b: &[u16]) -> bool
    requires { length a.now ≡ length b.now }
    ensures { IsTrue result ↔ (a.now ≡ b.now) }
{
    let mut same = true;
    for (i, x) in a.iter().enumerate() {
        same &= *x == b[i];
    }
    same
}

// How many first entries two rows surely share, in blocks: over `as_chunks` this took 1.6 times as long.
fn shared_blocks(a: &[u16], b: &[u16]) -> usize
    requires { length a.now ≡ length b.now }
    ensures { Shared a.now b.now result }
{
    let mut n = 0;
    while n + BLOCK <= a.len() && same_row(&a[n..n + BLOCK], &b[n..n + BLOCK]) {
        n += BLOCK;
    }
    n
}

fn shared(a: &[u16], b: &[u16]) -> usize
    requires { length a.now ≡ length b.now }
    ensures { Shared a.now b.now result }
{
    for n in shared_blocks(a, b)..a.len() {
        if a[n] != b[n] {
            return n;
        }
    }
    a.len()
}

// How far a walk that is at x with the letters up to k spelled goes along the spine, the word's last letter left out.
fn along_spine(table: &[u16], m: usize, x: usize, k: usize) -> usize
    requires { (m < length table.now) × (x ≤ m) × (k < m) }
    ensures { AlongSpine table.now m x k result }
{
    let most = (m - x).min(m - 1 - k);
    shared(&table[x + 1..x + 1 + most], &table[k + 1..k + 1 + most])
}

// Walks the suffix behind the first i + 1 letters, and adds the arrow that it lacks. In state k, with the letters up to k spelled, the rest
// is the spine.
fn add_suffix(table: &mut [u16], m: usize, used: usize, i: usize) -> usize
    requires { Stage (word_in table.old m) m table.old used i × (i + 1 < m) }
    ensures { Stage (word_in table.old m) m table.new result (i + 1) }
{
    let mut k = i + 1;
    let mut x = words::State(0);
    while k < m {
        let from = x.0 as usize;
        if from == k {
            return used;
        }
        let run = along_spine(table, m, from, k);
        let end = k + run;
        let c = words::Letter((table[end + 1] % 256) as u8);
        let read = FailureTable { entries: table, m };
        let s = read.ask(words::State((from + run) as u16), c);
        let Some(y) = s.leads else {
            return add_arrow(table, m, used, s.last, end);
        };
        x = y;
        k = end + 1;
    }
    used
}

// The table of the word that stands in row 0, whatever else stands in it.
fn finish(table: &mut [u16], m: usize)
    requires bounds { (1 ≤ m) × (m < 65535) × (length table.old ≡ 10 * (m + 1)) }
    requires bytes { (k : ℕ) → letter (word_in table.old m) k < 256 }
    ensures { table.new ≡ failure_table (word_in table.old m) }
{
    table[0] = 0;
    table[m + 1..].fill(0);
    let mut used = 0;
    for i in 0..m - 1 {
        used = add_suffix(table, m, used, i);
    }
}

// The table of a word.
pub fn fill(word: &[u8], table: &mut [u16])
    requires { (1 ≤ length word.now) × (length word.now < 65535) × (length table.old ≡ 10 * (length word.now + 1)) }
    ensures { table.new ≡ failure_table word.now }
{
    rows::widen(word, &mut table[1..=word.len()]);
    finish(table, word.len());
}

// The table of a word's mirror: no twin in a type or a constant, as the word is put otherwise.
pub fn fill_mirror(word: &[u8], table: &mut [u16])
    requires { (1 ≤ length word.now) × (length word.now < 65535) × (length table.old ≡ 10 * (length word.now + 1)) }
    ensures { table.new ≡ failure_table (mirror word.now) }
{
    table::put_mirror(word, &mut table[1..=word.len()]);
    finish(table, word.len());
}
