// The table of a word's oracle: 6(m+1) entries of 16 bits, in rows. Filling it takes time linear in m: letters are added over chains,
// newest first, then one pass over the states from the last to the first lays the chains out, which turns each one round. Serves the rooms
// above. What fills a table is lent the slice and its size side by side: no fact on its entries holds at every write. A slot of 0 is none.
#![tactic(auto)]

ghost use Rattle.std.specs.Prelude.{◌≡◌, ◌+◌, ◌*◌, ◌<◌, ◌≤◌, length, replicate};
ghost use Rattle.words.specs.Words.{mirror};
ghost use Rattle.words.specs.Answers.{arrow_to};
ghost use Rattle.chains.specs.Letters.{Blank, word_in, ChainsOf};
ghost use Rattle.table.specs.Table.{table_of, read_arrow};
ghost use Rattle.table.specs.Formed.{Formed};
ghost use Rattle.table.specs.Layout.{Fits, Unchained, Laid};

// The letters of a word from last to first, in one pass: `widen` and then `reverse` took 1.2 to 1.5 times as long.
pub fn put_mirror(word: &[u8], row: &mut [u16])
    requires { length row.old ≡ length word.now }
    ensures { row.new ≡ mirror word.now }
{
    for (i, entry) in row.iter_mut().enumerate() {
        *entry = u16::from(word[word.len() - 1 - i]);
    }
}

// The targets of x, from its slots to those of row 3 that end before `end`; the answer is where they start, which takes the place of the
// first slot.
fn unchain(table: &mut [u16], n: usize, end: usize, x: words::State) -> usize
    requires n_bound { (n ≤ 65536) × (x.0 < n) × (end < n) }
    requires fits { Fits table.old n x.0 end }
    ensures { Unchained table.old table.new n x.0 end result }
{
    let from = x.0 as usize;
    let mut start = end;
    let mut slot = table[2 * n + from] as usize;
    while slot != 0 {
        let y = table[5 * n + slot];
        let next = table[4 * n + slot];
        start -= 1;
        table[3 * n + start] = y;
        slot = next as usize;
    }
    table[2 * n + from] = start as u16;
    start
}

// All states' targets, from the last state to the first.
fn lay_out(table: &mut [u16], m: usize, used: usize)
    requires m_bound { m < 65535 }
    requires chains_of { ChainsOf table.old m table.old used }
    ensures { Laid table.old m table.new }
{
    let n = m + 1;
    let mut end = used;
    for x in (0..n).rev() {
        end = unchain(table, n, end, words::State(x as u16));
    }
}

// The table of the word that stands in row 0.
fn finish(table: &mut [u16], m: usize)
    requires m_bound { m < 65535 }
    requires blank { Blank table.old m }
    ensures { table.new ≡ table_of (word_in table.old m) }
{
    let used = chains::add_letters(table, m);
    lay_out(table, m, used);
    let scratch = 4 * (m + 1);
    table[scratch..].fill(0);
}

// The table of a word.
pub fn fill(word: &[u8], table: &mut [u16])
    requires { (length word.now < 65535) × (length table.old ≡ 6 * (length word.now + 1)) }
    ensures { table.new ≡ table_of word.now }
{
    table.fill(0);
    let end = word.len() + 1;
    rows::widen(word, &mut table[1..end]);
    finish(table, word.len());
}

// The table of a word's mirror: no twin in a type or a constant, as the word is put otherwise.
pub fn fill_mirror(word: &[u8], table: &mut [u16])
    requires { (length word.now < 65535) × (length table.old ≡ 6 * (length word.now + 1)) }
    ensures { table.new ≡ table_of (mirror word.now) }
{
    table.fill(0);
    let end = word.len() + 1;
    put_mirror(word, &mut table[1..end]);
    finish(table, word.len());
}

// A table that is read, of a word of m letters.
#[derive(Clone, Copy)]
pub struct Table<'a> {
    pub entries: &'a [u16],
    pub m: usize,
    ghost formed: { Formed entries.now m },
}

impl<'a> words::Arrows for Table<'a> {
    ghost arrow = { λ t. read_arrow t.m t.entries.now };

    fn lookup(&self, x: words::State, c: words::Letter) -> Option<words::State> {
        let table = self.entries;
        let m = self.m;
        let n = m + 1;
        let from = x.0 as usize;
        let on = c.0 as u16;
        if from >= m {
            return None;
        }
        if table[from + 1] == on {
            return Some(words::State((from + 1) as u16));
        }
        let start = table[2 * n + from] as usize;
        let end = table[2 * n + from + 1] as usize;
        for s in start..end {
            let y = table[3 * n + s];
            if table[y as usize] == on {
                return Some(words::State(y));
            }
        }
        None
    }
}
