// Borders of words: the longest borders of all beginnings of a word, in time linear in its length. Serves the searches.
#![tactic(auto)]

ghost use Rattle.std.specs.Prelude.{◌≡◌, [], ◌∷◌, ◌++◌, ◌<◌, ◌≤◌, length};
ghost use Rattle.words.specs.Words.{part};
ghost use Rattle.border.specs.Borders.{borders, longest_border, longest_end, Known};

// The length of the longest beginning of the word that ends with c, where the letters before c are the first `start` of the word. The row
// has the longest borders of the beginnings up to there.
pub fn extend(word: &[u8], row: &[u16], start: usize, c: words::Letter) -> usize
    requires start_in_bounds { (start < length word.now) × (start ≤ length row.now) }
    requires known { Known word.now row.now start }
    ensures { result ≡ longest_end word.now (part word.now 0 start ++ (c.0 ∷ [])) }
{
    let mut h = start;
    while word[h] != c.0 {
        if h == 0 {
            return 0;
        }
        h = usize::from(row[h - 1]);
    }
    h + 1
}

// The longest borders of all beginnings of the word, into a row as long as the word.
pub fn fill(word: &[u8], row: &mut [u16])
    requires { (1 ≤ length word.now) × (length word.now < 65536) × (length row.old ≡ length word.now) }
    ensures { row.new ≡ borders word.now }
{
    row[0] = 0;
    let mut border = 0;
    for k in 1..word.len() {
        border = extend(word, row, border, words::Letter(word[k]));
        row[k] = border as u16;
    }
}

// A word and the longest borders of all its beginnings.
#[derive(Clone, Copy)]
pub struct Borders<'a> {
    pub word: &'a [u8],
    pub row: &'a [u16],
    ghost nonempty: { 1 ≤ length word.now },
    ghost all: { row.now ≡ borders word.now },
}

impl<'a> Borders<'a> {
    // The length of the word's longest border.
    pub fn longest(&self) -> usize
        ensures { result ≡ longest_border self.now.word.now }
    {
        usize::from(self.row[self.word.len() - 1])
    }

    // The length of the longest beginning of the word that ends with c, where the letters before c are the first `start` of the word.
    pub fn extend(&self, start: usize, c: words::Letter) -> usize
        requires { start < length self.now.word.now }
        ensures { result ≡ longest_end self.now.word.now (part self.now.word.now 0 start ++ (c.0 ∷ [])) }
    {
        extend(self.word, self.row, start, c)
    }
}
