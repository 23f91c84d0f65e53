// A text that comes in pieces: what is kept of it, that this is enough to go on, and the run over one piece. Serves the searchers.
#![tactic(auto)]

ghost use Rattle.std.specs.Prelude.{◌≡◌, ◌≢◌, map, ℕ, ◌+◌, ◌-◌, ◌<◌, ◌≤◌, length};
ghost use Rattle.words.specs.Limits.{longest_text};
ghost use Rattle.words.specs.Words.{letter, occurrences};
ghost use Rattle.finds.specs.Finds.{filled};
ghost use Rattle.pieces.specs.Kept.{kept, heard};

// What a run over a piece comes to: how many letters are kept then, and how many finds end in it.
#[derive(Clone, Copy, Debug, PartialEq, Eq)]
pub struct Ran {
    pub keep: usize,
    pub count: usize,
}

// The first place from `at` on where the letter stands, or the piece's end.
pub fn skip(piece: &[u8], at: usize, c: words::Letter) -> usize
    requires { at ≤ length piece.now }
    ensures { (at ≤ result) × (result ≤ length piece.now) × ((i : ℕ) → at ≤ i → i < result → letter piece.now i ≢ c.0) }
{
    let ahead = &piece[at..];
    at + ahead.iter().position(|b| *b == c.0).unwrap_or(ahead.len())
}

// Takes the letters of a piece one by one. Before it so many were taken, and the first `held` letters of the word are kept of them.
pub fn run(
    borders: &border::Borders<'_>,
    piece: &[u8],
    finds: &mut [u32],
    held: usize,
    before: usize,
) -> Ran
    requires held_short { held < length borders.now.word.now }
    requires held_le_before { (held ≤ before) × (before + length piece.now ≤ longest_text) }
    ensures { (result.keep ≡ kept borders.now.word.now (heard borders.now.word.now held piece.now))
        × (result.count ≡ length (occurrences borders.now.word.now (heard borders.now.word.now held piece.now)))
        × (finds.new ≡ filled (map (λ q. before - held + q)
        (occurrences borders.now.word.now (heard borders.now.word.now held piece.now))) finds.old) }
{
    let m = borders.word.len();
    let border = borders.longest();
    let mut at = 0;
    let mut keep = held;
    let mut count: usize = 0;
    while at < piece.len() {
        let c = piece[at];
        let end = borders.extend(keep, words::Letter(c));
        at += 1;
        if end == 0 {
            // Nothing is kept, and nothing will be before the word's first letter comes.
            keep = 0;
            at = skip(piece, at, words::Letter(borders.word[0]));
            continue;
        }
        if end < m {
            keep = end;
            continue;
        }
        let s = (before + at - m) as u32;
        count = finds::note(finds, count, words::Place(s));
        keep = border;
    }
    Ran { keep, count }
}
