// A search whose text comes in pieces. A searcher owns its word and the borders of its beginnings, and goes by value from piece to piece.
// Any word, searcher, piece and list may be handed to `open` and `take`; their one promise fixes the answer, the searcher that is handed
// back and every entry of the list, for refusals too.
#![tactic(auto)]

ghost use Rattle.std.specs.Prelude.{◌≡◌, ◌&&◌, [], ◌≤◌, length};
ghost use Rattle.words.specs.Limits.{longest_streamed};
ghost use Rattle.words.specs.Words.{same};
ghost use Rattle.border.specs.Borders.{borders};
ghost use Rattle.answers.specs.Answers.{refused_as};
ghost use Rattle.stream.specs.Searchers.{row_of, searcher_of, word_of, makeable};
ghost use Rattle.stream.specs.Opening.{blank, outcome, opened, open_says};
ghost use Rattle.stream.specs.Taking.{took, take_says};

use answers::Refusal;
use words::STREAMED_LIMIT;

// The word, so many bytes long, and the longest borders of its beginnings, zeros behind both; how many letters of the word are kept, as the
// text ends with them; and how many bytes were taken. Fixed memory: there is no heap.
#[derive(Clone, Copy, Debug, PartialEq, Eq)]
pub struct Searcher {
    pub word: [u8; STREAMED_LIMIT],
    pub borders: [u16; STREAMED_LIMIT],
    pub size: usize,
    pub keep: usize,
    pub taken: usize,
}

// No Result of a searcher: `open_says` promises one with a refusal too, and that it is all zero. Taking with it is refused.
#[derive(Clone, Copy, Debug, PartialEq, Eq)]
pub struct Opened {
    pub answer: Result<usize, Refusal>,
    pub searcher: Searcher,
}

// The number of finds that end in the piece, and the next searcher; where the piece was refused, the same, as `take_says` promises.
#[derive(Clone, Copy, Debug, PartialEq, Eq)]
pub struct Taken {
    pub answer: Result<usize, Refusal>,
    pub next: Searcher,
}

// The searcher of a word that has taken nothing.
fn fresh(word: &[u8]) -> Searcher
    requires { (1 ≤ length word.now) × (length word.now ≤ longest_streamed) }
    ensures { result ≡ searcher_of word.now [] }
{
    let m = word.len();
    let mut own = [0; STREAMED_LIMIT];
    let mut borders = [0; STREAMED_LIMIT];
    copies::copy(word, &mut own[..m]);
    border::fill(word, &mut borders[..m]);
    Searcher {
        word: own,
        borders,
        size: m,
        keep: 0,
        taken: 0,
    }
}

// Nothing is opened.
fn unopened(why: Refusal) -> Opened
    ensures { opened result ≡ outcome (refused_as why) blank }
{
    Opened {
        answer: Err(why),
        searcher: Searcher {
            word: [0; STREAMED_LIMIT],
            borders: [0; STREAMED_LIMIT],
            size: 0,
            keep: 0,
            taken: 0,
        },
    }
}

// Opens a stream for a word.
pub fn open(word: &[u8]) -> Opened
    ensures { opened result ≡ open_says word.now }
{
    if word.is_empty() {
        return unopened(Refusal::EmptyWord);
    }
    if STREAMED_LIMIT < word.len() {
        return unopened(Refusal::LongWord);
    }
    Opened {
        answer: Ok(word.len()),
        searcher: fresh(word),
    }
}

impl Searcher {
    // Whether both rows are those of a searcher of its word.
    #[tactic(auto, using(words::proofs::Limits::streamed_limit))]
    fn has_rows(&self) -> bool
        requires { (1 ≤ self.now.size) × (self.now.size ≤ longest_streamed) }
        ensures { result
            ≡ (same self.now.word (row_of (word_of self.now)) && same self.now.borders (row_of (borders (word_of self.now)))) }
    {
        let made = fresh(&self.word[..self.size]);
        self.word == made.word && self.borders == made.borders
    }

    // Whether opening and taking bytes can make this searcher.
    #[tactic(auto, using(crate::proofs::Testing::size_tests), unfolding(crate::specs::Searchers::makeable))]
    fn can_be_made(&self) -> bool
        ensures { result ≡ makeable self.now }
    {
        1 <= self.size
            && self.size <= STREAMED_LIMIT
            && self.keep < self.size
            && self.keep <= self.taken
            && self.taken <= words::TEXT_LIMIT
            && self.has_rows()
    }

    // Takes a piece. The list gets the starts of the finds that end in it, counted from the stream's first byte, as many as fit.
    #[tactic(auto, using(crate::proofs::Sound::few_letters))]
    pub fn take(self, piece: &[u8], finds: &mut [u32]) -> Taken
        ensures { took result finds.new ≡ take_says self piece.now finds.old }
    {
        if !self.can_be_made() {
            return Taken {
                answer: Err(Refusal::Unmade),
                next: self,
            };
        }
        let before = self.taken;
        if words::TEXT_LIMIT - before < piece.len() {
            return Taken {
                answer: Err(Refusal::LongText),
                next: self,
            };
        }
        let m = self.size;
        let borders = border::Borders {
            word: &self.word[..m],
            row: &self.borders[..m],
        };
        let ran = pieces::run(&borders, piece, finds, self.keep, before);
        Taken {
            answer: Ok(ran.count),
            next: Searcher {
                keep: ran.keep,
                taken: before + piece.len(),
                ..self
            },
        }
    }
}
