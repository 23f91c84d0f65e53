// Searchers as lent bytes: packed, unpacked, opened and handed a piece. Any bytes may be handed to `open` and `take`; their one promise
// fixes the answer, every byte and every entry of the list, for refusals too.
// `open` tests its sizes itself, as other entries do: one function for all was tried in `marks`.
#![tactic(auto)]

ghost use Rattle.std.specs.Prelude.{◌≡◌, ℕ, ◌<◌, length};
ghost use Rattle.words.specs.Lists.{at};
ghost use Rattle.searcher_bytes.specs.Packing.{searcher_bytes, packed, unpacked};
ghost use Rattle.searcher_bytes.specs.OpenBytes.{opened, open_bytes_says};
ghost use Rattle.answers.specs.Answers.{size_answer};
ghost use Rattle.searcher_bytes.specs.TakeBytes.{took, take_bytes_says, is_done};

use answers::Refusal;
use stream::Searcher;
use words::STREAMED_LIMIT;

// Where both rows end, and how many bytes a searcher has.
const ROWS: usize = 2 * STREAMED_LIMIT;

pub const SEARCHER: usize = ROWS + 6;

// Writes a searcher's bytes. Inlined, so that the compiler need not make the searcher that is written.
#[inline(always)]
fn pack(s: &Searcher, out: &mut [u8])
    requires out_len { length out.old ≡ searcher_bytes }
    requires size_bound { (s.now.size < 256) × (s.now.keep < 256) × ((i : ℕ) → at s.now.borders i < 256) }
    ensures { out.new ≡ packed s.now }
{
    let [a, b, c, d, ..] = s.taken.to_le_bytes();
    let rest = [s.size as u8, s.keep as u8, a, b, c, d];
    copies::copy(&s.word, &mut out[..STREAMED_LIMIT]);
    rows::narrow(&s.borders, &mut out[STREAMED_LIMIT..ROWS]);
    copies::copy(&rest, &mut out[ROWS..SEARCHER]);
}

// The searcher that has these bytes.
fn unpack(bytes: &[u8]) -> Searcher
    requires { length bytes.now ≡ searcher_bytes }
    ensures { result ≡ unpacked bytes.now }
{
    let mut word = [0; STREAMED_LIMIT];
    let mut borders = [0; STREAMED_LIMIT];
    copies::copy(&bytes[..STREAMED_LIMIT], &mut word);
    rows::widen(&bytes[STREAMED_LIMIT..ROWS], &mut borders);
    let taken = u32::from_le_bytes([
        bytes[ROWS + 2],
        bytes[ROWS + 3],
        bytes[ROWS + 4],
        bytes[ROWS + 5],
    ]);
    Searcher {
        word,
        borders,
        size: usize::from(bytes[ROWS]),
        keep: usize::from(bytes[ROWS + 1]),
        taken: taken as usize,
    }
}

// Opens a stream for a word, into the first of the bytes.
pub fn open(word: &[u8], bytes: &mut [u8]) -> Result<usize, Refusal>
    ensures { opened result bytes.new ≡ open_bytes_says word.now bytes.old }
{
    if word.is_empty() {
        return Err(Refusal::EmptyWord);
    }
    if STREAMED_LIMIT < word.len() {
        return Err(Refusal::LongWord);
    }
    if bytes.len() < SEARCHER {
        return Err(Refusal::ShortRoom);
    }
    let opened = stream::open(word);
    pack(&opened.searcher, &mut bytes[..SEARCHER]);
    Ok(word.len())
}

// Whether a piece was taken.
fn is_done(answer: &Result<usize, Refusal>) -> bool
    ensures { result ≡ is_done (size_answer answer.now) }
{
    answer.is_ok()
}

// Takes a piece with the searcher that has the first of the bytes, and leaves the next one there.
pub fn take(bytes: &mut [u8], piece: &[u8], finds: &mut [u32]) -> Result<usize, Refusal>
    ensures { took result bytes.new finds.new
        ≡ take_bytes_says bytes.old piece.now finds.old }
{
    if bytes.len() < SEARCHER {
        return Err(Refusal::Unmade);
    }
    let taken = unpack(&bytes[..SEARCHER]).take(piece, finds);
    let done = is_done(&taken.answer);
    if done {
        pack(&taken.next, &mut bytes[..SEARCHER]);
    }
    taken.answer
}
