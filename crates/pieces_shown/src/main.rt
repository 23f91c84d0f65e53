// Takes texts in pieces, by a loop of our own that hands the searcher on from piece to piece, and writes a line for each text: where each
// piece ends, how many finds end in it, what the lent list holds afterwards, and how often the word was found in all, which is proved to be
// how often it stands in the text. `tools/expect` computes the same lines another way, and they are the file `stdout`. Before a piece each
// entry of the list is 77.
#![tactic(auto)]

ghost use Rattle.std.specs.Prelude.{◌≡◌, ◌≤◌, length, IfOk};
ghost use Rattle.words.specs.Limits.{longest_streamed, longest_text};
ghost use Rattle.words.specs.Words.{occurrences};

use std::io;
use std::io::Write;

fn tell(rt: &impl Print, end: usize, found: usize, list: &[u32]) -> io::Result<()> {
    print!(rt; "; to {end} found {found}, list")?;
    for entry in list {
        print!(rt; " {entry}")?;
    }
    Ok(())
}

// How often the word stands in the text, which is taken in pieces of so many bytes. Only a failed write is an error.
fn in_pieces(rt: &impl Print, word: &[u8], text: &[u8], size: usize) -> io::Result<usize>
    requires { (1 ≤ length word.now) × (length word.now ≤ longest_streamed) × (length text.now ≤ longest_text) × (1 ≤ size) }
    ensures { IfOk result (λ n. n ≡ length (occurrences word.now text.now)) }
{
    let opened = stream::open(word);
    let mut s = opened.searcher;
    let mut end = 0;
    let mut count: usize = 0;
    for piece in text.chunks(size) {
        let mut list = [77u32; 3];
        let taken = s.take(piece, &mut list);
        s = taken.next;
        let more = taken.answer.unwrap_or(0);
        end += piece.len();
        tell(rt, end, more, &list)?;
        count += more;
    }
    Ok(count)
}

fn show(rt: &impl Print, word: &[u8], text: &[u8], size: usize) -> io::Result<()>
    requires { (1 ≤ length word.now) × (length word.now ≤ longest_streamed) × (length text.now ≤ longest_text) × (1 ≤ size) }
{
    let mut out = io::writer(rt);
    out.write_all(word)?;
    print!(rt; " in ")?;
    out.write_all(text)?;
    print!(rt; " by {size}")?;
    let all = in_pieces(rt, word, text, size)?;
    println!(rt; "; in all {all}")
}

#[tactic(auto, using(words::proofs::Limits::streamed_limit, words::proofs::Limits::text_limit))]
fn main(rt: HostRuntime) -> io::Result<()> {
    show(&rt, b"aba", b"ababa", 1)?;
    show(&rt, b"aba", b"ababa", 2)?;
    show(&rt, b"aba", b"ababa", 3)?;
    show(&rt, b"aba", b"ababa", 5)?;
    show(&rt, b"a", b"aaaaaaaaa", 4)?;
    show(&rt, b"aa", b"aaaaaaaaa", 4)?;
    show(&rt, b"RIDE", b"..RIDE..RIDE", 5)?;
    show(&rt, b"abcabd", b"abcabcabdabcabd", 7)?;
    show(&rt, b"abb", b"ab", 1)
}
