// The two editions of a saved file: how a file of either begins and ends, and the check that is written and judged. Serves the entries.
// A file and a place in it go side by side, as in `loaded`.
#![tactic(auto)]

ghost use Rattle.std.specs.Prelude.{◌≡◌, ◌++◌, ◌+◌, ◌≤◌, ◌<◌, length, take, drop, set};
ghost use Rattle.words.specs.Limits.{longest_word};
ghost use Rattle.loaded.specs.Load.{behind};
ghost use Rattle.loaded.specs.Answers.{head_of, ending_of, verdict_of};
ghost use Rattle.crc.specs.Check.{sealed};
ghost use Rattle.editions.specs.Either.{checked_at, front_either, past_check, ending_either, verdict_either};

use answers::{Fault, Flaw};
use loaded::Head;
use number::Cursor;
use saved::Indexed;

// The number of the edition that has a check.
const CHECKED: u8 = 2;

// Whether the file that stands from a place on says that it is of edition 2.
fn is_checked(file: &[u8], start: usize) -> bool
    ensures { result ≡ checked_at file.now start }
{
    file.get(start) == Some(&CHECKED)
}

// The file that stands from a place on, up to its letters.
pub fn read_front(file: &[u8], start: usize) -> Result<Head, Fault>
    ensures { head_of result ≡ front_either longest_word file.now start }
{
    if is_checked(file, start) {
        return loaded::read_letters(file, Cursor { at: start + 1 });
    }
    loaded::read_front(file, start)
}

// The place behind the check, which stands where the arrows of a file end that starts at a place.
fn read_check(file: &[u8], start: usize, at: usize) -> Result<usize, Fault>
    requires { (start ≤ at) × (at ≤ length file.now) }
    ensures { ending_of result ≡ past_check file.now start (behind at) }
{
    let n = file.len();
    if n - at < 2 {
        return Err(Flaw::EndsEarly.at(n));
    }
    let asked = crc_wide::check(&file[start..at]);
    let found = u16::from_le_bytes([file[at], file[at + 1]]);
    let differs = found != asked;
    if differs {
        return Err(Flaw::OtherCheck.at(at));
    }
    Ok(at + 2)
}

// The file that starts at a place, from the number of its arrows on, against a word with its table; bytes may follow.
#[tactic(auto, unfolding(crate::specs::Either::ending_either))]
pub fn compare_open(
    indexed: &Indexed<'_>,
    file: &[u8],
    start: usize,
    at: usize,
) -> Result<usize, Fault>
    requires { start ≤ at }
    ensures { ending_of result ≡ ending_either file.now start at indexed.now.word.now }
{
    let end = loaded::compare_open(indexed, file, at)?;
    if is_checked(file, start) {
        return read_check(file, start, end);
    }
    Ok(end)
}

// The same of a file that starts at the first byte, and that nothing may follow.
#[tactic(auto, unfolding(crate::specs::Either::verdict_either))]
pub fn compare(indexed: &Indexed<'_>, file: &[u8], at: usize) -> Result<(), Fault>
    ensures { verdict_of result ≡ verdict_either file.now at indexed.now.word.now }
{
    loaded::close(file, compare_open(indexed, file, 0, at))
}

// Makes a file of edition 2 of one of edition 1, so many bytes long, at the front of the output.
pub fn seal(out: &mut [u8], size: usize)
    requires { (1 ≤ size) × (size + 2 ≤ length out.old) }
    ensures { out.new ≡ sealed (set (take size out.old) 0 2) ++ drop (size + 2) out.old }
{
    out[0] = CHECKED;
    let [low, high] = crc_wide::check(&out[..size]).to_le_bytes();
    out[size] = low;
    out[size + 1] = high;
}
