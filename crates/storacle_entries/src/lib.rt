// The entry of the storacle: any word and any room may be handed to it. It answers, or refuses with a number of the table in
// docs/PROMISES.md, and its one promise fixes the answer and every entry of the lent room, for refusals too.
// It tests its sizes itself, as the wrong programs of entries stand in these tests; one function for all was tried in `marks`.
#![tactic(auto)]

ghost use Rattle.std.specs.Prelude.{◌≡◌};
ghost use Rattle.marks.specs.Build.{built};
ghost use Rattle.storacle_entries.specs.StoracleBuild.{storacle_build_says};

use answers::Refusal;

// The table of a word's storacle, in the first (m+1)(m+6) entries of the room.
pub fn storacle_build(word: &[u8], tables: &mut [u16]) -> Result<usize, Refusal>
    ensures { built result tables.new ≡ storacle_build_says word.now tables.old }
{
    let m = word.len();
    if word.is_empty() {
        return Err(Refusal::EmptyWord);
    }
    let limit = words::STORACLE_LIMIT;
    if limit < m {
        return Err(Refusal::LongWord);
    }
    let room = (m + 1) * (m + 6);
    if tables.len() < room {
        return Err(Refusal::ShortRoom);
    }
    storacle_table::fill(word, &mut tables[..room]);
    Ok(m)
}
