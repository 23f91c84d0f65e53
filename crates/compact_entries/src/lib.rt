// The entries of compact rows: any word, any text and any rooms may be handed to them. Each answers, or refuses with a number of the table
// in docs/PROMISES.md, and its one promise fixes the answer and every entry of every lent buffer, for refusals too.
// Each entry tests its sizes itself, as the wrong programs stand in these tests; one function for all was tried in `marks`.
#![tactic(auto)]

ghost use Rattle.std.specs.Prelude.{◌≡◌};
ghost use Rattle.compact_entries.specs.CompactBuild.{compact_built, compact_build_says};
ghost use Rattle.compact_entries.specs.CompactSearch.{compact_searched, compact_search_says};

use answers::Refusal;

// The compact rows of a word, in the first 4(m+1) words and the first 10(m+1) entries of the rooms.
pub fn compact_build(word: &[u8], sets: &mut [u64], tables: &mut [u16]) -> Result<usize, Refusal>
    ensures { compact_built result sets.new tables.new
        ≡ compact_build_says word.now sets.old tables.old }
{
    let m = word.len();
    if word.is_empty() {
        return Err(Refusal::EmptyWord);
    }
    if words::WORD_LIMIT < m {
        return Err(Refusal::LongWord);
    }
    let room = 4 * (m + 1);
    if sets.len() < room {
        return Err(Refusal::ShortRoom);
    }
    let need = 10 * (m + 1);
    if tables.len() < need {
        return Err(Refusal::ShortRoom);
    }
    compact_fill::fill(word, &mut sets[..room], &mut tables[..need]);
    Ok(m)
}

// Every place where the word stands in the text. The list gets the first of them, as many as fit; the count is exact.
pub fn compact_search(
    word: &[u8],
    text: &[u8],
    sets: &mut [u64],
    tables: &mut [u16],
    finds: &mut [u32],
) -> Result<finds::Tally, Refusal>
    ensures { compact_searched result sets.new tables.new finds.new
        ≡ compact_search_says word.now text.now sets.old tables.old finds.old }
{
    let m = word.len();
    if word.is_empty() {
        return Err(Refusal::EmptyWord);
    }
    if words::WORD_LIMIT < m {
        return Err(Refusal::LongWord);
    }
    if words::TEXT_LIMIT < text.len() {
        return Err(Refusal::LongText);
    }
    let room = 4 * (m + 1);
    if sets.len() < room {
        return Err(Refusal::ShortRoom);
    }
    let need = 10 * (m + 1);
    if tables.len() < need {
        return Err(Refusal::ShortRoom);
    }
    // The room is scratch until the rows are filled.
    let sought = search::Sought::new(word, &mut tables[..m]);
    compact_fill::fill_mirror(word, &mut sets[..room], &mut tables[..need]);
    let rows = compact::Rows {
        sets: &sets[..room],
        entries: &tables[..need],
        m,
    };
    Ok(compact_search::scan(&rows, &sought, text, finds))
}
