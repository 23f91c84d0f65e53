// The entries of the failure oracle: any word, any text and any room may be handed to them. Each answers, or refuses with a number of the
// table in docs/PROMISES.md, and its one promise fixes the answer and every entry of every lent buffer, for refusals too.
// Each entry tests its sizes itself, as the wrong programs stand in these tests; one function for all was tried in `marks`.
#![tactic(auto)]

ghost use Rattle.std.specs.Prelude.{◌≡◌};
ghost use Rattle.marks.specs.Build.{built};
ghost use Rattle.failure_entries.specs.FailureBuild.{failure_build_says};
ghost use Rattle.failure_entries.specs.FailureSearch.{failure_searched, failure_search_says};

use answers::Refusal;

// The table of a word's failure oracle, in the first 10(m+1) entries of the room.
pub fn failure_build(word: &[u8], tables: &mut [u16]) -> Result<usize, Refusal>
    ensures { built result tables.new ≡ failure_build_says word.now tables.old }
{
    if word.is_empty() {
        return Err(Refusal::EmptyWord);
    }
    if words::WORD_LIMIT < word.len() {
        return Err(Refusal::LongWord);
    }
    let room = 10 * (word.len() + 1);
    if tables.len() < room {
        return Err(Refusal::ShortRoom);
    }
    failure_table::fill(word, &mut tables[..room]);
    Ok(word.len())
}

// Every place where the word stands in the text. The list gets the first of them, as many as fit; the count is exact.
pub fn failure_search(
    word: &[u8],
    text: &[u8],
    tables: &mut [u16],
    finds: &mut [u32],
) -> Result<failure_search::FailureTally, Refusal>
    ensures { failure_searched result tables.new finds.new
        ≡ failure_search_says word.now text.now tables.old finds.old }
{
    let m = word.len();
    if word.is_empty() {
        return Err(Refusal::EmptyWord);
    }
    if words::WORD_LIMIT < m {
        return Err(Refusal::LongWord);
    }
    if words::TEXT_LIMIT < text.len() {
        return Err(Refusal::LongText);
    }
    let need = 10 * (m + 1);
    if tables.len() < need {
        return Err(Refusal::ShortRoom);
    }
    // The room is scratch until the table is filled.
    let sought = search::Sought::new(word, &mut tables[..m]);
    failure_table::fill_mirror(word, &mut tables[..need]);
    let table = failure_table::FailureTable {
        entries: &tables[..need],
        m,
    };
    Ok(failure_search::scan(&table, &sought, text, finds))
}
