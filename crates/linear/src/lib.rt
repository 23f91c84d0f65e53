// The entry of the Turbo search: as the search over words, but at most two letters are read for each letter of the text. Any word, text and
// room may be handed to it, and its one promise fixes the answer and every entry of every lent buffer, for refusals too.
// It tests its sizes itself, as the wrong programs of entries stand in these tests; one function for all was tried in `marks`.
#![tactic(auto)]

ghost use Rattle.std.specs.Prelude.{◌≡◌};
ghost use Rattle.marks.specs.Search.{searched};
ghost use Rattle.linear.specs.Turbo.{turbo_says};

use answers::Refusal;

// Every place where the word stands in the text. The list gets the first of them, as many as fit; the count is exact.
pub fn turbo(
    word: &[u8],
    text: &[u8],
    tables: &mut [u16],
    finds: &mut [u32],
) -> Result<finds::Tally, Refusal>
    ensures { searched result tables.new finds.new
        ≡ turbo_says word.now text.now tables.old finds.old }
{
    let m = word.len();
    if word.is_empty() {
        return Err(Refusal::EmptyWord);
    }
    if words::WORD_LIMIT < m {
        return Err(Refusal::LongWord);
    }
    let longest = words::TEXT_LIMIT;
    if longest < text.len() {
        return Err(Refusal::LongText);
    }
    let need = 6 * (m + 1);
    if tables.len() < need {
        return Err(Refusal::ShortRoom);
    }
    table::fill_mirror(word, &mut tables[..need]);
    let table = table::Table {
        entries: &tables[..need],
        m,
    };
    Ok(turbo::scan(&table, word, text, finds))
}
