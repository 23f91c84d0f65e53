// The entries over words: any word, any text and any room may be handed to them. Each answers, or refuses with a number of the table in
// docs/PROMISES.md, and its one promise fixes the answer and every entry of every lent buffer, for refusals too.
#![tactic(auto)]

ghost use Rattle.std.specs.Prelude.{◌≡◌};
ghost use Rattle.marks.specs.Build.{built, build_says};
ghost use Rattle.marks.specs.Search.{searched, search_says};

use answers::Refusal;

// Every entry tests its sizes itself: one function for those of words saves it four lines, and it then owes two goals on its room more.

// The table of a word's oracle, in the first 6(m+1) entries of the room.
pub fn build(word: &[u8], tables: &mut [u16]) -> Result<usize, Refusal>
    ensures { built result tables.new ≡ build_says word.now tables.old }
{
    if word.is_empty() {
        return Err(Refusal::EmptyWord);
    }
    let most = words::WORD_LIMIT;
    if most < word.len() {
        return Err(Refusal::LongWord);
    }
    let room = 6 * (word.len() + 1);
    if tables.len() < room {
        return Err(Refusal::ShortRoom);
    }
    table::fill(word, &mut tables[..room]);
    Ok(word.len())
}

// Every place where the word stands in the text. The list gets the first of them, as many as fit; the count is exact.
pub fn search(
    word: &[u8],
    text: &[u8],
    tables: &mut [u16],
    finds: &mut [u32],
) -> Result<finds::Tally, Refusal>
    ensures { searched result tables.new finds.new
        ≡ search_says word.now text.now tables.old finds.old }
{
    let m = word.len();
    if word.is_empty() {
        return Err(Refusal::EmptyWord);
    }
    if words::WORD_LIMIT < m {
        return Err(Refusal::LongWord);
    }
    let longest = words::TEXT_LIMIT;
    if longest < text.len() {
        return Err(Refusal::LongText);
    }
    let need = 6 * (m + 1);
    if tables.len() < need {
        return Err(Refusal::ShortRoom);
    }
    table::fill_mirror(word, &mut tables[..need]);
    // Row 4 of a table is zero: it is scratch here, and zero again afterwards.
    let spare = 4 * (m + 1);
    let sought = search::Sought::new(word, &mut tables[spare..spare + m]);
    let table = table::Table {
        entries: &tables[..need],
        m,
    };
    Ok(search::scan(&table, &sought, text, finds))
}
