// The entries over files: any word, any file, any text and any room may be handed to them. Each answers, or refuses with a number of the
// table in docs/PROMISES.md, and its one promise fixes the answer and every entry of every lent buffer, for refusals too.
// Each entry tests its sizes itself, as the wrong programs stand in these tests; one function for all was tried in `marks`.
#![tactic(auto)]

ghost use Rattle.std.specs.Prelude.{◌≡◌, ◌+◌, ◌*◌, ◌<◌, ◌≤◌, length, replicate};
ghost use Rattle.table.specs.Table.{read_arrow};
ghost use Rattle.table.specs.Formed.{Formed};
ghost use Rattle.table.specs.Spare.{Spare};
ghost use Rattle.backward.specs.Steps.{steps};
ghost use Rattle.finds.specs.Finds.{filled};
ghost use Rattle.search.specs.Answers.{tally_of};
ghost use Rattle.mark_files.specs.Save.{saved_as, save_says};
ghost use Rattle.mark_files.specs.Load.{loaded_as, judged_at, load_says};
ghost use Rattle.mark_files.specs.SearchFile.{file_searched, search_file_says};

use answers::Refusal;
use saved::Indexed;

// The file of a word in edition 1, at the front of the output.
pub fn save(word: &[u8], tables: &mut [u16], out: &mut [u8]) -> Result<usize, Refusal>
    ensures { saved_as result tables.new out.new
        ≡ save_says word.now tables.old out.old }
{
    let m = word.len();
    if word.is_empty() {
        return Err(Refusal::EmptyWord);
    }
    if words::WORD_LIMIT < m {
        return Err(Refusal::LongWord);
    }
    let least = words::LEAST_SAVED;
    if m < least {
        return Err(Refusal::ShortWord);
    }
    let need = 6 * (m + 1);
    if tables.len() < need {
        return Err(Refusal::ShortRoom);
    }
    table::fill(word, &mut tables[..need]);
    let indexed = Indexed {
        word,
        table: &tables[..need],
    };
    let size = indexed.file_size();
    let needed = size;
    if out.len() < needed {
        tables[..need].fill(0);
        return Err(Refusal::ShortOutput);
    }
    indexed.write_file(out);
    Ok(size)
}

// The file's letters from a place on and their table, into rooms that are just long enough; or zeros there, and the refusal, where the
// arrows behind them are not the word's own.
fn take_word(file: &[u8], at: usize, room: &mut [u8], table: &mut [u16]) -> Result<usize, Refusal>
    requires inside { (at + length room.old ≤ length file.now) × (length table.old ≡ 6 * (length room.old + 1)) }
    requires size_bound { (1 ≤ length room.old) × (length room.old < 65535) }
    ensures { loaded_as result room.new table.new
        ≡ judged_at file.now at (length room.old) }
{
    let m = room.len();
    let end = at + m;
    let letters = &file[at..end];
    copies::copy(letters, room);
    table::fill(letters, table);
    let indexed = Indexed {
        word: letters,
        table,
    };
    if let Err(fault) = editions::compare(&indexed, file, end) {
        room.fill(0);
        table.fill(0);
        return Err(Refusal::InFile(fault));
    }
    Ok(m)
}

// The word and the oracle that a file of either edition holds, as its word and table, in the rooms.
pub fn load(file: &[u8], room: &mut [u8], tables: &mut [u16]) -> Result<usize, Refusal>
    ensures { loaded_as result room.new tables.new
        ≡ load_says file.now room.old tables.old }
{
    let head = editions::read_front(file, 0)?;
    let m = head.letters;
    let short = room.len() < m;
    if short {
        return Err(Refusal::ShortRoom);
    }
    let need = 6 * (m + 1);
    if tables.len() < need {
        return Err(Refusal::ShortRoom);
    }
    take_word(file, head.at, &mut room[..m], &mut tables[..need])
}

// Moves the window over the text, with the arrows of the word's own table, whose row 4 is scratch before that and zero again afterwards.
fn scan_loaded(word: &[u8], table: &mut [u16], text: &[u8], finds: &mut [u32]) -> finds::Tally
    requires in_bounds { (1 ≤ length word.now) × (length text.now < 4294967295) }
    requires formed { Formed table.old (length word.now) × Spare table.old (length word.now) }
    ensures { (result ≡ tally_of
        (steps (read_arrow (length word.now) table.old) word.now text.now))
        × (finds.new ≡ filled
        (steps (read_arrow (length word.now) table.old) word.now text.now).starts
        finds.old)
        × (table.new ≡ table.old) }
{
    let m = word.len();
    let spare = 4 * (m + 1);
    let sought = search::Sought::new(word, &mut table[spare..spare + m]);
    let table = table::Table { entries: table, m };
    search::scan(&table, &sought, text, finds)
}

// Every place where the mirror of the file's word stands in the text.
pub fn search_file(
    file: &[u8],
    text: &[u8],
    room: &mut [u8],
    tables: &mut [u16],
    finds: &mut [u32],
) -> Result<finds::Tally, Refusal>
    ensures { file_searched result room.new tables.new finds.new
        ≡ search_file_says file.now text.now room.old tables.old finds.old }
{
    if text.len() > words::TEXT_LIMIT {
        return Err(Refusal::LongText);
    }
    let m = load(file, room, tables)?;
    let need = 6 * (m + 1);
    Ok(scan_loaded(&room[..m], &mut tables[..need], text, finds))
}
