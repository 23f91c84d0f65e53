// The lister of rides in cut files: any text and any room may be handed to it. It answers, or refuses with a number of the table in
// docs/PROMISES.md, and its one promise fixes the answer and every entry of every lent buffer, for refusals too. The text is searched for
// `.FIT` in parts, each into a list of the call's own that has an entry for every find which a part can have. So no find is looked for
// twice, and the time is linear whatever the text holds.
#![tactic(auto)]

ghost use Rattle.std.specs.Prelude.{◌≡◌, [], ◌∷◌, map, ◌+◌, ◌<◌, ◌≤◌, length};
ghost use Rattle.words.specs.Words.{mirror};
ghost use Rattle.words.specs.Limits.{longest_text};
ghost use Rattle.table.specs.Table.{table_of};
ghost use Rattle.rides.specs.Rides.{dot_fit, rides_at, rides};
ghost use Rattle.salvage.specs.Listing.{most_finds, InLists, Adds, Within, behind_place};
ghost use Rattle.salvage.specs.Salvage.{salvaged, salvage_says};

use answers::Refusal;

// How many letters a part has at most, and how many finds at most: `.FIT` does not overlap itself.
const PART: usize = 4096;

const FINDS: usize = 1024;

// How many table entries `.FIT` needs.
const ROOM: usize = 30;

// Lists the ride of one find, if it is in a header, behind `count` others; the answer is how many there are.
fn list_find(
    text: &[u8],
    q: words::Place,
    starts: &mut [u32],
    kinds: &mut [u8],
    count: usize,
) -> usize
    requires { (q.0 + 4 ≤ length text.now) × (length text.now ≤ longest_text) × (count < 4294967295) }
    ensures { (result ≡ count + length (rides_at text.now (q.0 ∷ [])))
        × Adds (rides_at text.now (q.0 ∷ [])) count
        starts.old kinds.old starts.new kinds.new }
{
    let Some(header) = rides::read_header(text, q) else {
        return count;
    };
    two_lists::note(starts, kinds, count, header.start, u8::from(header.kind))
}

// The same of all finds of a part that begins at a place of the text.
fn list_finds(
    text: &[u8],
    at: words::Place,
    finds: &[u32],
    starts: &mut [u32],
    kinds: &mut [u8],
    count: usize,
) -> usize
    requires { Within text.now at.0 finds.now × (length text.now ≤ longest_text) × (count + length finds.now < 4294967295) }
    ensures { (result ≡ count + length (rides_at text.now (map (behind_place at.0) finds.now)))
        × Adds (rides_at text.now (map (behind_place at.0) finds.now)) count
        starts.old kinds.old starts.new kinds.new }
{
    let mut listed = count;
    for find in finds {
        let q = at.0 + find;
        listed = list_find(text, words::Place(q), starts, kinds, listed);
    }
    listed
}

// Lists the rides of a text with the word `.FIT` and its mirror's table. A part begins with the last three letters of the one before it.
// The list of finds is scratch. Both lists and the count are lent on as they are: a struct of them would be lent anew at each call.
fn list_parts(
    word: &[u8],
    table: &[u16],
    text: &[u8],
    finds: &mut [u32],
    starts: &mut [u32],
    kinds: &mut [u8],
) -> usize
    requires word_value { (word.now ≡ dot_fit) × (table.now ≡ table_of (mirror dot_fit)) }
    requires text_len_bound { (length text.now ≤ longest_text) × (length finds.old ≡ most_finds) }
    ensures { (result ≡ length (rides text.now))
        × InLists (rides text.now) starts.old kinds.old starts.new kinds.new }
{
    let table = table::Table {
        entries: table,
        m: word.len(),
    };
    // Four places on after a find: no end of `.FIT` is a beginning of it.
    let sought = search::Sought { word, step: 4 };
    let mut at = 0;
    let mut count = 0;
    // Parts overlap by three letters, as no iterator of the library's does: so the place is counted by hand.
    while at + 4 <= text.len() {
        let end = at + (text.len() - at).min(PART);
        let tally = search::scan(&table, &sought, &text[at..end], finds);
        let from = at as u32;
        count = list_finds(
            text,
            words::Place(from),
            &finds[..tally.count],
            starts,
            kinds,
            count,
        );
        at = end - 3;
    }
    count
}

// The rides of the text by their headers, where each begins and its kind. The lists get the first of them, as many as fit both; the count
// is exact.
pub fn salvage(
    text: &[u8],
    tables: &mut [u16],
    starts: &mut [u32],
    kinds: &mut [u8],
) -> Result<usize, Refusal>
    ensures { salvaged result tables.new starts.new kinds.new
        ≡ salvage_says text.now tables.old starts.old kinds.old }
{
    // Sizes are tested here, as in other entries: `marks` says why.
    if words::TEXT_LIMIT < text.len() {
        return Err(Refusal::LongText);
    }
    let need = ROOM;
    if tables.len() < need {
        return Err(Refusal::ShortRoom);
    }
    let word = *b".FIT";
    table::fill_mirror(&word, &mut tables[..ROOM]);
    let mut finds = [0u32; FINDS];
    let count = list_parts(&word, &tables[..ROOM], text, &mut finds, starts, kinds);
    Ok(count)
}
