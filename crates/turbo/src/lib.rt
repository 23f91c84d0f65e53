// The Turbo search over a table, for words and texts that strangers choose. A window is read from its end, but never below the forward
// place; then its letters are read forward along the word's borders. In a long text the arrows are prepared first, as in the backward
// search. Serves the entries.
#![tactic(auto)]

ghost use Rattle.std.specs.Prelude.{◌≡◌, cond, ◌-◌, ◌*◌, ◌<◌, ◌≤◌, length, leb};
ghost use Rattle.words.specs.Limits.{longest_word, longest_text};
ghost use Rattle.table.specs.Asked.{arrow_of};
ghost use Rattle.backward.specs.Steps.{read_down};
ghost use Rattle.turbo.specs.Readings.{begins_at, StopsAs, Swept};

// Where a reading forward begins, how many letters of the word are kept there, and how many letters were read backward.
#[derive(Clone, Copy)]
pub struct Begin {
    pub place: words::Place,
    pub keep: usize,
    pub letters: usize,
}

// Where it stops, how many letters are kept there, and how many finds there are.
#[derive(Clone, Copy)]
pub struct Stop {
    pub place: words::Place,
    pub keep: usize,
    pub count: usize,
}

// For how many states the entries are asked: for all that have some, or for none.
fn asked_rows(asked: bool, rows: usize) -> usize
    ensures { result ≤ rows }
{
    if asked { rows } else { 0 }
}

// Reads the letters from the window's end down to c, where `keep` letters are kept; the prepared entries are asked or not. One call, of the
// columns or of none, so that there is one loop of lookups.
fn read_back(
    columns: &prepared::Columns<'_, table::Table<'_>>,
    asked: bool,
    text: &[u8],
    c: words::Place,
    keep: usize,
    end: usize,
) -> Begin
    requires { (c.0 ≤ end) × (end ≤ length text.now) × (length text.now ≤ longest_text) }
    ensures { result ≡ begins_at c.0 keep (read_down (arrow_of columns.now.arrows.now) text.now c.0 (end - c.0) 0) }
{
    let letters = end - (c.0 as usize);
    let asked_of = prepared::Columns {
        arrows: columns.arrows,
        column: columns.column,
        dense: columns.dense,
        rows: asked_rows(asked, columns.rows),
    };
    let Some(f) = search::read_on(&asked_of, text, c, letters, 0) else {
        return Begin {
            place: c,
            keep,
            letters,
        };
    };
    Begin {
        place: words::Place(f.0 + 1),
        keep: 0,
        letters: end - (f.0 as usize),
    }
}

// How far a reading forward goes: to the window's end, or, where at least half the word is kept, as far as the text does.
fn reach(m: usize, keep: usize, end: usize, n: usize) -> usize
    requires { keep < m }
    ensures { result ≡ cond (leb m (2 * keep)) n end }
{
    if m - keep <= keep {
        return n;
    }
    end
}

// No twin of `pieces::run`: how far it goes, and how far it skips, depends on what is kept.
// Reads forward from c, where `kept` letters are kept and so many finds are listed, to the window's end, and on while at least half the
// word is kept.
fn forward(
    borders: &border::Borders<'_>,
    text: &[u8],
    finds: &mut [u32],
    c: words::Place,
    kept: usize,
    found: usize,
    end: usize,
) -> Stop
    requires kept_in_bounds { (kept < length borders.now.word.now) × (kept ≤ c.0) }
    requires found_le_c { (found ≤ c.0) × (c.0 ≤ length text.now) × (end ≤ length text.now) × (length text.now ≤ longest_text) }
    ensures { StopsAs borders.now.word.now text.now end c.0 kept found finds.old result finds.new }
{
    let m = borders.word.len();
    let n = text.len();
    let border = borders.longest();
    let mut at = c.0 as usize;
    let mut keep = kept;
    let mut count = found;
    while at < reach(m, keep, end, n) {
        let b = text[at];
        let long = borders.extend(keep, words::Letter(b));
        at += 1;
        if long == 0 {
            // Nothing is kept, and nothing will be before the word's first letter comes.
            keep = 0;
            if at < end {
                at = pieces::skip(&text[..end], at, words::Letter(borders.word[0]));
            }
            continue;
        }
        if long < m {
            keep = long;
            continue;
        }
        let s = (at - m) as u32;
        count = finds::note(finds, count, words::Place(s));
        keep = border;
    }
    Stop {
        place: words::Place(at as u32),
        keep,
        count,
    }
}

// Moves the window over the text, with arrows and what is prepared of them, and the word's borders.
fn windows(
    columns: &prepared::Columns<'_, table::Table<'_>>,
    borders: &border::Borders<'_>,
    text: &[u8],
    finds: &mut [u32],
) -> finds::Tally
    requires { length text.now ≤ longest_text }
    ensures { Swept (arrow_of columns.now.arrows.now) borders.now.word.now text.now finds.old result finds.new }
{
    let m = borders.word.len();
    let n = text.len();
    let mut c = words::Place(0);
    let mut keep: usize = 0;
    let mut count: usize = 0;
    let mut letters: u64 = 0;
    // Whether the entries are asked.
    let mut asked = true;
    'window: while (c.0 as usize) - keep + m <= n {
        let end = (c.0 as usize) - keep + m;
        let begin = read_back(columns, asked, text, c, keep, end);
        let stop = forward(borders, text, finds, begin.place, begin.keep, count, end);
        letters += begin.letters as u64 + (stop.place.0 - begin.place.0) as u64;
        c = stop.place;
        keep = stop.keep;
        count = stop.count;
        // Where it was read deep, the text mostly goes on along the word itself, and a lookup tries the word's own next letter at once.
        asked = begin.letters < 16;
    }
    finds::Tally { count, letters }
}

// The same over copies of the columns and the table, so that the compiler does not load their parts anew for each window.
fn windows_of_copies(
    columns: &prepared::Columns<'_, table::Table<'_>>,
    borders: &border::Borders<'_>,
    text: &[u8],
    finds: &mut [u32],
) -> finds::Tally
    requires { length text.now ≤ longest_text }
    ensures { Swept (arrow_of columns.now.arrows.now) borders.now.word.now text.now finds.old result finds.new }
{
    let table = *columns.arrows;
    let own = prepared::Columns {
        arrows: &table,
        column: columns.column,
        dense: columns.dense,
        rows: columns.rows,
    };
    windows(&own, borders, text, finds)
}

// The same in a long text, once its arrows are prepared. Called from two places, as that of the backward search.
fn scan_long(
    table: &table::Table<'_>,
    borders: &border::Borders<'_>,
    text: &[u8],
    finds: &mut [u32],
) -> finds::Tally
    requires { length text.now ≤ longest_text }
    ensures { Swept (arrow_of table.now) borders.now.word.now text.now finds.old result finds.new }
{
    let mut column = [0u16; 256];
    let mut dense = [prepared::NOTHING; prepared::ENTRIES];
    let table = *table;
    let columns = prepared::prepare_columns(&table, &mut column, &mut dense);
    windows_of_copies(&columns, borders, text, finds)
}

// Every place where the word stands, with the arrows of the table; at most two letters are read for each of the text's.
pub fn scan(table: &table::Table<'_>, word: &[u8], text: &[u8], finds: &mut [u32]) -> finds::Tally
    requires { (1 ≤ length word.now) × (length word.now ≤ longest_word) × (length text.now ≤ longest_text) }
    ensures { Swept (arrow_of table.now) word.now text.now finds.old result finds.new }
{
    let m = word.len();
    let mut row = [0u16; words::WORD_LIMIT];
    border::fill(word, &mut row[..m]);
    let borders = border::Borders {
        word,
        row: &row[..m],
    };
    if prepared::repays_short(8, m, text.len()) {
        return scan_long(table, &borders, text, finds);
    }
    if prepared::repays_long(m, text.len()) {
        return scan_long(table, &borders, text, finds);
    }
    windows_of_copies(&prepared::Columns::none(table), &borders, text, finds)
}
