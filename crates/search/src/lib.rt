// The backward search over a table: a window is read from its end, and moved to behind the first letter that has no arrow. In a long text
// the arrows are prepared first, so that most are not looked for. Serves the entries.
#![tactic(auto)]

ghost use Rattle.std.specs.Prelude.{◌≡◌, ◌+◌, ◌<◌, ◌≤◌, length, replicate};
ghost use Rattle.table.specs.Asked.{arrow_of};
ghost use Rattle.backward.specs.Steps.{read_down, after_find, steps};
ghost use Rattle.search.specs.Answers.{reading_of, tally_of};
ghost use Rattle.finds.specs.Finds.{filled};

// A word that is searched for, and how far the window moves after a find of it.
#[derive(Clone, Copy)]
pub struct Sought<'a> {
    pub word: &'a [u8],
    pub step: usize,
    ghost nonempty: { 1 ≤ length word.now },
    ghost short: { length word.now < 65536 },
    ghost moves: { step ≡ after_find word.now },
}

impl<'a> Sought<'a> {
    // The row, as long as the word, is scratch and zero afterwards.
    pub fn new(word: &'a [u8], row: &mut [u16]) -> Self
        requires { (1 ≤ length word.now) × (length word.now < 65536) × (length row.old ≡ length word.now) }
        ensures word { result.word.now ≡ word.now }
        ensures row { row.new ≡ replicate (length word.now) 0 }
    {
        border::fill(word, row);
        let longest = row[word.len() - 1] as usize;
        row.fill(0);
        Sought {
            word,
            step: word.len() - longest,
        }
    }
}

// Reads k letters from s on, from the last to the first and from a state; the loop breaks with how that went.
// The loop counts down and breaks with its result: 01 fixes that form for reading a window.
pub fn read_window<A: words::Arrows>(
    arrows: &A,
    text: &[u8],
    s: words::Place,
    k: usize,
    from: words::State,
) -> Option<words::Place>
    requires { (s.0 + k ≤ length text.now) × (length text.now < 4294967295) }
    ensures { result ≡ reading_of (read_down (A.arrow arrows.now) text.now s.0 k from.0) }
{
    let start = s.0 as usize;
    let window = &text[start..start + k];
    let mut left = k;
    let mut x = from;
    loop {
        if left == 0 {
            break None;
        }
        left -= 1;
        let Some(next) = arrows.lookup(x, words::Letter(window[left])) else {
            break Some(words::Place((start + left) as u32));
        };
        x = next;
    }
}

// The same as `read_window` with what is prepared, from the state that an entry tells; from a state beyond the prepared ones on, with
// lookups. The entry is wide so that the compiler keeps one register for it from letter to letter.
// The loop counts down and breaks with its result: 01 fixes that form for reading a window.
pub fn read_on<A: words::Arrows>(
    columns: &prepared::Columns<'_, A>,
    text: &[u8],
    s: words::Place,
    k: usize,
    from: u32,
) -> Option<words::Place>
    requires { (s.0 + k ≤ length text.now) × (length text.now < 4294967295) × (from < 65535) }
    ensures { result ≡ reading_of (read_down (A.arrow columns.now.arrows.now) text.now s.0 k from) }
{
    let column = columns.column;
    let dense = columns.dense;
    let start = s.0 as usize;
    let mut left = k;
    let mut entry = from as usize;
    loop {
        if columns.rows <= entry {
            let x = entry as u16;
            if x == prepared::NOTHING {
                break Some(words::Place((start + left) as u32));
            }
            let rest = read_window(columns.arrows, text, s, left, words::State(x));
            break rest;
        }
        if left < 1 {
            break None;
        }
        left -= 1;
        let c = text[start + left] as usize;
        let top = column[c] as usize;
        let y = dense[top + entry];
        entry = y as usize;
    }
}

// Moves the window over the text, and looks each arrow up.
pub fn windows<A: words::Arrows>(
    arrows: &A,
    sought: &Sought<'_>,
    text: &[u8],
    finds: &mut [u32],
) -> finds::Tally
    requires { length text.now < 4294967295 }
    ensures tally { result ≡ tally_of (steps (A.arrow arrows.now) sought.now.word.now text.now) }
    ensures finds { finds.new ≡ filled (steps (A.arrow arrows.now) sought.now.word.now text.now).starts finds.old }
{
    let m = sought.word.len();
    let n = text.len();
    let mut s = words::Place(0);
    let mut count: usize = 0;
    let mut letters: u64 = 0;
    'window: while (s.0 as usize) + m <= n {
        let Some(f) = read_window(arrows, text, s, m, words::State(0)) else {
            letters += m as u64;
            count = finds::note(finds, count, s);
            let on = ((s.0 as usize) + sought.step) as u32;
            s = words::Place(on);
            continue 'window;
        };
        let past = words::Place(f.0 + 1);
        letters += ((s.0 as usize) + m - (f.0 as usize)) as u64;
        s = past;
    }
    finds::Tally { count, letters }
}

// No twin of `windows`: one loop for both took up to 1.2 times as long (docs/DECISIONS.md).
// The same as `windows` with what is prepared. Most windows end with their last letter or the one before it: these are moved at once, as it
// is told where the last letter leads and whether any arrow can follow.
pub fn windows_prepared<A: words::Arrows, S: prepared::Starts>(
    columns: &prepared::Columns<'_, A>,
    starts: &S,
    sought: &Sought<'_>,
    text: &[u8],
    finds: &mut [u32],
) -> finds::Tally
    requires in_bounds { (2 ≤ length sought.now.word.now) × (length text.now < 4294967295) }
    requires agree { S.arrow starts.now ≡ A.arrow columns.now.arrows.now }
    ensures tally { result ≡ tally_of
        (steps (A.arrow columns.now.arrows.now) sought.now.word.now text.now) }
    ensures finds { finds.new ≡ filled
        (steps (A.arrow columns.now.arrows.now) sought.now.word.now text.now).starts
        finds.old }
{
    let m = sought.word.len();
    let n = text.len();
    let mut start: usize = 0;
    let mut count: usize = 0;
    let mut letters: u64 = 0;
    // Whether the entries are asked.
    let mut asked = true;
    'window: while start + m <= n {
        let end = start + m;
        let c = words::Letter(text[end - 1]);
        let Some(x) = starts.first(c) else {
            letters += 1;
            start = end;
            continue 'window;
        };
        let d = words::Letter(text[end - 2]);
        let follows = starts.may_follow(c, x, d);
        if !follows {
            letters += 2;
            start = end - 1;
            continue 'window;
        }
        let s = words::Place(start as u32);
        // Two calls, so that each way of reading has a loop to itself.
        let read = if asked {
            read_on(columns, text, s, m - 1, x.0 as u32)
        } else {
            read_window(columns.arrows, text, s, m - 1, x)
        };
        let Some(f) = read else {
            letters += sought.word.len() as u64;
            // Where a word stands it often stands again.
            asked = false;
            count = finds::note(finds, count, s);
            start += sought.step;
            continue 'window;
        };
        let deep = end - (f.0 as usize);
        letters += deep as u64;
        // Where it was read deep, the text mostly goes on along the word itself, and a lookup tries the word's own next letter at once.
        asked = deep < 32;
        start = (f.0 as usize) + 1;
    }
    finds::Tally { count, letters }
}

// The same in a long text, once its arrows are prepared. It is called from two places, so that the compiler keeps the arrays in a frame of
// their own, for which a search in a short text does not pay.
fn scan_long(
    table: &table::Table<'_>,
    sought: &Sought<'_>,
    text: &[u8],
    finds: &mut [u32],
) -> finds::Tally
    requires { (2 ≤ length sought.now.word.now) × (length text.now < 4294967295) }
    ensures tally { result ≡ tally_of (steps (arrow_of table.now) sought.now.word.now text.now) }
    ensures finds { finds.new ≡ filled (steps (arrow_of table.now) sought.now.word.now text.now).starts finds.old }
{
    let mut column = [0u16; 256];
    let mut dense = [prepared::NOTHING; prepared::ENTRIES];
    let columns = prepared::prepare_columns(table, &mut column, &mut dense);
    if columns.rows == 0 {
        return windows(columns.arrows, sought, text, finds);
    }
    let mut first = [None; 256];
    let mut flags = [false; prepared::FLAGS];
    let ready = prepared::Prepared::new(columns, &mut first, &mut flags);
    windows_prepared(&ready.columns, &ready, sought, text, finds)
}

// Moves the window over the text, with the arrows of the table.
pub fn scan(
    table: &table::Table<'_>,
    sought: &Sought<'_>,
    text: &[u8],
    finds: &mut [u32],
) -> finds::Tally
    requires { length text.now < 4294967295 }
    ensures tally { result ≡ tally_of (steps (arrow_of table.now) sought.now.word.now text.now) }
    ensures finds { finds.new ≡ filled (steps (arrow_of table.now) sought.now.word.now text.now).starts finds.old }
{
    let m = sought.word.len();
    if prepared::repays_short(2, m, text.len()) {
        return scan_long(table, sought, text, finds);
    }
    if prepared::repays_long(m, text.len()) {
        return scan_long(table, sought, text, finds);
    }
    windows(table, sought, text, finds)
}
