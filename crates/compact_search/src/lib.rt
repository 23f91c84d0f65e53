// The backward search over compact rows: a window is read from its end, and moved to behind the first letter that has no arrow. In a text
// that is long beside the word the arrows of the first states are prepared in small arrays, as many as fit into two kilobytes. Serves the
// entries.
#![tactic(auto)]

ghost use Rattle.std.specs.Prelude.{◌≡◌, ℕ, ◌+◌, ◌*◌, ◌<◌, ◌≤◌, length};
ghost use Rattle.words.specs.Lists.{at};
ghost use Rattle.prepared.specs.Prepared.{told, FewStates};
ghost use Rattle.prepared.specs.Filling.{Zeros};
ghost use Rattle.backward.specs.Steps.{steps};
ghost use Rattle.finds.specs.Finds.{filled};
ghost use Rattle.search.specs.Answers.{tally_of};
ghost use Rattle.compact.specs.Compact.{in_set, how_many};
ghost use Rattle.compact.specs.Asked.{arrow_of};
ghost use Rattle.compact_search.specs.Preparing.{FirstTargets, FirstEntries, Column, Untold};

use words::Arrows;

// How many entries all columns have together.
pub const ENTRIES: usize = 1024;

// From how many letters of text for each letter of the word on preparing repays.
pub const LETTERS_FOR_EACH: usize = 200;

// What tells the arrow from x on c: its target, or the entry that tells none.
fn entry_for(arrows: &compact::Rows<'_>, x: words::State, c: words::Letter) -> u16
    ensures { told result ≡ arrow_of arrows.now x.0 c.0 }
{
    let Some(y) = arrows.lookup(x, c) else {
        return prepared::NOTHING;
    };
    y.0
}

// A column: the arrows on c of the first states, as many as it is long.
fn fill_column(arrows: &compact::Rows<'_>, c: words::Letter, column: &mut [u16])
    requires { length column.old ≤ 1024 }
    ensures { Column (arrow_of arrows.now) c.0 column.new }
{
    for (x, entry) in column.iter_mut().enumerate() {
        *entry = entry_for(arrows, words::State(x as u16), c);
    }
}

// For how many states there is room, with a column for each letter on which an arrow leaves state 0, and the empty one.
// As in `prepared`, but the letters are counted in the set of state 0, and there is less room.
fn rows_for(arrows: &compact::Rows<'_>) -> usize
    ensures some { 0 < result }
    ensures room { result * (how_many (in_set arrows.now.sets.now 0) 256 + 1) ≤ 1024 }
{
    let columns = compact::rank(arrows.sets, words::State(0), 256) + 1;
    (arrows.m + 1).min(ENTRIES / columns)
}

// A column of so many rows for each letter on which an arrow leaves state 0, one behind the other. All other letters share the one at 0,
// which stays empty: they have no arrow from any state.
fn lay_columns(
    arrows: &compact::Rows<'_>,
    rows: usize,
    column: &mut [u16; 256],
    dense: &mut [u16; ENTRIES],
)
    requires room { rows * (how_many (in_set arrows.now.sets.now 0) 256 + 1) ≤ 1024 }
    requires zeros { Zeros 256 column.old × Untold 1024 dense.old }
    ensures { FewStates (arrow_of arrows.now) column.new dense.new rows }
{
    let mut next = rows;
    for i in 0..256 {
        let c = words::Letter(i as u8);
        if arrows.has_arrow(words::State(0), c) {
            column[i] = next as u16;
            fill_column(arrows, c, &mut dense[next..next + rows]);
            next += rows;
        }
    }
}

// The first entry of each letter's column.
fn fill_first(column: &[u16; 256], dense: &[u16; ENTRIES], first: &mut [u16; 256])
    requires by_index { (c : ℕ) → c < 256 → at column.now c < length dense.now }
    ensures { FirstEntries column.now dense.now first.new 256 }
{
    for (c, entry) in first.iter_mut().enumerate() {
        *entry = dense[column[c] as usize];
    }
}

// The columns of compact rows, and the arrows of state 0 by letter: entries, as an Option of a state would take twice the stack.
#[derive(Drop)]
struct Prepared<'a, 'r> {
    columns: prepared::Columns<'a, compact::Rows<'r>>,
    first: &'a [u16; 256],
    ghost firsts: { FirstTargets (arrow_of columns.arrows.now) columns.arrows.now.m first.now },
}

impl<'a, 'r> Prepared<'a, 'r> {
    // Prepares them, in arrays that are empty.
    fn new(
        arrows: &'a compact::Rows<'r>,
        first: &'a mut [u16; 256],
        column: &'a mut [u16; 256],
        dense: &'a mut [u16; ENTRIES],
    ) -> Self
        requires { Zeros 256 column.old × Untold 1024 dense.old }
        ensures { result.columns.arrows.now ≡ arrows.now }
    {
        let rows = rows_for(arrows);
        lay_columns(arrows, rows, column, dense);
        fill_first(column, dense, first);
        let columns = prepared::Columns {
            arrows,
            column,
            dense,
            rows,
        };
        Prepared { columns, first }
    }
}

impl<'a, 'r> prepared::Starts for Prepared<'a, 'r> {
    ghost arrow = { λ p. arrow_of p.columns.arrows.now };

    fn first(&self, c: words::Letter) -> Option<words::State> {
        prepared::tell(self.first[c.0 as usize])
    }

    fn may_follow(&self, _c: words::Letter, x: words::State, d: words::Letter) -> bool {
        self.columns.arrows.has_arrow(x, d)
    }
}

// Moves the window over a text that is long beside the word, once the arrows of the first states are prepared.
fn scan_long(
    arrows: &compact::Rows<'_>,
    sought: &search::Sought<'_>,
    text: &[u8],
    finds: &mut [u32],
) -> finds::Tally
    requires { (2 ≤ length sought.now.word.now) × (length text.now < 4294967295) }
    ensures tally { result ≡ tally_of (steps (arrow_of arrows.now) sought.now.word.now text.now) }
    ensures finds { finds.new ≡ filled (steps (arrow_of arrows.now) sought.now.word.now text.now).starts finds.old }
{
    let mut first = [0u16; 256];
    let mut column = [0u16; 256];
    let mut dense = [prepared::NOTHING; ENTRIES];
    // Copies, so that the compiler keeps what is asked in registers.
    let arrows = *arrows;
    let sought = *sought;
    let ready = Prepared::new(&arrows, &mut first, &mut column, &mut dense);
    search::windows_prepared(&ready.columns, &ready, &sought, text, finds)
}

// Moves the window over the text, with the arrows that are read from compact rows.
pub fn scan(
    arrows: &compact::Rows<'_>,
    sought: &search::Sought<'_>,
    text: &[u8],
    finds: &mut [u32],
) -> finds::Tally
    requires { length text.now < 4294967295 }
    ensures tally { result ≡ tally_of (steps (arrow_of arrows.now) sought.now.word.now text.now) }
    ensures finds { finds.new ≡ filled (steps (arrow_of arrows.now) sought.now.word.now text.now).starts finds.old }
{
    let m = sought.word.len();
    if 2 <= m && m <= text.len() / LETTERS_FOR_EACH {
        return scan_long(arrows, sought, text, finds);
    }
    search::windows(arrows, sought, text, finds)
}
