// What a search prepares of a table before its windows, in arrays that it lends: `first`, the arrows of state 0 by letter; `flags`, whether
// any arrow can follow those on a letter; and `dense`, a column of arrows for each letter, one for each of the first states, with
// `column`, where a letter's column starts. Letters that the word has not share the column at 0, which stays empty. All of it is filled
// from the arrows, in time linear in m. Serves the searches.
#![tactic(auto)]

ghost use Rattle.std.specs.Prelude.{◌≡◌, ◌≢◌, true, false, ℕ, ◌<◌, ◌≤◌, length, IfSome};
ghost use Rattle.std.proofs.Math.Option.{Option, none, some};
ghost use Rattle.words.specs.Lists.{at};
ghost use Rattle.words.specs.Answers.{arrow_to};
ghost use Rattle.table.specs.Table.{read_arrow};
ghost use Rattle.prepared.specs.Prepared.{told, FewStates, Firsts, Followers, Rows};
ghost use Rattle.prepared.specs.Filling.{Zeros, Empty, Apart, Put, PutState, Copied, Marked, MarkedState};

// The entry that tells no arrow: a number, as an `Option<u16>` is twice as wide, and the columns would take 64 KB of stack and cache.
pub const NOTHING: u16 = 65535;

// How many entries all columns have together.
pub const ENTRIES: usize = 16384;

// How many flags there are.
pub const FLAGS: usize = 8192;

// The longest word that is short.
const SHORT_WORD: usize = 16;

// How long a text has to be for a short word, ..
const LONG_TEXT: usize = 8192;

// .. and for each letter of a longer one.
const LETTERS_FOR_EACH: usize = 512;

// Whether a text of n letters repays preparing for a short word, of m letters but not fewer than some: where the text is long.
pub fn repays_short(least: usize, m: usize, n: usize) -> bool
    ensures { result ≡ true → least ≤ m }
{
    least <= m && m <= SHORT_WORD && LONG_TEXT <= n
}

// The same for a longer word: where it has windows enough.
pub fn repays_long(m: usize, n: usize) -> bool
    ensures { result ≡ true → 2 ≤ m }
{
    SHORT_WORD < m && m <= n / LETTERS_FOR_EACH
}

// For how many states there is room, with a column for each letter on which an arrow leaves state 0, and the empty one.
fn rows_for(table: &table::Table<'_>) -> usize
    ensures { result ≤ 16384 }
{
    let n = table.m + 1;
    let columns = table.entries[2 * n + 1] as usize + 2;
    n.min(ENTRIES / columns)
}

// A column of so many rows for each letter of the word in row 0, as long as there is room.
fn lay_out(table: &table::Table<'_>, rows: usize, column: &mut [u16; 256])
    requires rows_in_bounds { rows ≤ 16384 }
    requires zeros { Zeros 256 column.old }
    ensures { Apart column.new rows 16384 }
{
    let mut next = rows;
    for &letter in &table.entries[1..=table.m] {
        let c = (letter % 256) as usize;
        if column[c] == 0 {
            if ENTRIES - next < rows {
                return;
            }
            column[c] = next as u16;
            next += rows;
        }
    }
}

// Columns of so many rows that are laid out, and where each letter's starts.
#[derive(Clone, Copy)]
struct Layout<'a> {
    column: &'a [u16; 256],
    rows: usize,
    ghost few: { rows ≤ 16384 },
    ghost apart: { Apart column.now rows 16384 },
}

// A letter has no column.
#[derive(Clone, Copy, Debug, PartialEq, Eq)]
struct NoColumn;

impl<'a> Layout<'a> {
    // The arrow from x to y, in the column of y's letter, over what stood there. A letter that is no byte needs none.
    fn put(
        &self,
        table: &table::Table<'_>,
        x: words::State,
        y: words::State,
        dense: &mut [u16; ENTRIES],
    ) -> Result<(), NoColumn>
        requires { (x.0 < self.now.rows) × (y.0 ≤ table.now.m) }
        ensures { Put table.now.entries.now self.now.column.now self.now.rows dense.old x.0 y.0 dense.new result }
    {
        let d = table.entries[y.0 as usize] as usize;
        if 255 < d {
            return Ok(());
        }
        let start = self.column[d] as usize;
        let none = 0;
        if start == none {
            return Err(NoColumn);
        }
        dense[start + (x.0 as usize)] = y.0;
        Ok(())
    }

    // The arrows of x, from the last to the first, so that the first on a letter stays.
    fn put_state(
        &self,
        table: &table::Table<'_>,
        x: words::State,
        dense: &mut [u16; ENTRIES],
    ) -> Result<(), NoColumn>
        requires { x.0 < self.now.rows }
        ensures { PutState table.now.entries.now table.now.m self.now.column.now self.now.rows dense.old x.0 dense.new result }
    {
        let n = table.m + 1;
        let from = x.0 as usize;
        if table.m <= from {
            return Ok(());
        }
        let start = table.entries[2 * n + from] as usize;
        let end = table.entries[2 * n + from + 1] as usize;
        for s in (start..end).rev() {
            let y = table.entries[3 * n + s];
            self.put(table, x, words::State(y), dense)?;
        }
        let own = (from + 1) as u16;
        self.put(table, x, words::State(own), dense)
    }

    // The arrows of the first states, up to one that has a letter without a column; the answer is how many states these are.
    fn fill(&self, table: &table::Table<'_>, dense: &mut [u16; ENTRIES]) -> usize
        requires { Empty dense.old }
        ensures { Rows table.now.entries.now table.now.m self.now.column.now dense.new result }
    {
        for x in 0..self.rows {
            if self
                .put_state(table, words::State(x as u16), dense)
                .is_err()
            {
                return x;
            }
        }
        self.rows
    }
}

// What an entry tells.
pub fn tell(entry: u16) -> Option<words::State>
    ensures arrow { result ≡ arrow_to (told entry) }
    ensures small { IfSome result (λ x. x.0 < 65535) }
{
    if entry == NOTHING {
        return None;
    }
    Some(words::State(entry))
}

// Where each letter leads from state 0: what the first entry of its column tells.
pub fn firsts(column: &[u16; 256], dense: &[u16], first: &mut [Option<words::State>; 256])
    requires by_index { (c : ℕ) → c < 256 → at column.now c < length dense.now }
    ensures { Copied column.now dense.now first.new 256 }
{
    for (c, entry) in first.iter_mut().enumerate() {
        *entry = tell(dense[column[c] as usize]);
    }
}

// The flag for d behind c. What is no byte needs none.
fn mark(flags: &mut [bool; FLAGS], c: words::Letter, d: u16)
    ensures { Marked flags.old c.0 d flags.new }
{
    let letter = d as usize;
    if 255 < letter {
        return;
    }
    flags[31 * (c.0 as usize) + letter] = true;
}

// The flags behind c for all letters on which an arrow leaves x.
fn mark_state(
    table: &table::Table<'_>,
    x: words::State,
    flags: &mut [bool; FLAGS],
    c: words::Letter,
)
    requires { x.0 < table.now.m }
    ensures { MarkedState table.now.entries.now table.now.m x.0 flags.old c.0 flags.new }
{
    let n = table.m + 1;
    let from = x.0 as usize;
    let own = table.entries[from + 1];
    mark(flags, c, own);
    let start = table.entries[2 * n + from] as usize;
    let end = table.entries[2 * n + from + 1] as usize;
    for s in start..end {
        let y = table.entries[3 * n + s] as usize;
        mark(flags, c, table.entries[y]);
    }
}

// The flags behind each letter, for the state to which it leads from state 0.
fn followers(
    table: &table::Table<'_>,
    first: &[Option<words::State>; 256],
    flags: &mut [bool; FLAGS],
)
    requires { Firsts table.now.entries.now table.now.m first.now }
    ensures { Followers table.now.entries.now table.now.m flags.new }
{
    for (c, &leads) in first.iter().enumerate() {
        let Some(x) = leads else {
            continue;
        };
        if (x.0 as usize) < table.m {
            mark_state(table, x, flags, words::Letter(c as u8));
        }
    }
}

// Arrows, and what is prepared of them for the first states: a column of entries for each letter.
#[derive(Drop)]
pub struct Columns<'a, A: words::Arrows> {
    pub arrows: &'a A,
    pub column: &'a [u16; 256],
    pub dense: &'a [u16],
    pub rows: usize,
    ghost told: { FewStates (A.arrow arrows.now) column.now dense.now rows },
}

impl<'a, A: words::Arrows> Columns<'a, A> {
    // Of no state.
    pub fn none(arrows: &'a A) -> Self
        ensures { (result.arrows.now ≡ arrows.now) × (result.rows ≡ 0) }
    {
        Columns {
            arrows,
            column: &[0; 256],
            dense: &[],
            rows: 0,
        }
    }
}

// Prepares the columns of a table, in arrays that are empty. Inlined, so that the compiler sees that the arrays are the caller's own.
#[inline(always)]
pub fn prepare_columns<'a, 't>(
    table: &'a table::Table<'t>,
    column: &'a mut [u16; 256],
    dense: &'a mut [u16; ENTRIES],
) -> Columns<'a, table::Table<'t>>
    requires zeros { Zeros 256 column.old × Empty dense.old }
    ensures { result.arrows.now ≡ table.now }
{
    let rows = rows_for(table);
    lay_out(table, rows, column);
    let layout = Layout { column, rows };
    let rows = layout.fill(table, dense);
    Columns {
        arrows: table,
        column,
        dense,
        rows,
    }
}

// The columns of a table, and what is asked at the start of a window.
#[derive(Drop)]
pub struct Prepared<'a, 't> {
    pub columns: Columns<'a, table::Table<'t>>,
    pub first: &'a [Option<words::State>; 256],
    pub flags: &'a [bool; FLAGS],
    ghost firsts: { Firsts columns.arrows.now.entries.now columns.arrows.now.m first.now },
    ghost followers: { Followers columns.arrows.now.entries.now columns.arrows.now.m flags.now },
}

impl<'a, 't> Prepared<'a, 't> {
    // Prepares what is asked at the start of a window, from the columns.
    pub fn new(
        columns: Columns<'a, table::Table<'t>>,
        first: &'a mut [Option<words::State>; 256],
        flags: &'a mut [bool; FLAGS],
    ) -> Self
        requires { 0 < columns.rows }
        ensures { result.columns ≡ columns.entry }
    {
        firsts(columns.column, columns.dense, first);
        followers(columns.arrows, first, flags);
        Prepared {
            columns,
            first,
            flags,
        }
    }
}

// What is told of arrows at the start of a window.
pub trait Starts {
    ghost arrow: { Self → ℕ → ℕ → Option ℕ };

    // Where c leads from state 0.
    fn first(&self, c: words::Letter) -> Option<words::State>
        ensures arrow { result ≡ arrow_to (arrow self.now 0 c.0) }
        ensures small { IfSome result (λ x. x.0 < 65535) };

    // False only where no arrow on d leaves x, to which c leads from state 0.
    fn may_follow(&self, c: words::Letter, x: words::State, d: words::Letter) -> bool
        requires { arrow self.now 0 c.0 ≡ some x.0 }
        ensures { result ≡ false → arrow self.now x.0 d.0 ≡ none };
}

impl<'a, 't> Starts for Prepared<'a, 't> {
    ghost arrow = { λ p. read_arrow p.columns.arrows.now.m p.columns.arrows.now.entries.now };

    fn first(&self, c: words::Letter) -> Option<words::State> {
        self.first[c.0 as usize]
    }

    fn may_follow(&self, c: words::Letter, _x: words::State, d: words::Letter) -> bool {
        self.flags[31 * (c.0 as usize) + (d.0 as usize)]
    }
}
