// The table of a storacle, filled from a word. Serves the entry above. As the rule goes, suffix after suffix is walked, and an arrow is
// added where one lacks; but the walk goes on from there, as it would come there again.
// The slice and its size go side by side: no fact on its entries holds at every write.
#![tactic(auto)]

ghost use Rattle.std.specs.Prelude.{◌≡◌, ◌+◌, ◌≤◌, ◌<◌, length};
ghost use Rattle.oracle.specs.Arrows.{spine};
ghost use Rattle.table.specs.Table.{read_word};
ghost use Rattle.storacle_table.specs.StoracleTable.{storacle_room, cell_of, blank, storacle_table_from, storacle_table};
ghost use Rattle.storacle_table.specs.Building.{word_put, FirstAlike, Sized, TableAfter};

// Of the entries of row 0 behind x, the first that is as entry y is: the first state behind x that has the letter of state y.
fn first_alike(table: &[u16], x: usize, y: usize) -> usize
    requires { (x < y) × (y < length table.now) }
    ensures { FirstAlike table.now x y result }
{
    for z in x + 1..y {
        if table[z] == table[y] {
            return z;
        }
    }
    y
}

// The entry of the arrow from state x on the letter of a column.
fn cell(m: usize, x: words::State, column: usize) -> usize
    requires { (m < 65535) × (x.0 ≤ m) × (column ≤ m) }
    ensures { result ≡ cell_of m x.0 column }
{
    (2 + (x.0 as usize)) * (m + 1) + column
}

// The columns of the word's letters.
fn put_columns(table: &mut [u16], m: usize)
    requires { Sized (read_word m table.old) m × (table.old ≡ word_put (read_word m table.old)) }
    ensures { table.new ≡ blank (read_word m table.old) }
{
    for i in 1..=m {
        table[m + 1 + i] = first_alike(table, 0, i) as u16;
    }
}

// The arrows of the spine, from the last to the first.
fn put_spine(table: &mut [u16], m: usize)
    requires { Sized (read_word m table.old) m × (table.old ≡ blank (read_word m table.old)) }
    ensures { table.new ≡ storacle_table_from (read_word m table.old) (spine (read_word m table.old)) }
{
    for x in (0..m).rev() {
        let next = x + 1;
        let column = table[m + 1 + next] as usize;
        table[cell(m, words::State(x as u16), column)] = next as u16;
    }
}

// Walks the suffix behind the first i + 1 letters, and adds the arrows that it lacks. An entry of 0 is no arrow: docs/TABLE.md fixes that.
fn add_suffix(table: &mut [u16], m: usize, i: usize)
    requires { TableAfter (read_word m table.old) m table.old i × (i + 1 < m) }
    ensures { TableAfter (read_word m table.old) m table.new (i + 1) }
{
    let mut x = words::State(0);
    for k in i + 1..m {
        let column = table[m + 1 + k + 1] as usize;
        let place = cell(m, x, column);
        let mut y = table[place];
        if y == 0 {
            y = first_alike(table, x.0 as usize, k + 1) as u16;
            table[place] = y;
        }
        x = words::State(y);
    }
}

// The table of the word that stands in row 0.
fn finish(table: &mut [u16], m: usize)
    requires { TableAfter (read_word m table.old) m table.old 0 }
    ensures { table.new ≡ storacle_table (read_word m table.old) }
{
    for i in 0..m - 1 {
        add_suffix(table, m, i);
    }
}

// The table of a word.
pub fn fill(word: &[u8], table: &mut [u16])
    requires { (1 ≤ length word.now) × (length word.now < 65535) × (length table.old ≡ storacle_room (length word.now)) }
    ensures { table.new ≡ storacle_table word.now }
{
    let m = word.len();
    table.fill(0);
    rows::widen(word, &mut table[1..=m]);
    put_columns(table, m);
    put_spine(table, m);
    finish(table, m);
}
