// The backward search over the table of a failure oracle: a window's letters are read by both kinds of arrow, and reading all of them is no
// find by itself, so the word is compared. Serves the entries.
#![tactic(auto)]

ghost use Rattle.std.specs.Prelude.{◌≡◌, ◌+◌, ◌-◌, ◌<◌, ◌≤◌, length, None, IsSome, slice_index_or};
ghost use Rattle.words.specs.Words.{letter};
ghost use Rattle.finds.specs.Finds.{filled};
ghost use Rattle.failure.specs.FailureSteps.{read_both, failure_steps_with};
ghost use Rattle.failure_table.specs.Asked.{ask_of};
ghost use Rattle.failure_search.specs.Tallies.{counted_read_of, failure_tally_of};
ghost use Rattle.failure_search.specs.Memory.{TellsFirst, Remembers};

// How a window was read, and the failure arrows taken in it.
#[derive(Clone, Copy)]
pub struct CountedRead {
    pub how: Option<words::Place>,
    pub failures: u64,
}

// How often a word was found, how many letters were read for it and how many failure arrows taken.
#[derive(Clone, Copy, Debug, PartialEq, Eq)]
pub struct FailureTally {
    pub count: usize,
    pub letters: u64,
    pub failures: u64,
}

// Where a letter leads from state 0, and the failure arrows taken.
#[derive(Clone, Copy)]
pub struct First {
    pub leads: Option<words::State>,
    pub taken: u16,
}

// Asks the table where a letter leads from state 0, and remembers it. Not inlined, as each letter is asked for once, so that the windows
// have the registers to themselves.
#[inline(never)]
fn remember(
    table: &failure_table::FailureTable<'_>,
    told: &mut [Option<First>; 256],
    c: words::Letter,
)
    requires { Remembers (ask_of table.now) told.old }
    ensures told { Remembers (ask_of table.now) told.new }
    ensures there { IsSome (slice_index_or told.new c.0 None) }
{
    let a = table.ask(words::State(0), c);
    told[c.0 as usize] = Some(First {
        leads: a.leads,
        taken: a.taken as u16,
    });
}

// Where a letter leads from state 0, with which a window begins.
fn ask_first(
    table: &failure_table::FailureTable<'_>,
    told: &mut [Option<First>; 256],
    c: words::Letter,
) -> First
    requires { Remembers (ask_of table.now) told.old }
    ensures first { TellsFirst (ask_of table.now) c.0 result }
    ensures told { Remembers (ask_of table.now) told.new }
{
    let on = c.0 as usize;
    if let Some(known) = told[on] {
        return known;
    }
    remember(table, told, c);
    told[on].unwrap_or(First {
        leads: None,
        taken: 0,
    })
}

// Reads the window at s from its last letter to its first, once it is known where the last one leads; the loop counts down and breaks
// with how that went, which form 01 fixes for reading a window.
fn read_window(
    table: &failure_table::FailureTable<'_>,
    text: &[u8],
    s: words::Place,
    first: First,
) -> CountedRead
    requires inside { (1 ≤ table.now.m) × (s.0 + table.now.m ≤ length text.now) × (length text.now < 4294967295) }
    requires told { TellsFirst (ask_of table.now) (letter text.now (s.0 + (table.now.m - 1))) first }
    ensures { result ≡ counted_read_of (read_both (ask_of table.now) text.now s.0 table.now.m 0) }
{
    let start = s.0 as usize;
    let mut left = table.m - 1;
    let mut leads = first.leads;
    let mut failures = first.taken as u64;
    loop {
        let Some(x) = leads else {
            let f = (start + left) as u32;
            break CountedRead {
                how: Some(words::Place(f)),
                failures,
            };
        };
        if left == 0 {
            break CountedRead {
                how: None,
                failures,
            };
        }
        left -= 1;
        let a = table.ask(x, words::Letter(text[start + left]));
        failures += a.taken as u64;
        leads = a.leads;
    }
}

// Moves the window over the text. One that is read whole is a find only where the word stands, and else moves by one place. Not inlined,
// so that the loop has the registers to itself.
#[inline(never)]
pub fn scan(
    table: &failure_table::FailureTable<'_>,
    sought: &search::Sought<'_>,
    text: &[u8],
    finds: &mut [u32],
) -> FailureTally
    requires { (table.now.m ≡ length sought.now.word.now) × (length text.now < 4294967295) }
    ensures tally { result ≡ failure_tally_of
        (failure_steps_with (ask_of table.now) sought.now.word.now text.now) }
    ensures finds { finds.new ≡ filled
        (failure_steps_with (ask_of table.now) sought.now.word.now text.now).starts
        finds.old }
{
    // Copies, so that the compiler keeps what is asked in registers.
    let table = *table;
    let sought = *sought;
    let mut told = [None; 256];
    let m = sought.word.len();
    let mut s = words::Place(0);
    let mut count = 0;
    let mut letters = 0;
    let mut failures = 0;
    'window: while s.0 as usize + m <= text.len() {
        let start = s.0 as usize;
        let end = start + m;
        let first = ask_first(&table, &mut told, words::Letter(text[end - 1]));
        let read = read_window(&table, text, s, first);
        failures += read.failures;
        let Some(f) = read.how else {
            letters += m as u64;
            let step = if &text[start..end] == sought.word {
                count = finds::note(finds, count, s);
                sought.step
            } else {
                1
            };
            s = words::Place((start + step) as u32);
            continue 'window;
        };
        letters += (end - f.0 as usize) as u64;
        s = words::Place(f.0 + 1);
    }
    FailureTally {
        count,
        letters,
        failures,
    }
}
