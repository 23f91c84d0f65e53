// The table of an oracle while letters are added: six rows of n entries, of which this room fills four. Row 0 holds the letters from the
// start, row 1 gets the supplies, and each state's extra arrows are a chain of slots, newest first: row 2 has a state's first slot, row 4
// the next slot, row 5 the target. Serves the table's room, which lays the chains out.
// The table and n go side by side: the caller's fixed memory is lent by `&mut`, and no fact on its entries holds at every write. A slot of
// 0 is none: docs/TABLE.md fixes the rows.
#![tactic(auto)]

ghost use Rattle.std.specs.Prelude.{◌≡◌, ◌+◌, ◌*◌, ◌<◌, ◌≤◌, length};
ghost use Rattle.words.specs.Lists.{at};
ghost use Rattle.words.specs.Answers.{supply_of};
ghost use Rattle.chains.specs.Chains.{supply_in, Chained, Looks, pushed};
ghost use Rattle.chains.specs.Letters.{Climbing, ClimbSays, Begun, Added, Blank, ChainsOf};

use std::ops::ControlFlow;

// A walk takes so many states at most in one go: its stack does not grow with the word.
const STATES_IN_ONE_GO: usize = 64;

// The last slot that is used, and where the walk is: over, with the new state's supply, or resting at a state.
#[derive(Clone, Copy, Debug, PartialEq, Eq)]
struct Climbed {
    slot: u16,
    walk: ControlFlow<words::State, words::State>,
}

fn supply_at(table: &[u16], n: usize, x: words::State) -> Option<words::State>
    requires { (x.0 < n) × (2 * n ≤ length table.now) }
    ensures { result ≡ supply_of (supply_in table.now n x.0) }
{
    let of = x.0 as usize;
    if of == 0 {
        return None;
    }
    Some(words::State(table[n + of]))
}

// The arrow from x on c, where t is the last state and x another; that from state 0 is known.
fn look(
    table: &[u16],
    n: usize,
    t: words::State,
    zero: Option<words::State>,
    x: words::State,
    c: words::Letter,
) -> Option<words::State>
    requires n_bound { (n ≤ 65536) × (t.0 < n) × (x.0 < t.0) }
    requires chained { Chained table.now n × Looks table.now n t.0 0 c.0 zero }
    ensures { Looks table.now n t.0 x.0 c.0 result }
{
    let from = x.0 as usize;
    let on = c.0 as u16;
    if from == 0 {
        return zero;
    }
    if table[from + 1] == on {
        return Some(words::State((from + 1) as u16));
    }
    let mut slot = table[2 * n + from] as usize;
    while slot != 0 {
        let y = table[5 * n + slot];
        let at = y as usize;
        if table[at] == on {
            return Some(words::State(y));
        }
        slot = table[4 * n + slot] as usize;
    }
    None
}

// An extra arrow from x to y, in the slot behind the used ones.
fn push(table: &mut [u16], n: usize, used: usize, x: words::State, y: words::State)
    requires n_bound { n ≤ 65536 }
    requires used_bound { (used + 1 < n) × (x.0 < n) × (6 * n ≤ length table.old) }
    ensures { table.new ≡ pushed table.old n used x.0 y.0 }
{
    let from = x.0 as usize;
    let first = table[2 * n + from];
    let slot = used + 1;
    table[5 * n + slot] = y.0;
    table[4 * n + slot] = first;
    table[2 * n + from] = slot as u16;
}

// From k, which has no arrow on c, down the suffix path to the first state that has one, or past its end: each state without one gets an
// arrow to t + 1. Takes `left` states at most, and rests at the next where it has no arrow either.
fn climb(
    table: &mut [u16],
    n: usize,
    t: words::State,
    used: usize,
    zero: Option<words::State>,
    c: words::Letter,
    k: words::State,
    left: usize,
) -> Climbed
    requires n_bound { n ≤ 65536 }
    requires climbing { Climbing n t.0 c.0 zero table.old used k.0 }
    ensures { ClimbSays n t.0 c.0 zero table.old used k.0 table.new result.slot result.walk }
{
    let next = supply_at(table, n, k);
    push(table, n, used, k, words::State(t.0 + 1));
    let slot = (used + 1) as u16;
    let Some(s) = next else {
        return Climbed {
            slot,
            walk: ControlFlow::Break(words::State(0)),
        };
    };
    let found = look(table, n, t, zero, s, c);
    let Some(y) = found else {
        if left <= 1 {
            return Climbed {
                slot,
                walk: ControlFlow::Continue(s),
            };
        }
        return climb(table, n, t, used + 1, zero, c, s, left - 1);
    };
    Climbed {
        slot,
        walk: ControlFlow::Break(y),
    }
}

// State t + 1, with the letter that stands in row 0; the arrow from state 0 on it is known. A letter that finds an arrow at once climbs
// nowhere, which saves the call.
fn add_letter(
    table: &mut [u16],
    n: usize,
    t: words::State,
    used: usize,
    zero: Option<words::State>,
) -> usize
    requires n_bound { n ≤ 65536 }
    requires begun { Begun table.old n t.0 used × Looks table.old n t.0 0 (at table.old (t.0 + 1)) zero }
    ensures { Added n t.0 table.old used table.new result }
{
    let supply = supply_at(table, n, t);
    let Some(k) = supply else {
        return used;
    };
    let added = t.0 as usize + 1;
    let c = words::Letter((table[added] % 256) as u8);
    let found = look(table, n, t, zero, k, c);
    if let Some(y) = found {
        table[n + added] = y.0;
        return used;
    }
    let mut from = k;
    let mut so_far = used;
    loop {
        let climbed = climb(table, n, t, so_far, zero, c, from, STATES_IN_ONE_GO);
        so_far = climbed.slot as usize;
        match climbed.walk {
            ControlFlow::Break(s) => {
                table[n + added] = s.0;
                return so_far;
            }
            ControlFlow::Continue(there) => from = there,
        }
    }
}

// The chains and supplies of the word in row 0; the answer is how many slots are used.
pub fn add_letters(table: &mut [u16], m: usize) -> usize
    requires m_bound { m < 65535 }
    requires blank { Blank table.old m }
    ensures { ChainsOf table.old m table.new result }
{
    let n = m + 1;
    // State 0 may have an arrow on every letter, so its arrows are told by the first state that has the letter.
    let mut firsts = [None; 256];
    let mut used = 0;
    for t in 0..m {
        let c = (table[t + 1] % 256) as usize;
        let first = firsts[c];
        used = add_letter(table, n, words::State(t as u16), used, first);
        firsts[c] = first.or(Some(words::State((t + 1) as u16)));
    }
    used
}
