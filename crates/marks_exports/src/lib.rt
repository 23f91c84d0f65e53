// What C links to: the entries of marks_c under their names, each with the clauses of the entry that it calls. A crate is a library or a
// static library, so these stand in a crate of their own.
#![tactic(auto)]

ghost use Rattle.std.specs.Prelude.{◌≡◌};
ghost use Rattle.marks_c.specs.Calls.{build_call, build_call_says, save_call, save_call_says, save_checked_call_says};
ghost use Rattle.marks_c.specs.Calls.{load_call, load_call_says, search_call, search_call_says, turbo_call_says};
ghost use Rattle.marks_c.specs.Calls.{search_file_call, search_file_call_says};
ghost use Rattle.marks_c.specs.FailureCalls.{failure_build_call_says};
ghost use Rattle.marks_c.specs.FailureCalls.{failure_search_call, failure_search_call_says};
ghost use Rattle.marks_c.specs.StoracleCalls.{storacle_build_call_says};
ghost use Rattle.marks_c.specs.CompactCalls.{compact_build_call, compact_build_call_says, compact_search_call, compact_search_call_says};
ghost use Rattle.marks_c.specs.SalvageCalls.{salvage_call, salvage_call_says};
ghost use Rattle.marks_c.specs.Streams.{open_call, open_call_says, take_call, take_call_says};

#[unsafe(no_mangle)]
pub extern "C" fn marks_build(word: &[u8], tables: &mut [u16], m: &mut u64) -> u32
    ensures { build_call result tables.new m.new
        ≡ build_call_says word.now tables.old m.old }
{
    marks_c::marks_build(word, tables, m)
}

#[unsafe(no_mangle)]
pub extern "C" fn marks_save(
    word: &[u8],
    tables: &mut [u16],
    out: &mut [u8],
    length: &mut u64,
) -> u32
    ensures { save_call result tables.new out.new length.new
        ≡ save_call_says word.now tables.old out.old length.old }
{
    marks_c::marks_save(word, tables, out, length)
}

#[unsafe(no_mangle)]
pub extern "C" fn marks_save_checked(
    word: &[u8],
    tables: &mut [u16],
    out: &mut [u8],
    length: &mut u64,
) -> u32
    ensures { save_call result tables.new out.new length.new
        ≡ save_checked_call_says word.now tables.old out.old length.old }
{
    marks_c::marks_save_checked(word, tables, out, length)
}

#[unsafe(no_mangle)]
pub extern "C" fn marks_load(
    file: &[u8],
    room: &mut [u8],
    tables: &mut [u16],
    m: &mut u64,
    offset: &mut u64,
) -> u32
    ensures { load_call result room.new tables.new m.new offset.new
        ≡ load_call_says file.now room.old tables.old m.old offset.old }
{
    marks_c::marks_load(file, room, tables, m, offset)
}

#[unsafe(no_mangle)]
pub extern "C" fn marks_search(
    word: &[u8],
    text: &[u8],
    tables: &mut [u16],
    finds: &mut [u32],
    count: &mut u64,
    letters: &mut u64,
) -> u32
    ensures { search_call result tables.new finds.new count.new letters.new
        ≡ search_call_says word.now text.now tables.old finds.old
        count.old letters.old }
{
    marks_c::marks_search(word, text, tables, finds, count, letters)
}

#[unsafe(no_mangle)]
pub extern "C" fn marks_turbo(
    word: &[u8],
    text: &[u8],
    tables: &mut [u16],
    finds: &mut [u32],
    count: &mut u64,
    letters: &mut u64,
) -> u32
    ensures { search_call result tables.new finds.new count.new letters.new
        ≡ turbo_call_says word.now text.now tables.old finds.old
        count.old letters.old }
{
    marks_c::marks_turbo(word, text, tables, finds, count, letters)
}

#[unsafe(no_mangle)]
pub extern "C" fn marks_failure_build(word: &[u8], tables: &mut [u16], m: &mut u64) -> u32
    ensures { build_call result tables.new m.new
        ≡ failure_build_call_says word.now tables.old m.old }
{
    marks_c::marks_failure_build(word, tables, m)
}

#[unsafe(no_mangle)]
pub extern "C" fn marks_failure_search(
    word: &[u8],
    text: &[u8],
    tables: &mut [u16],
    finds: &mut [u32],
    count: &mut u64,
    letters: &mut u64,
    failures: &mut u64,
) -> u32
    ensures { failure_search_call result tables.new finds.new count.new letters.new
        failures.new
        ≡ failure_search_call_says word.now text.now tables.old finds.old
        count.old letters.old failures.old }
{
    marks_c::marks_failure_search(word, text, tables, finds, count, letters, failures)
}

#[unsafe(no_mangle)]
pub extern "C" fn marks_storacle_build(word: &[u8], tables: &mut [u16], m: &mut u64) -> u32
    ensures { build_call result tables.new m.new
        ≡ storacle_build_call_says word.now tables.old m.old }
{
    marks_c::marks_storacle_build(word, tables, m)
}

#[unsafe(no_mangle)]
pub extern "C" fn marks_compact_build(
    word: &[u8],
    sets: &mut [u64],
    targets: &mut [u16],
    m: &mut u64,
) -> u32
    ensures { compact_build_call result sets.new targets.new m.new
        ≡ compact_build_call_says word.now sets.old targets.old m.old }
{
    marks_c::marks_compact_build(word, sets, targets, m)
}

#[unsafe(no_mangle)]
pub extern "C" fn marks_compact_search(
    word: &[u8],
    text: &[u8],
    sets: &mut [u64],
    targets: &mut [u16],
    finds: &mut [u32],
    count: &mut u64,
    letters: &mut u64,
) -> u32
    ensures { compact_search_call result sets.new targets.new finds.new count.new
        letters.new
        ≡ compact_search_call_says word.now text.now sets.old targets.old
        finds.old count.old letters.old }
{
    marks_c::marks_compact_search(word, text, sets, targets, finds, count, letters)
}

#[unsafe(no_mangle)]
pub extern "C" fn marks_salvage(
    text: &[u8],
    tables: &mut [u16],
    starts: &mut [u32],
    kinds: &mut [u8],
    count: &mut u64,
) -> u32
    ensures { salvage_call result tables.new starts.new kinds.new count.new
        ≡ salvage_call_says text.now tables.old starts.old kinds.old count.old }
{
    marks_c::marks_salvage(text, tables, starts, kinds, count)
}

#[unsafe(no_mangle)]
pub extern "C" fn marks_search_file(
    file: &[u8],
    text: &[u8],
    room: &mut [u8],
    tables: &mut [u16],
    finds: &mut [u32],
    count: &mut u64,
    letters: &mut u64,
    offset: &mut u64,
) -> u32
    ensures { search_file_call result room.new tables.new finds.new count.new letters.new
        offset.new
        ≡ search_file_call_says file.now text.now room.old tables.old finds.old
        count.old letters.old offset.old }
{
    marks_c::marks_search_file(file, text, room, tables, finds, count, letters, offset)
}

#[unsafe(no_mangle)]
pub extern "C" fn marks_open(word: &[u8], searcher: &mut [u8]) -> u32
    ensures { open_call result searcher.new ≡ open_call_says word.now searcher.old }
{
    marks_c::marks_open(word, searcher)
}

#[unsafe(no_mangle)]
pub extern "C" fn marks_take(
    searcher: &mut [u8],
    piece: &[u8],
    finds: &mut [u32],
    count: &mut u64,
) -> u32
    ensures { take_call result searcher.new finds.new count.new
        ≡ take_call_says searcher.old piece.now finds.old count.old }
{
    marks_c::marks_take(searcher, piece, finds, count)
}
