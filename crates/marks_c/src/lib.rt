// The entries by numbers and slices alone, as C has them: a slice is a pointer and a length there. Each returns 0 and writes its answers
// through the last pointers, or returns the refusal's number and leaves those pointers alone, but for the offset where the refusal has one,
// which nothing else writes. There is no state and no heap, so calls on buffers of their own may run at the same time. C links to
// marks_exports, which calls these.
#![tactic(auto)]

ghost use Rattle.std.specs.Prelude.{◌≡◌};
ghost use Rattle.answers.specs.Answers.{answer_of};
ghost use Rattle.marks_c.specs.Calls.{result_of, size_given, count_given, letters_given, offset_given};
ghost use Rattle.marks_c.specs.Calls.{build_call, build_call_says, save_call, save_call_says, save_checked_call_says};
ghost use Rattle.marks_c.specs.Calls.{load_call, load_call_says, search_call, search_call_says, turbo_call_says};
ghost use Rattle.marks_c.specs.Calls.{search_file_call, search_file_call_says};
ghost use Rattle.marks_c.specs.FailureCalls.{failure_build_call_says, failure_count_given, failure_letters_given, failures_given};
ghost use Rattle.marks_c.specs.FailureCalls.{failure_search_call, failure_search_call_says};
ghost use Rattle.marks_c.specs.StoracleCalls.{storacle_build_call_says};
ghost use Rattle.marks_c.specs.CompactCalls.{compact_build_call, compact_build_call_says, compact_search_call, compact_search_call_says};
ghost use Rattle.marks_c.specs.SalvageCalls.{salvage_call, salvage_call_says};
ghost use Rattle.marks_c.specs.Streams.{open_call, open_call_says, take_call, take_call_says};

use answers::Refusal;

// The number that C is told of an answer: 0 where the entry is done, else the refusal's.
fn number<T>(answer: &Result<T, Refusal>) -> u32
    ensures { result ≡ result_of (answer_of answer.now) }
{
    match answer {
        Ok(_) => 0,
        Err(why) => u32::from(why.number()),
    }
}

// The size that C is told where the entry is done, and the number.
fn tell_size(answer: Result<usize, Refusal>, size: &mut u64) -> u32
    ensures { (result ≡ result_of (answer_of answer)) × (size.new ≡ size_given size.old (answer_of answer)) }
{
    if let Ok(n) = answer {
        *size = n as u64;
    }
    number(&answer)
}

// The same of a search: the number of finds, and of letters read.
fn tell_tally(answer: Result<finds::Tally, Refusal>, count: &mut u64, letters: &mut u64) -> u32
    ensures { (result ≡ result_of (answer_of answer))
        × (count.new ≡ count_given count.old (answer_of answer))
        × (letters.new ≡ letters_given letters.old (answer_of answer)) }
{
    if let Ok(tally) = answer {
        *count = tally.count as u64;
        *letters = tally.letters;
    }
    number(&answer)
}

// The same of a search with a failure oracle: the failure arrows taken besides.
fn tell_failures(
    answer: Result<failure_search::FailureTally, Refusal>,
    count: &mut u64,
    letters: &mut u64,
    failures: &mut u64,
) -> u32
    ensures { (result ≡ result_of (answer_of answer))
        × (count.new ≡ failure_count_given count.old (answer_of answer))
        × (letters.new ≡ failure_letters_given letters.old (answer_of answer))
        × (failures.new ≡ failures_given failures.old (answer_of answer)) }
{
    if let Ok(counts) = answer {
        *count = counts.count as u64;
        *letters = counts.letters;
        *failures = counts.failures;
    }
    number(&answer)
}

// Where in a file C is told that it is refused.
fn tell_offset<T>(answer: &Result<T, Refusal>, offset: &mut u64)
    ensures { offset.new ≡ offset_given offset.old (answer_of answer.now) }
{
    if let Err(Refusal::InFile(fault)) = answer {
        *offset = fault.place as u64;
    }
}

pub fn marks_build(word: &[u8], tables: &mut [u16], m: &mut u64) -> u32
    ensures { build_call result tables.new m.new
        ≡ build_call_says word.now tables.old m.old }
{
    let built = marks::build(word, tables);
    tell_size(built, m)
}

pub fn marks_save(word: &[u8], tables: &mut [u16], out: &mut [u8], length: &mut u64) -> u32
    ensures { save_call result tables.new out.new length.new
        ≡ save_call_says word.now tables.old out.old length.old }
{
    let saved = mark_files::save(word, tables, out);
    tell_size(saved, length)
}

pub fn marks_save_checked(word: &[u8], tables: &mut [u16], out: &mut [u8], length: &mut u64) -> u32
    ensures { save_call result tables.new out.new length.new
        ≡ save_checked_call_says word.now tables.old out.old length.old }
{
    let saved = checked_files::save_checked(word, tables, out);
    tell_size(saved, length)
}

pub fn marks_load(
    file: &[u8],
    room: &mut [u8],
    tables: &mut [u16],
    m: &mut u64,
    offset: &mut u64,
) -> u32
    ensures { load_call result room.new tables.new m.new offset.new
        ≡ load_call_says file.now room.old tables.old m.old offset.old }
{
    let loaded = mark_files::load(file, room, tables);
    tell_offset(&loaded, offset);
    tell_size(loaded, m)
}

pub fn marks_search(
    word: &[u8],
    text: &[u8],
    tables: &mut [u16],
    finds: &mut [u32],
    count: &mut u64,
    letters: &mut u64,
) -> u32
    ensures { search_call result tables.new finds.new count.new letters.new
        ≡ search_call_says word.now text.now tables.old finds.old
        count.old letters.old }
{
    let searched = marks::search(word, text, tables, finds);
    tell_tally(searched, count, letters)
}

pub fn marks_turbo(
    word: &[u8],
    text: &[u8],
    tables: &mut [u16],
    finds: &mut [u32],
    count: &mut u64,
    letters: &mut u64,
) -> u32
    ensures { search_call result tables.new finds.new count.new letters.new
        ≡ turbo_call_says word.now text.now tables.old finds.old
        count.old letters.old }
{
    let searched = linear::turbo(word, text, tables, finds);
    tell_tally(searched, count, letters)
}

pub fn marks_failure_build(word: &[u8], tables: &mut [u16], m: &mut u64) -> u32
    ensures { build_call result tables.new m.new
        ≡ failure_build_call_says word.now tables.old m.old }
{
    let built = failure_entries::failure_build(word, tables);
    tell_size(built, m)
}

pub fn marks_failure_search(
    word: &[u8],
    text: &[u8],
    tables: &mut [u16],
    finds: &mut [u32],
    count: &mut u64,
    letters: &mut u64,
    failures: &mut u64,
) -> u32
    ensures { failure_search_call result tables.new finds.new count.new letters.new
        failures.new
        ≡ failure_search_call_says word.now text.now tables.old finds.old
        count.old letters.old failures.old }
{
    let searched = failure_entries::failure_search(word, text, tables, finds);
    tell_failures(searched, count, letters, failures)
}

pub fn marks_storacle_build(word: &[u8], tables: &mut [u16], m: &mut u64) -> u32
    ensures { build_call result tables.new m.new
        ≡ storacle_build_call_says word.now tables.old m.old }
{
    let built = storacle_entries::storacle_build(word, tables);
    tell_size(built, m)
}

pub fn marks_compact_build(word: &[u8], sets: &mut [u64], targets: &mut [u16], m: &mut u64) -> u32
    ensures { compact_build_call result sets.new targets.new m.new
        ≡ compact_build_call_says word.now sets.old targets.old m.old }
{
    let built = compact_entries::compact_build(word, sets, targets);
    tell_size(built, m)
}

pub fn marks_compact_search(
    word: &[u8],
    text: &[u8],
    sets: &mut [u64],
    targets: &mut [u16],
    finds: &mut [u32],
    count: &mut u64,
    letters: &mut u64,
) -> u32
    ensures { compact_search_call result sets.new targets.new finds.new count.new
        letters.new
        ≡ compact_search_call_says word.now text.now sets.old targets.old
        finds.old count.old letters.old }
{
    let searched = compact_entries::compact_search(word, text, sets, targets, finds);
    tell_tally(searched, count, letters)
}

pub fn marks_salvage(
    text: &[u8],
    tables: &mut [u16],
    starts: &mut [u32],
    kinds: &mut [u8],
    count: &mut u64,
) -> u32
    ensures { salvage_call result tables.new starts.new kinds.new count.new
        ≡ salvage_call_says text.now tables.old starts.old kinds.old count.old }
{
    let listed = salvage::salvage(text, tables, starts, kinds);
    tell_size(listed, count)
}

pub fn marks_search_file(
    file: &[u8],
    text: &[u8],
    room: &mut [u8],
    tables: &mut [u16],
    finds: &mut [u32],
    count: &mut u64,
    letters: &mut u64,
    offset: &mut u64,
) -> u32
    ensures { search_file_call result room.new tables.new finds.new count.new letters.new
        offset.new
        ≡ search_file_call_says file.now text.now room.old tables.old finds.old
        count.old letters.old offset.old }
{
    let searched = mark_files::search_file(file, text, room, tables, finds);
    tell_offset(&searched, offset);
    tell_tally(searched, count, letters)
}

pub fn marks_open(word: &[u8], searcher: &mut [u8]) -> u32
    ensures { open_call result searcher.new ≡ open_call_says word.now searcher.old }
{
    let opened = searcher_bytes::open(word, searcher);
    number(&opened)
}

pub fn marks_take(searcher: &mut [u8], piece: &[u8], finds: &mut [u32], count: &mut u64) -> u32
    ensures { take_call result searcher.new finds.new count.new
        ≡ take_call_says searcher.old piece.now finds.old count.old }
{
    let taken = searcher_bytes::take(searcher, piece, finds);
    tell_size(taken, count)
}
