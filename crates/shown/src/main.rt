// Runs the worked examples of files by the entries for C, and writes a line for each: what is handed over, the number returned, the answer
// and, of a load, the offset, and what the lent buffers hold afterwards. `tools/expect` computes the same lines another way, from 01 and 02
// alone, and they are the file `stdout`. Before a call each lent byte is 6, each table entry 7, the answer 0 and the offset 99999.
#![tactic(auto)]

use std::fmt::Display;
use std::io;
use words::WORD_LIMIT;

// Table entries for every word.
const ENTRIES: usize = 6 * (WORD_LIMIT + 1);

// A case: the file to be loaded, or the word to be saved.
enum Case<'a> {
    Load(&'a [u8]),
    Save(&'a [u8]),
}

// Each place where another value begins, with it.
fn values<T: PartialEq + Display>(rt: &impl Print, xs: &[T]) -> io::Result<()> {
    for (i, x) in xs.iter().enumerate() {
        if i == 0 || xs[i - 1] != *x {
            print!(rt; " {i}:{x}")?;
        }
    }
    Ok(())
}

fn tell(rt: &impl Print, number: u32, answer: u64) -> io::Result<()> {
    print!(rt; "; number {number}, answer {answer}")
}

fn show(rt: &impl Print, room: &[u8], tables: &[u16]) -> io::Result<()> {
    print!(rt; "; bytes")?;
    values(rt, room)?;
    print!(rt; "; entries")?;
    values(rt, tables)?;
    println!(rt; "")
}

// One load or one save, in lent rooms.
fn run(rt: &impl Print, case: Case, room: &mut [u8], tables: &mut [u16]) -> io::Result<()> {
    let mut answer: u64 = 0;
    match case {
        Case::Load(file) => {
            let mut offset: u64 = 99999;
            print!(rt; "load")?;
            values(rt, file)?;
            let number = marks_c::marks_load(file, room, tables, &mut answer, &mut offset);
            tell(rt, number, answer)?;
            print!(rt; ", offset {offset}")?;
        }
        Case::Save(word) => {
            print!(rt; "save")?;
            values(rt, word)?;
            let number = marks_c::marks_save(word, tables, room, &mut answer);
            tell(rt, number, answer)?;
        }
    }
    show(rt, room, tables)
}

// A table of cases: for each its kind, L or S, how many bytes are handed over, and these. It is packed, since the wrong program
// `case_past_the_table` is one that leaves its bytes. The rooms are enough for every word.
fn cases(rt: &impl Print, table: &[u8]) -> io::Result<()> {
    let mut left = table;
    while let [kind, size, rest @ ..] = left {
        let mut room = [6u8; WORD_LIMIT];
        let mut tables = [7u16; ENTRIES];
        let long = usize::from(*size);
        if rest.len() < long {
            return Ok(());
        }
        let (given, behind) = rest.split_at(long);
        let case = if *kind == b'L' {
            Case::Load(given)
        } else {
            Case::Save(given)
        };
        run(rt, case, &mut room, &mut tables)?;
        left = behind;
    }
    Ok(())
}

// Loads a file that ends behind its letters: as many as the longest word has, whatever it declares.
fn long_file(rt: &impl Print, declared: u32, room: &mut [u8]) -> io::Result<()> {
    let mut file = [b'a'; WORD_LIMIT + 6];
    let mut tables = [7u16; ENTRIES];
    file[0] = 1;
    let width = number::width(declared);
    number::write(&mut file, number::Cursor { at: 1 }, declared);
    let end = 1 + width + WORD_LIMIT;
    run(rt, Case::Load(&file[..end]), room, &mut tables)
}

// Loads the file of the longest word that is a, b and then a's, with its last arrow's second number changed. It has the extra arrows 0-2
// and 1-4, which are 00 00 and 01 01.
fn last_arrow_wrong(rt: &impl Print, room: &mut [u8]) -> io::Result<()> {
    let mut file = [b'a'; WORD_LIMIT + 11];
    let mut tables = [7u16; ENTRIES];
    file[0] = 1;
    let width = number::width(WORD_LIMIT as u32);
    number::write(&mut file, number::Cursor { at: 1 }, WORD_LIMIT as u32);
    let end = 1 + width + WORD_LIMIT;
    file[2 + width] = b'b';
    file[end..end + 5].copy_from_slice(&[2, 0, 0, 1, 2]);
    run(rt, Case::Load(&file[..end + 5]), room, &mut tables)
}

fn main(rt: HostRuntime) -> io::Result<()> {
    cases(
        &rt,
        b"S\x01a\
        S\x03aaa\
        S\x07abbbaab\
        S\x09abcacdace\
        L\x06\x01\xff\xff\xff\xff\x0f\
        L\x07\x01\x83\x00aaa\x00\
        L\x00\
        L\x02\x01\x00\
        L\x06\x01\x03aaa\x03\
        L\x05\x01\x03aaa\
        L\x08\x01\x03aaa\x01\x00\x00\
        L\x07\x01\x03aaa\x00\x00\
        L\x05\x01\x02ab\x00\
        L\x07\x01\x02ab\x01\x00\x00\
        S\x02ab\
        S\x02aa\
        S\x00\
        L\x04\x01\x01a\x00\
        L\x05\x01\x02aa\x00\
        L\x02\x81\x00\
        L\x02\x01\x80\
        L\x04\x01\x03aa\
        L\x12\x01\x07abbbaab\x04\x00\x00\x02\x03\x01\x01\x01\x00\
        L\x12\x01\x07abbbaab\x04\x00\x00\x01\x04\x01\x01\x01\x00\
        L\x10\x01\x07abbbaab\x03\x00\x00\x01\x03\x01\x01\
        L\x14\x01\x07abbbaab\x04\x00\x00\x01\x03\x01\x01\x01\x00**",
    )?;
    let mut room = [6u8; WORD_LIMIT];
    let mut short = [6u8; WORD_LIMIT - 1];
    long_file(&rt, WORD_LIMIT as u32 + 1, &mut room)?;
    long_file(&rt, WORD_LIMIT as u32, &mut short)?;
    long_file(&rt, WORD_LIMIT as u32, &mut room)?;
    let mut again = [6u8; WORD_LIMIT];
    last_arrow_wrong(&rt, &mut again)
}
