//! What the program prints and its exit status, also where an allocation or a write fails.

ghost use Rattle.std.specs.Prelude.{◌≤◌};

use super::assert_at;
use num_modular::modrun::run_words;
use std::alloc::Global;
use std::io::Write;
use std::{io, str};

const USAGE: &str = "usage: modrun REDUCER MODULUS COMMAND...\n";

const ZEROS: &str = "0 0 0 0 0 0 0 0\n";

const MISSING_INVERSE: &str = "vanilla 21 load,0,5 load,1,7 inv,2,0 inv,0,1";

// A writer that allocates nothing, and can fail at one of its writes.
#[derive(Drop)]
struct Page {
    bytes: [u8; 256],
    len: usize,
    writes: usize,
    refused: usize,
    ghost within: { len ≤ 256 },
}

impl Page {
    // The writes are counted from 1.
    fn refusing(refused: usize) -> Page {
        Page {
            bytes: [0; 256],
            len: 0,
            writes: 0,
            refused,
        }
    }

    fn new() -> Page {
        Page::refusing(0)
    }

    fn text(&self) -> &str {
        str::from_utf8(&self.bytes[..self.len]).unwrap_or("?")
    }

    fn holds(&self, text: &str) -> bool {
        &self.bytes[..self.len] == text.as_bytes()
    }
}

impl Write for Page {
    fn write(&mut self, buf: &[u8]) -> io::Result<usize> {
        self.writes = self.writes.wrapping_add(1);
        if self.writes == self.refused {
            return Err(io::Error::from(io::ErrorKind::BrokenPipe));
        }
        let count = buf.len().min(256 - self.len);
        self.bytes[self.len..self.len + count].copy_from_slice(&buf[..count]);
        self.len += count;
        Ok(count)
    }

    fn flush(&mut self) -> io::Result<()> {
        Ok(())
    }
}

// The words, separated by spaces, and their number; there is room for eight.
fn words_of(typed: &str) -> ([&str; 8], usize) {
    let mut words = [""; 8];
    let mut count = 0;
    'words: for word in typed.split(' ') {
        if count < 8 {
            words[count] = word;
            count += 1;
        }
    }
    (words, count)
}

fn run_typed(alloc: Global, typed: &str, out: &mut Page, err: &mut Page) -> u8 {
    let (words, count) = words_of(typed);
    run_words(alloc, &words[..count.min(8)], out, err)
}

// Whether the words give the status and these two texts.
fn gives(alloc: Global, typed: &str, status: u8, printed: &str, told: &str) -> bool {
    let mut out = Page::new();
    let mut err = Page::new();
    let answer = run_typed(alloc, typed, &mut out, &mut err);
    answer == status && out.holds(printed) && err.holds(told)
}

// The words, the status and the two texts.
#[rattlefmt::skip]
const ANSWERS: &[(&str, u8, &str, &str)] = &[
    ("vanilla 97", 0, ZEROS, ""),
    ("vanilla 97 load,0,10 load,1,20 mul,2,0,1", 0, "10 20 6 0 0 0 0 0\n", ""),
    ("vanilla 97 load,0,0 sub,1,0,0 load,2,1 sub,3,0,2", 0, "0 0 1 96 0 0 0 0\n", ""),
    ("vanilla 97 load,1,96 add,2,1,1 neg,3,2 dbl,4,2 sqr,5,3", 0, "0 96 95 2 93 4 0 0\n", ""),
    ("vanilla 21 load,0,5 mul,0,0,0", 0, "4 0 0 0 0 0 0 0\n", ""),
    ("vanilla 7 pow,0,1,0", 0, "1 0 0 0 0 0 0 0\n", ""),
    ("vanilla 0021 load,00,05", 0, "5 0 0 0 0 0 0 0\n", ""),
    ("vanilla 00000000000000000000000000000021 load,7,22", 0, "0 0 0 0 0 0 0 1\n", ""),
    ("vanilla 18446744073709551615", 0, ZEROS, ""),
    ("premul 1", 0, ZEROS, ""),
    ("montgomery 18446744073709551615 load,0,18446744073709551614 mul,1,0,0", 0,
        "18446744073709551614 1 0 0 0 0 0 0\n", ""),
    ("vanilla 21 load,0,10 load,1,5 div,2,0,1", 0, "10 5 2 0 0 0 0 0\n", ""),
    ("montgomery 1 div,0,1,2", 0, ZEROS, ""),
    ("montgomery 20 load,0,7 load,1,9 div,1,0,1", 0, "7 3 0 0 0 0 0 0\n", ""),
    ("montgomery 20 load,0,7 load,1,9 mul,2,0,1", 0, "7 9 3 0 0 0 0 0\n", ""),
    ("montgomery 18446744073709551614 load,0,18446744073709551613 mul,1,0,0 inv,2,0", 0,
        "18446744073709551613 1 18446744073709551613 0 0 0 0 0\n", ""),
    (MISSING_INVERSE, 1, "5 7 17 0 0 0 0 0\n", "no inverse at command 3\n"),
    ("premul 21 load,0,5 load,1,7 inv,2,0 inv,0,1", 1, "5 7 17 0 0 0 0 0\n", "no inverse at command 3\n"),
    ("montgomery 21 load,0,5 load,1,7 inv,2,0 inv,0,1", 1, "5 7 17 0 0 0 0 0\n", "no inverse at command 3\n"),
    ("vanilla 21 inv,0,0", 1, ZEROS, "no inverse at command 0\n"),
    ("montgomery 20 load,0,6 inv,1,0", 1, "6 0 0 0 0 0 0 0\n", "no inverse at command 1\n"),
    ("premul 21 load,0,5 load,1,7 div,2,0,1 load,3,9", 1, "5 7 0 0 0 0 0 0\n", "no inverse at command 2\n"),
    ("vanilla 21 div,0,0,0", 1, ZEROS, "no inverse at command 0\n"),
];

#[test]
fn answers(rt: HostRuntime) {
    'rows: for &(typed, status, printed, told) in ANSWERS {
        assert_at(&rt, gives(rt.alloc(), typed, status, printed, told), &typed);
    }
}

// Words that can't be read, or that name what doesn't exist.
#[rattlefmt::skip]
const REFUSED: &[&str] = &[
    "vanilla", "vanilla 0", "premul 0", "montgomery 0", "Vanilla 21", " 21", "vanilla +21", "vanilla -1",
    "vanilla ", "vanilla \t21", "vanilla ٢١", "vanilla 18446744073709551616", "vanilla 2 1",
    "vanilla 21 inv,0,0 load,8,1", "vanilla 21 ", "vanilla 21 load", "vanilla 21 load,0",
    "vanilla 21 load,0,5,", "vanilla 21 load,0,5,6", "vanilla 21 load,,5", "vanilla 21 load,8,1",
    "vanilla 21 load,0,18446744073709551616", "vanilla 21 load,+0,5", "vanilla 21 load,\t0,5",
    "vanilla 21 load,0,٥", "vanilla 21 LOAD,0,5", "vanilla 21 \tload,0,5", "vanilla 21 loads,0,5",
    "vanilla 21 add,0,1", "vanilla 21 add,0,1,8", "vanilla 21 add,0,8,1", "vanilla 21 sub,8,0,1",
    "vanilla 21 mul,0,1,2,3", "vanilla 21 neg,0", "vanilla 21 dbl,0,8", "vanilla 21 sqr,0,1,2",
    "vanilla 21 inv,0,8", "vanilla 21 div,0,1", "vanilla 21 div,0,1,8", "vanilla 21 div,0,8,1",
    "vanilla 21 pow,0,1", "vanilla 21 pow,0,8,1",
];

fn refuses_no_words(alloc: Global) -> bool {
    let mut out = Page::new();
    let mut err = Page::new();
    let status = run_words(alloc, &[], &mut out, &mut err);
    status == 2 && out.holds("") && err.holds(USAGE)
}

#[test]
fn refuses_words(rt: HostRuntime) {
    let rt = &rt;
    'rows: for typed in REFUSED {
        assert_at(rt, gives(rt.alloc(), typed, 2, "", USAGE), typed);
    }
    check!(rt, 1; refuses_no_words(rt.alloc()));
}

// Whether a run returns 4 exactly where the write `refused` to one of its outputs fails, and then writes no more.
fn tells_a_refused_write(alloc: Global, typed: &str, refused: usize) -> bool {
    let mut out = Page::refusing(refused);
    let mut err = Page::new();
    let status = run_typed(alloc, typed, &mut out, &mut err);
    let told = (status == 4) == (refused <= out.writes) && (status != 4 || err.holds(""));
    let mut out = Page::new();
    let mut err = Page::refusing(refused);
    let status = run_typed(alloc, typed, &mut out, &mut err);
    told && (status == 4) == (refused <= err.writes)
}

// Each write in turn fails, to either output; the last runs have no failure.
#[test]
fn refused_writes(rt: HostRuntime) {
    let rt = &rt;
    let rows = [(MISSING_INVERSE, 1), ("vanilla 21", 0), ("vanilla", 2)];
    'rows: for (typed, status) in rows {
        'writes: for refused in 1..40 {
            let told = tells_a_refused_write(rt.alloc(), typed, refused);
            assert_at(rt, told, &(typed, refused));
        }
        let mut out = Page::refusing(39);
        let mut err = Page::refusing(39);
        let found = run_typed(rt.alloc(), typed, &mut out, &mut err);
        let is_whole = found == status && out.writes < 39 && err.writes < 39;
        assert_at(rt, is_whole, &typed);
    }
}

// How many of 64 allocations succeed, each for a list of its own.
fn growths_had(alloc: Global) -> u32 {
    let mut had = 0;
    'growths: for _ in 0..64 {
        let mut list: Vec<u8> = Vec::new(alloc);
        if list.push(0).is_ok() {
            had = u32::min(had, 63) + 1;
        }
    }
    had
}

// Prints the status and both texts of a run, and how many of 64 allocations succeed after it.
fn print_run(rt: &HostRuntime, status: u8, out: &Page, err: &Page) -> io::Result<()> {
    let had = growths_had(rt.alloc());
    println!(rt;
        "status {status} {:?} {:?} had {had}",
        out.text(),
        err.text()
    )
}

// Prints what a run gives. Returns whether it ended as its words say, or said that memory was refused and no more.
fn tries_memory(rt: &HostRuntime, words: &[&str], wanted: (u8, &str, &str)) -> io::Result<bool> {
    let mut out = Page::new();
    let mut err = Page::new();
    let status = run_words(rt.alloc(), words, &mut out, &mut err);
    print_run(rt, status, &out, &err)?;
    let is_full = status == wanted.0 && out.holds(wanted.1) && err.holds(wanted.2);
    Ok(is_full || status == 3 && out.holds("") && err.holds("out of memory\n"))
}

// `rt try --test --fail-alloc N` makes the Nth allocation fail; what these two tests print says whether the run met
// it. `checks/refused-memory` does the same to the built program.
#[test]
fn refused_memory(rt: HostRuntime) -> io::Result<()> {
    let rt = &rt;
    let (words, _) = words_of(MISSING_INVERSE);
    let wanted = (1, "5 7 17 0 0 0 0 0\n", "no inverse at command 3\n");
    check!(rt, 1; tries_memory(rt, &words[..6], wanted)?);
    Ok(())
}

#[test]
fn refused_memory_after_commands(rt: HostRuntime) -> io::Result<()> {
    let rt = &rt;
    let mut words = ["sqr,0,0"; 11];
    words[0] = "vanilla";
    words[1] = "21";
    check!(rt, 1; tries_memory(rt, &words, (0, ZEROS, ""))?);
    Ok(())
}
