// Runs the recogniser over the texts of the file `cases`, and writes a line for each: the number and the place.
// In the file each text stands behind its length: five decimal digits and an LF. A length past what is left ends the run.
#![tactic(auto)]

ghost use Rattle.std.specs.Prelude.{◌≤◌, ◌<◌, length};
ghost use Rattle.std.specs.Iterator.{at_most};

use std::fs::File;
use std::io;
use std::io::Read;
use std::rt::Files;

// What the file may hold: a program that did more would read on in a longer one.
const ROOM: usize = 262144;

// The digits before a text; behind them stands an LF.
const DIGITS: usize = 5;

// The bytes that the reader gives, as many as there is room for; a read that fails ends them.
// kept: a loop and a count: std reads on to the end of a file into a Vec alone, and this reads no further than its room.
// A read that gives 0 is the end, as std's `Read` says.
fn read_full<R: Read>(reader: &mut R, all: &mut [u8]) -> usize
    ensures { result ≤ length all.old }
{
    let mut done = 0;
    while done < all.len() {
        let n = reader.read(&mut all[done..]).unwrap_or(0);
        if n == 0 {
            return done;
        }
        done += n;
    }
    done
}

// The whole file, or nothing where it cannot be opened.
// kept: 0 and no Result where it cannot be opened or read on: the program takes what it has, as it did.
fn read_cases(rt: &impl Files, all: &mut [u8]) -> usize
    ensures { result ≤ length all.old }
{
    match File::open(rt, "cases") {
        Ok(mut file) => read_full(&mut file, all),
        Err(_) => 0,
    }
}

// The number that the digits make; any other byte counts as the digit 0.
fn number(digits: &[u8; DIGITS]) -> usize
    ensures { result < 100000 }
{
    let mut n = 0;
    for b in digits {
        n = 10 * n + usize::from(if b.is_ascii_digit() { b - b'0' } else { 0 });
    }
    n
}

// The texts that stand one after the other in these bytes.
#[derive(Drop)]
struct Cases<'a>(&'a [u8]);

impl<'a> Iterator for Cases<'a> {
    type Item = &'a [u8];

    ghost remaining = { λ s. at_most (length s.0.now) };

    fn next(&mut self) -> Option<&'a [u8]> {
        let (digits, rest) = self.0.split_first_chunk::<DIGITS>()?;
        let (_, rest) = rest.split_first()?;
        let n = number(digits);
        if rest.len() < n {
            return None;
        }
        let (text, rest) = rest.split_at(n);
        self.0 = rest;
        Some(text)
    }
}

// A line for each text.
fn show(rt: &impl Print, all: &[u8]) -> io::Result<()> {
    for text in Cases(all) {
        match recogniser::recognise(text) {
            Ok(()) => println!(rt; "0 0")?,
            Err(refusal) => println!(rt; "{refusal}")?,
        }
    }
    Ok(())
}

// The file's texts; `all` is room for them.
fn work(rt: &(impl Files + Print), all: &mut [u8]) -> io::Result<()> {
    let n = read_cases(rt, all);
    show(rt, &all[..n])
}

fn main(rt: HostRuntime) -> io::Result<()> {
    let mut all = [0u8; ROOM];
    work(&rt, &mut all)
}
