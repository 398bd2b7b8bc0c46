// What a program reads: the line of standard input, to its end, and its files.
ghost use Rattle.line.specs.Fed.{Kept};
ghost use Rattle.line.specs.Room.{IsPrefixLen};

use crate::kept::{State, feed, start};
use std::fs;
use std::io::Read;
use std::rt::Files;

// What a turn of reading leaves, and whether there may be more of the line: the state counts in both cases, so it is no Option.
#[derive(Clone, Copy)]
struct Turn {
    more: bool,
    state: State,
}

// Reads once. A read that gives nothing is the end of the input, and so is one that fails.
fn read_some(input: &mut impl Read, state: State) -> Turn
    ensures { Kept state → Kept result.state }
{
    let mut buffer = [0u8; 4096];
    let n = input.read(&mut buffer).unwrap_or(0);
    let fed = feed(state, &buffer[..n]);
    Turn {
        more: (0 < n) & !fed.ended,
        state: fed,
    }
}

// Reads to the end of the line. A proved loop has to end, so the turns have a bound, which no run comes to.
pub fn read_line(rt: &impl Input) -> State
    ensures { Kept result }
{
    let mut input = rt.reader();
    let mut state = start();
    for _ in 0..usize::MAX {
        let turn = read_some(&mut input, state);
        state = turn.state;
        if !turn.more {
            break;
        }
    }
    state
}

// Reads until there is no more room, or nothing more is read: a read that fails ends the file too.
pub fn read_full(file: &mut impl Read, into: &mut [u8]) -> usize
    ensures { IsPrefixLen result into.new }
{
    let mut done = 0;
    while done < into.len() {
        let n = file.read(&mut into[done..]).unwrap_or(0);
        if n == 0 {
            break;
        }
        done += n;
    }
    done
}

// Reads a file from the current folder, as much of it as there is room for. A missing file counts as empty, as does one whose path is no UTF-8.
pub fn read_file(rt: &impl Files, path: &[u8], into: &mut [u8]) -> usize
    ensures { IsPrefixLen result into.new }
{
    let Ok(path) = str::from_utf8(path) else {
        return 0;
    };
    match fs::open(rt, path) {
        Ok(mut file) => read_full(&mut file, into),
        Err(_) => 0,
    }
}
