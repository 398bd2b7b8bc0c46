// Makes a rule book of a text, or only checks the text, and prints what the book holds; prints a book as a text, the legend of a text, or what differs
// between two books. Else it prints one line: a refusal, a file that cannot be used, or how to call it.

#![tactic(auto)]

ghost use Rattle.std.specs.Prelude.{◌≤◌, length, IfOk};

mod command;
mod counts;
mod reply;
mod words;

use booktext::compile::compile;
use booktext::told::Told;
use canonical::show::show;
use command::{Command, command_of};
use difference::difference::difference;
use hl7::bytes::{front, same_bytes};
use legend::legend::legend;
use reply::{put_diff, put_file, put_legend, put_new_name, put_shown, put_told, put_usage};
use std::env::{Env, FillError};
use std::fs::{OpenFile, OpenOptions, Permissions};
use std::io::{Error, ErrorKind, Read, Write};
use std::os::unix::fs::{OpenOptionsExt, PermissionsExt};
use std::rt::Files;
use std::{fs, io};

// How many names are tried for a new file: as many as its six digits can tell apart.
const NAME_COUNT: usize = 1_000_000;

// Puts a word of the command line at the front of a room, and answers its length: 0 where there is no such word, or no room for all of it.
fn put_word(rt: &impl Env, word: usize, room: &mut [u8]) -> usize {
    rt.arg(word, room).unwrap_or(0)
}

// How many words the command line has, the program's own among them. None is read: one that has no room is there all the same.
fn word_count(rt: &impl Env) -> usize {
    for count in 0..usize::MAX {
        if let Err(FillError::NotPresent) = rt.arg(count, &mut []) {
            return count;
        }
    }
    usize::MAX
}

// The text of a path. One that is no UTF-8 names no file that can be opened.
fn path_text(path: &[u8]) -> io::Result<&str> {
    str::from_utf8(path).map_err(|_| Error::from(ErrorKind::InvalidFilename))
}

// Reads until there is no more room, or the file ends, and answers how much there is. A read that fails is not taken for the end.
fn read_full(file: &mut impl Read, into: &mut [u8]) -> io::Result<usize>
    ensures { IfOk result (λ count. count ≤ length into.new) }
{
    let mut done = 0;
    while done < into.len() {
        let n = file.read(&mut into[done..])?;
        if n == 0 {
            break;
        }
        done += n;
    }
    Ok(done)
}

// Reads a file, as much of it as there is room for.
fn read_whole(rt: &impl Files, path: &[u8], into: &mut [u8]) -> io::Result<usize>
    ensures { IfOk result (λ count. count ≤ length into.new) }
{
    let mut file = fs::open(rt, path_text(path)?)?;
    read_full(&mut file, into)
}

// Fills a new file, for all to read, and closes it: all of it is then on the disk.
fn fill(mut file: impl Write + OpenFile + Drop, book: &[u8]) -> io::Result<()> {
    file.write_all(book)?;
    file.set_permissions(Permissions::from_mode(0o644))?;
    file.sync_all()
}

// Fills a new file by this name, which is then given the book's own; or leaves nothing behind.
fn finish<R: Files>(rt: &R, file: R::File, name: &str, path: &str, book: &[u8]) -> io::Result<()> {
    let placed = fill(file, book).and_then(|()| fs::rename(rt, name, path));
    if placed.is_err() {
        let _ = fs::remove_file(rt, name);
    }
    placed
}

// Makes a name's last six bytes the digits of a number.
fn number_name(name: &mut [u8], number: usize) {
    let mut left = number;
    for digit in name.iter_mut().rev().take(6) {
        *digit = b'0' + (left % 10) as u8;
        left /= 10;
    }
}

// Makes a new file by this name, for this user alone until it is filled. A file that there is already is left as it is.
fn create_new<R: Files>(rt: &R, name: &str) -> io::Result<R::File> {
    OpenOptions::new()
        .write(true)
        .create_new(true)
        .mode(0o600)
        .open(rt, name)
}

// Writes a book, whole or not at all: the new file stands beside it, its name with a suffix, the first that is free.
fn write_whole(rt: &impl Files, path: &[u8], book: &[u8]) -> io::Result<()> {
    let target = path_text(path)?;
    let mut name = [0u8; 4104];
    let length = put_new_name(&mut name, path);
    if name.len() < length {
        return Err(Error::from(ErrorKind::InvalidFilename));
    }
    for number in 0..NAME_COUNT {
        number_name(&mut name[..length], number);
        let beside = path_text(&name[..length])?;
        match create_new(rt, beside) {
            Ok(file) => return finish(rt, file, beside, target, book),
            Err(e) if e.kind() == ErrorKind::AlreadyExists => {}
            Err(e) => return Err(e),
        }
    }
    Err(Error::from(ErrorKind::AlreadyExists))
}

// Whether a path is the one that the command line has for the source.
fn is_source(rt: &impl Env, path: &[u8]) -> bool {
    let mut source = [0u8; 4096];
    let length = put_word(rt, 2, &mut source);
    same_bytes(front(&source, length), path)
}

// The book is written only where nothing is refused, and not over its source.
fn keep(rt: &(impl Env + Files), told: Told, output: &mut [u8]) -> usize {
    if let Ok(size) = told {
        let mut path = [0u8; 4096];
        let length = put_word(rt, 3, &mut path);
        if is_source(rt, front(&path, length))
            || write_whole(rt, front(&path, length), front(output, size)).is_err()
        {
            return put_file(output, b"written", front(&path, length));
        }
    }
    put_told(output, told)
}

// Reads the file that a word of the command line names, and answers its length, up to the room; or puts the line which tells that it cannot be read, and
// answers where that ends. A path has room for the longest that can be opened: a longer one is taken for an empty one, which cannot.
fn read_named(
    rt: &(impl Env + Files),
    word: usize,
    input: &mut [u8],
    output: &mut [u8],
) -> Result<usize, usize> {
    let mut path = [0u8; 4096];
    let length = put_word(rt, word, &mut path);
    match read_whole(rt, front(&path, length), input) {
        Ok(count) => Ok(count),
        Err(_) => Err(put_file(output, b"read", front(&path, length))),
    }
}

// What is put for the file that the first word after the command names.
fn put_for<F: FnOnce(&[u8], &mut [u8]) -> usize>(
    rt: &(impl Env + Files),
    input: &mut [u8],
    output: &mut [u8],
    put: F,
) -> Result<usize, usize>
    requires { F.IsAlwaysCallable put }
{
    let length = read_named(rt, 2, input, output)?;
    Ok(put(front(input, length), output))
}

// What is put for the two books that are compared.
fn put_for_both(
    rt: &(impl Env + Files),
    input: &mut [u8],
    second: &mut [u8],
    output: &mut [u8],
) -> Result<usize, usize> {
    let old = read_named(rt, 2, input, output)?;
    let new = read_named(rt, 3, second, output)?;
    let told = difference(front(input, old), front(second, new), output);
    Ok(put_diff(output, told))
}

// What the command line asks for: what is to be printed stands at the output's front. Further commands have their arms here, and their words in command.rt.
fn answer(
    rt: &(impl Env + Files),
    input: &mut [u8],
    second: &mut [u8],
    output: &mut [u8],
) -> usize {
    let mut verb = [0u8; 8];
    let length = put_word(rt, 1, &mut verb);
    let put = match command_of(word_count(rt), front(&verb, length)) {
        Command::Compile => put_for(rt, input, output, |source, output| {
            let told = compile(source, output);
            keep(rt, told, output)
        }),
        Command::Check => put_for(rt, input, output, |source, output| {
            let told = compile(source, output);
            put_told(output, told)
        }),
        Command::Show => put_for(rt, input, output, |book, output| {
            let told = show(book, output);
            put_shown(output, told)
        }),
        Command::Legend => put_for(rt, input, output, |source, output| {
            let told = legend(source, output);
            put_legend(output, told)
        }),
        Command::Diff => put_for_both(rt, input, second, output),
        Command::Unknown => Ok(put_usage(output)),
    };
    match put {
        Ok(end) | Err(end) => end,
    }
}

// The rooms come as arrays, whose lengths stand in their types: no proof has to count so many bytes.
fn run(
    rt: &(impl Env + Files + Print),
    input: &mut [u8; 1048577],
    second: &mut [u8; 65537],
    output: &mut [u8; 4194304],
) -> io::Result<()> {
    let length = answer(rt, input, second, output);
    rt.write_all(front(output, length))
}

// A source has room for one byte more than it may have, so that a longer one is seen to be longer; so has a book, which may have fewer, and the second of
// two has a room of its own. Of all that is printed only a legend or a difference may have no room. A text that cannot be printed is an error.
fn main(rt: HostRuntime) -> io::Result<()> {
    run(
        &rt,
        &mut [0u8; 1048577],
        &mut [0u8; 65537],
        &mut [0u8; 4194304],
    )
}
