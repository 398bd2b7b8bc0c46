// Runs the packed cases of a file, one after the other, and prints the answer to each; for a message, before it, the place that is asked for and what the
// lamp tells.
//
// A number has four bytes, the high byte first. A case is its kind (1 a message, 2 a batch file), the length of the message or file, its
// bytes, book length, book, stamp length, stamp, control number, output length. A message's case goes on with a place: segment, field,
// repetition, component. A case of kind 3 is a text that is compiled, of kind 4 a book that is shown, of kind 5 a text whose legend is asked for: its
// length, its bytes, output length. A case of kind 6 is two books of which the difference is asked for: length and bytes of the old one, of the new one,
// output length.

#![tactic(auto)]

use ack::lamp::lamp;
use ack::lent::grade_and_write;
use batchfile::batch::answer_batch;
use booktext::compile::compile;
use booktext::told::Told;
use canonical::show::show;
use difference::difference::difference;
use grade::refusal::Answer;
use hl7::bytes::front;
use hl7::locate::locate;
use legend::legend::legend;
use line::input::read_full;
use show::text::put_answer;
use std::io::Read;
use std::rt::Files;
use std::{fs, io};

// What a case asks for.
#[derive(Clone, Copy, PartialEq)]
enum Kind {
    Message,
    Batch,
    Text,
    Book,
    Legend,
    Difference,
}

// Why no more cases are run: the pack breaks off or has no such case, or what is to be printed cannot be.
#[derive(Drop)]
enum Fault {
    BadPack,
    Unprinted(io::Error),
}

impl From<io::Error> for Fault {
    fn from(error: io::Error) -> Fault {
        Fault::Unprinted(error)
    }
}

impl TryFrom<u32> for Kind {
    type Error = Fault;

    fn try_from(number: u32) -> Result<Kind, Fault> {
        match number {
            1 => Ok(Kind::Message),
            2 => Ok(Kind::Batch),
            3 => Ok(Kind::Text),
            4 => Ok(Kind::Book),
            5 => Ok(Kind::Legend),
            6 => Ok(Kind::Difference),
            _ => Err(Fault::BadPack),
        }
    }
}

// ---- what is read
// The kind of the next case; none at the end of the pack.
fn read_kind(pack: &mut impl Read) -> Result<Option<Kind>, Fault> {
    let mut four = [0u8; 4];
    match read_full(pack, &mut four) {
        0 => Ok(None),
        4 => Ok(Some(Kind::try_from(u32::from_be_bytes(four))?)),
        _ => Err(Fault::BadPack),
    }
}

fn read_number(pack: &mut impl Read) -> Result<u32, Fault> {
    let mut four = [0u8; 4];
    if read_full(pack, &mut four) < 4 {
        return Err(Fault::BadPack);
    }
    Ok(u32::from_be_bytes(four))
}

// Bytes with their length before them, as far as there is room.
fn read_part<'a>(pack: &mut impl Read, room: &'a mut [u8]) -> Result<&'a [u8], Fault> {
    let length = read_number(pack)? as usize;
    if room.len() < length {
        return Err(Fault::BadPack);
    }
    let part = &mut room[..length];
    if read_full(pack, part) < length {
        return Err(Fault::BadPack);
    }
    Ok(part)
}

// ---- cases of a message or a batch file
// Reads the place that is asked for, and prints what stands there in the message, and a line feed.
fn print_place(rt: &impl Print, pack: &mut impl Read, message: &[u8]) -> Result<(), Fault> {
    let segment = read_number(pack)? as usize;
    let field = read_number(pack)? as usize;
    let repetition = read_number(pack)? as usize;
    let component = read_number(pack)? as usize;
    rt.write_all(locate(message, segment, field, repetition, component))?;
    rt.write_all(b"\n")?;
    Ok(())
}

// Prints what the lamp tells on a line.
fn print_lamp(rt: &impl Print, message: &[u8], book: &[u8], stamp: &[u8]) -> io::Result<()> {
    match lamp(message, book, stamp) {
        Ok(yes) => println!(rt; "0 {yes}"),
        Err(refusal) => println!(rt; "{} {}", refusal.number(), refusal.detail()),
    }
}

// The answer to a message, which is graded and then written, or to a batch file.
fn answer_to(
    kind: Kind,
    input: &[u8],
    book: &[u8],
    stamp: &[u8],
    control: u32,
    out: &mut [u8],
) -> Answer {
    if kind == Kind::Batch {
        return answer_batch(input, book, stamp, control, out);
    }
    grade_and_write(input, book, stamp, control, out)
}

// Answers with the first so many bytes of out lent, and prints the answer.
fn print_answer(
    rt: &impl Print,
    kind: Kind,
    input: &[u8],
    book: &[u8],
    stamp: &[u8],
    control: u32,
    out: &mut [u8],
    length: usize,
) -> Result<(), Fault> {
    if out.len() < length {
        return Err(Fault::BadPack);
    }
    let answer = answer_to(kind, input, book, stamp, control, &mut out[..length]);
    let end = put_answer(out, answer);
    rt.write_all(front(out, end))?;
    Ok(())
}

// For a message the place and the lamp come first.
fn run_case(rt: &impl Print, pack: &mut impl Read, kind: Kind) -> Result<(), Fault> {
    let mut input_room = [0u8; 131072];
    let input = read_part(pack, &mut input_room)?;
    let mut book_room = [0u8; 65537];
    let book = read_part(pack, &mut book_room)?;
    let mut stamp_room = [0u8; 1024];
    let stamp = read_part(pack, &mut stamp_room)?;
    let control = read_number(pack)?;
    let length = read_number(pack)? as usize;
    if kind == Kind::Message {
        print_place(rt, pack, input)?;
        print_lamp(rt, input, book, stamp)?;
    }
    let out = &mut [0u8; 131072];
    print_answer(rt, kind, input, book, stamp, control, out, length)
}

// ---- cases of a text or of books
// Makes what is asked for with the first so many bytes of out lent. Prints number, detail and section on a line, and what was made if nothing was refused.
fn print_made<F: FnOnce(&mut [u8]) -> Told>(
    rt: &impl Print,
    make: F,
    out: &mut [u8],
    length: usize,
) -> Result<(), Fault>
    requires { F.IsAlwaysCallable make }
{
    if out.len() < length {
        return Err(Fault::BadPack);
    }
    match make(&mut out[..length]) {
        Ok(size) => {
            println!(rt; "0 {} 0", size)?;
            rt.write_all(front(out, size))?;
            rt.write_all(b"\n")?;
        }
        Err(fault) => {
            println!(rt; "{} {} {}", fault.row.number(), fault.detail, fault.section)?;
        }
    }
    Ok(())
}

// A text, or a book to be shown.
fn run_text<F: Fn(&[u8], &mut [u8]) -> Told>(
    rt: &impl Print,
    pack: &mut impl Read,
    make: F,
) -> Result<(), Fault>
    requires { F.IsAlwaysCallable make }
{
    let mut input_room = [0u8; 131072];
    let input = read_part(pack, &mut input_room)?;
    let length = read_number(pack)? as usize;
    print_made(rt, |out| make(input, out), &mut [0u8; 131072], length)
}

// Two books.
fn run_books(rt: &impl Print, pack: &mut impl Read) -> Result<(), Fault> {
    let mut old_room = [0u8; 65537];
    let old = read_part(pack, &mut old_room)?;
    let mut new_room = [0u8; 65537];
    let new = read_part(pack, &mut new_room)?;
    let length = read_number(pack)? as usize;
    print_made(
        rt,
        |out| difference(old, new, out),
        &mut [0u8; 131072],
        length,
    )
}

// ---- the pack
fn run_kind(rt: &impl Print, pack: &mut impl Read, kind: Kind) -> Result<(), Fault> {
    match kind {
        Kind::Message | Kind::Batch => run_case(rt, pack, kind),
        Kind::Text => run_text(rt, pack, compile),
        Kind::Book => run_text(rt, pack, show),
        Kind::Legend => run_text(rt, pack, legend),
        Kind::Difference => run_books(rt, pack),
    }
}

// A proved loop has to end, so the cases have a bound, which no pack comes to.
fn run_all(rt: &impl Print, pack: &mut impl Read) -> Result<(), Fault> {
    for _ in 0..usize::MAX {
        let Some(kind) = read_kind(pack)? else {
            break;
        };
        run_kind(rt, pack, kind)?;
    }
    Ok(())
}

fn run_file(rt: &(impl Print + Files)) -> Result<(), Fault> {
    let Ok(mut pack) = fs::open(rt, "cases.pack") else {
        return Err(Fault::BadPack);
    };
    run_all(rt, &mut pack)
}

// A text that cannot be printed is an error.
fn main(rt: HostRuntime) -> io::Result<()> {
    match run_file(&rt) {
        Ok(()) => Ok(()),
        Err(Fault::BadPack) => rt.write_all(b"bad pack\n"),
        Err(Fault::Unprinted(error)) => Err(error),
    }
}
