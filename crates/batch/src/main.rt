// Reads a batch file, a rule book and a line, and prints the answer: the ACKs, a refusal, or that the line is bad.

#![tactic(auto)]

mod reply;

use hl7::bytes::front;
use line::input::{read_file, read_line};
use std::io;
use std::rt::Files;

// The rooms come as arrays, whose lengths stand in their types: no proof has to count so many bytes.
fn run(
    rt: &(impl Files + Input + Print),
    file: &mut [u8; 1048577],
    book: &mut [u8; 65537],
    out: &mut [u8; 4194304],
) -> io::Result<()> {
    let state = read_line(rt);
    let file_length = read_file(rt, b"batch.hl7", file);
    let book_length = read_file(rt, b"book.vxb", book);
    let length = reply::reply(
        state,
        front(file, file_length),
        front(book, book_length),
        out,
    );
    rt.write_all(front(out, length))
}

// Each file has room for one byte more than it may have, so that a longer one is seen to be longer. An answer that cannot be written is an error.
fn main(rt: HostRuntime) -> io::Result<()> {
    run(
        &rt,
        &mut [0u8; 1048577],
        &mut [0u8; 65537],
        &mut [0u8; 4194304],
    )
}
