// Reads a message, a rule book and a line, and prints the answer: the ACK, a refusal, or that the line is bad.

#![tactic(auto)]

mod reply;

use hl7::bytes::front;
use line::input::{read_file, read_line};
use std::io;

// Each file has room for one byte more than it may have, so that a longer one is seen to be longer. An answer that cannot be written is an error.
fn main(rt: HostRuntime) -> io::Result<()> {
    let state = read_line(&rt);
    let mut message = [0u8; 32769];
    let message_length = read_file(&rt, b"message.hl7", &mut message);
    let mut book = [0u8; 65537];
    let book_length = read_file(&rt, b"book.vxb", &mut book);
    let mut out = [0u8; 65536];
    let length = reply::reply(
        state,
        front(&message, message_length),
        front(&book, book_length),
        &mut out,
    );
    rt.write_all(front(&out, length))
}
