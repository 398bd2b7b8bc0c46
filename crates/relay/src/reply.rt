// What the program prints.
ghost use Rattle.std.specs.Prelude.{List, ℕ};
ghost use Rattle.line.specs.Line.{line_of, said};
ghost use Rattle.line.specs.Fed.{Fed};
ghost use Rattle.line.specs.Reply.{Replies};
ghost use Rattle.relay.specs.Reply.{answers};

use ack::lent::grade_and_write;
use hl7::bytes::front;
use line::kept::{State, line_says};
use show::text::{put_answer, put_bad_line};

// The text that is printed, put into the output that was lent for the ACK. A bad line is told before anything else.
pub fn reply(state: State, message: &[u8], book: &[u8], out: &mut [u8]) -> usize
    ensures { (input : List ℕ) → Fed input state → Replies (said (line_of input)) (answers message.now book.now out.old) out.old out.new result }
{
    let Some(line) = line_says(state) else {
        return put_bad_line(out);
    };
    let stamp = front(&state.head.bytes, line.stamp);
    let answer = grade_and_write(message, book, stamp, line.control, out);
    put_answer(out, answer)
}
