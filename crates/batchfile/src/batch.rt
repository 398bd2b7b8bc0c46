// Answering a batch file: the frame first, then every message measured, then every ACK written.
ghost use Rattle.std.specs.Prelude.{◌≡◌, not, [], ◌+◌, ◌≤◌, ◌<◌, length, take};
ghost use Rattle.grade.specs.Standing.{Indexes};
ghost use Rattle.grade.specs.Admission.{paper};
ghost use Rattle.ack.specs.Splice.{Wrote};
ghost use Rattle.ack.specs.Answers.{Gives};
ghost use Rattle.batchfile.specs.Batch.{file_limit, controls, is_wrong, refused_from, acks_from, batch_of};
ghost use Rattle.batchfile.specs.Walk.{messages_at, Framing};
ghost use Rattle.batchfile.specs.Sized.{Starts, AnswersAt, measured_told, Measures, MeasuresAll, joined_of, left_of, Keeps};

use crate::frame::{Frame, frame_of, is_counted, is_framed};
use crate::message::message_end;
use ack::answer::answer_indexed;
use ack::output::put;
use grade::book::{Indexed, index_book};
use grade::limits::SECTION_LIMIT;
use grade::refusal::{Answer, Refusal};
use hl7::bytes::front;
use hl7::number::TOO_LARGE;
use hl7::place::delims_of;

const FILE_LIMIT: usize = 1048576;

// So many bytes of ACKs are kept from the first run: only messages whose ACKs do not fit are graded again.
const KEPT: usize = 65536;

// How far the messages are whose ACKs are kept: where the next begins, how many they are, and where the ACKs end.
#[derive(Clone, Copy)]
pub struct Kept {
    pub from: usize,
    pub count: usize,
    pub to: usize,
}

// By what every message of a file is answered: the book, where its sections start, as `index_book` noted them, and the stamp.
#[derive(Clone, Copy)]
pub struct Shared<'a> {
    pub book: &'a [u8],
    pub starts: &'a [usize],
    pub indexed: Indexed,
    pub stamp: &'a [u8],
    ghost noted: { Indexes book.now starts.now indexed },
}

// ---- one message
// The control number of the message that k others stand before.
fn control_at(control: usize, k: usize) -> u32
    requires { control + k < controls }
    ensures { result ≡ control + k }
{
    (control + k) as u32
}

// How long the ACK is, by an answer that had no room for it: that tells the length, or one of refusals 1 to 10.
fn measured_by(given: Answer) -> Option<usize>
    ensures { result ≡ measured_told (paper given) }
{
    match given {
        Ok(length) | Err(Refusal::ShortOutput(length)) => Some(length),
        Err(_) => None,
    }
}

impl Shared<'_> {
    // How long a message's ACK is, if the message meets none of refusals 1 to 10.
    fn measure(&self, m: &[u8], control: u32) -> Option<usize>
        ensures { Measures m.now self.now.book.now self.now.stamp.now control result }
    {
        let mut nothing = [0u8; 0];
        let given = answer_indexed(
            m,
            self.book,
            self.starts,
            self.indexed,
            self.stamp,
            control,
            &mut nothing,
        );
        measured_by(given)
    }

    // Answers a message into the output from a position on.
    fn answer_at(&self, out: &mut [u8], at: usize, m: &[u8], control: u32) -> Answer
        requires { at ≤ length out.old }
        ensures { AnswersAt m.now self.now.book.now self.now.stamp.now control out.old at result out.new }
    {
        answer_indexed(
            m,
            self.book,
            self.starts,
            self.indexed,
            self.stamp,
            control,
            &mut out[at..],
        )
    }
}

// ---- all messages
// Answers messages into a room of their own, as many as have room there, up to the first that is refused.
fn keep_front(
    room: &mut [u8],
    f: &[u8],
    at: usize,
    count: usize,
    by: &Shared<'_>,
    control: usize,
) -> Kept
    requires { Starts f.now at count × (control + count ≤ controls) }
    ensures { Keeps f.now at count by.now.book.now by.now.stamp.now control room.new result }
{
    let mut from = at;
    let mut to = 0;
    for k in 0..count {
        let end = message_end(f, from);
        let m = &f[from..end];
        let number = control_at(control, k);
        let Ok(length) = by.answer_at(room, to, m, number) else {
            return Kept { from, count: k, to };
        };
        to += length;
        from = end;
    }
    Kept { from, count, to }
}

// How long all ACKs are, or the ordinal of the first message that meets one of refusals 1 to 10.
fn measure_all(
    f: &[u8],
    at: usize,
    count: usize,
    by: &Shared<'_>,
    control: usize,
) -> Result<usize, usize>
    requires { Starts f.now at count × (control + count ≤ controls) }
    ensures { MeasuresAll (messages_at f.now at) by.now.book.now by.now.stamp.now control result }
{
    let mut from = at;
    let mut total = 0;
    for k in 0..count {
        let end = message_end(f, from);
        let m = &f[from..end];
        let number = control_at(control, k);
        let Some(length) = by.measure(m, number) else {
            return Err(k + 1);
        };
        total += length;
        from = end;
    }
    Ok(total)
}

// Writes all ACKs into the output from a position on, one after the other, and answers where the last ends.
fn put_all(
    out: &mut [u8],
    start: usize,
    f: &[u8],
    at: usize,
    count: usize,
    by: &Shared<'_>,
    control: usize,
) -> usize
    requires { Starts f.now at count × (control + count ≤ controls) × (refused_from by.now.book.now by.now.stamp.now 1 (messages_at f.now at) ≡ []) × (start + length (acks_from by.now.book.now by.now.stamp.now control (messages_at f.now at)) ≤ length out.old) }
    ensures { Wrote out.old start (acks_from by.now.book.now by.now.stamp.now control (messages_at f.now at)) out.new result }
{
    let mut from = at;
    let mut to = start;
    for k in 0..count {
        let end = message_end(f, from);
        let m = &f[from..end];
        let number = control_at(control, k);
        let given = by.answer_at(out, to, m, number);
        to += given.unwrap();
        from = end;
    }
    to
}

// The answer to messages, of which some were answered into a room already: 15 or 11 by those that are left, or all ACKs.
fn answer_left(
    out: &mut [u8],
    room: &[u8],
    kept: Kept,
    f: &[u8],
    left: usize,
    by: &Shared<'_>,
    control: usize,
) -> Answer
    requires { (kept.to ≤ length room.now) × Starts f.now kept.from left × (control + left ≤ controls) × (kept.count + left ≤ controls) }
    ensures { Gives result out.new (left_of (take kept.to room.now) kept.count (messages_at f.now kept.from) by.now.book.now by.now.stamp.now control out.old) }
{
    let from = kept.from;
    let total = match measure_all(f, from, left, by, control) {
        Ok(total) => total,
        Err(ordinal) => return Err(Refusal::WrongMessage(kept.count + ordinal)),
    };
    let need = kept.to + total;
    if out.len() < need {
        return Err(Refusal::ShortOutput(need));
    }
    let to = put(out, 0, front(room, kept.to));
    Ok(put_all(out, to, f, from, left, by, control))
}

// The answer to the messages that begin at a position. The book is looked at once for all, and not at all where there is none.
fn answer_messages(
    out: &mut [u8],
    f: &[u8],
    at: usize,
    count: usize,
    book: &[u8],
    stamp: &[u8],
    control: usize,
) -> Answer
    requires { Starts f.now at count × (control + count ≤ controls) }
    ensures { Gives result out.new (joined_of (messages_at f.now at) book.now stamp.now control out.old) }
{
    if count == 0 {
        return Ok(0);
    }
    let mut starts = [0usize; SECTION_LIMIT];
    let indexed = index_book(book, &mut starts);
    let by = Shared {
        book,
        starts: &starts,
        indexed,
        stamp,
    };
    let mut room = [0u8; KEPT];
    let kept = keep_front(&mut room, f, at, count, &by, control);
    let left = count - kept.count;
    let next = control + kept.count;
    answer_left(out, &room, kept, f, left, &by, next)
}

// ---- the whole file
// Whether the shape, the counts and the control numbers of a file are right.
fn is_right(f: &[u8], frame: Frame, control: usize) -> bool
    requires { Framing f.now frame × (length f.now ≤ file_limit) × (control < controls) }
    ensures { result ≡ not (is_wrong f.now control) }
{
    let d = delims_of(f);
    is_framed(d, f, frame) & is_counted(d, f, frame) & (control + frame.count <= TOO_LARGE)
}

// The answer to a batch file: the ACKs of its messages, joined, in the first bytes of the output, or the first refusal that applies, which alters nothing.
pub fn answer_batch(f: &[u8], book: &[u8], stamp: &[u8], control: u32, out: &mut [u8]) -> Answer
    ensures { Gives result out.new (batch_of f.now book.now stamp.now control out.old) }
{
    if FILE_LIMIT < f.len() {
        return Err(Refusal::WrongFile);
    }
    let frame = frame_of(f);
    let first = control as usize;
    if !is_right(f, frame, first) {
        return Err(Refusal::WrongFile);
    }
    answer_messages(out, f, frame.start, frame.count, book, stamp, first)
}
