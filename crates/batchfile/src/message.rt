// The segments and messages of a batch file, one after the other: where each ends.
ghost use Rattle.std.specs.Prelude.{◌≡◌};
ghost use Rattle.batchfile.specs.Messages.{is_frame};
ghost use Rattle.batchfile.specs.Walk.{LineEnds, MessageEnds};

use hl7::bytes::begins_with;
use hl7::cut::find_far;
use hl7::place::is_msh;

// Where the segment that begins at a position ends: after its CR, or at the end of the file.
pub(crate) fn line_end(f: &[u8], at: usize) -> usize
    ensures { LineEnds f.now at result }
{
    let end = find_far(f, b'\r', at);
    if end < f.len() {
        return end + 1;
    }
    end
}

// Whether a segment has one of the four frame names.
pub(crate) fn is_frame(line: &[u8]) -> bool
    ensures { result ≡ is_frame line.now }
{
    begins_with(line, b"FHS")
        | begins_with(line, b"BHS")
        | begins_with(line, b"BTS")
        | begins_with(line, b"FTS")
}

// Where the message that begins at a position ends: at the next MSH or frame name, or at the end of the file.
pub(crate) fn message_end(f: &[u8], at: usize) -> usize
    ensures { MessageEnds f.now at result }
{
    let mut end = line_end(f, at);
    while end < f.len() {
        let next = line_end(f, end);
        let line = &f[end..next];
        if is_frame(line) | is_msh(line) {
            return end;
        }
        end = next;
    }
    end
}
