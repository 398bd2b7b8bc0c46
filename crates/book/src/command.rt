// What the command line asks for.
ghost use Rattle.std.specs.Prelude.{◌≡◌};
ghost use Rattle.book.specs.Command.{command_of};

use hl7::bytes::same_bytes;

#[derive(Clone, Copy)]
pub enum Command {
    Compile,
    Check,
    Show,
    Legend,
    Diff,
    Unknown,
}

// By how many words the command line has, the program's own among them, and the one after that.
pub(crate) fn command_of(count: usize, verb: &[u8]) -> Command
    ensures { result ≡ command_of count verb.now }
{
    if (count == 4) & same_bytes(verb, b"compile") {
        return Command::Compile;
    }
    if (count == 3) & same_bytes(verb, b"check") {
        return Command::Check;
    }
    if (count == 3) & same_bytes(verb, b"show") {
        return Command::Show;
    }
    if (count == 3) & same_bytes(verb, b"legend") {
        return Command::Legend;
    }
    if (count == 4) & same_bytes(verb, b"diff") {
        return Command::Diff;
    }
    Command::Unknown
}
