// The line of standard input, read byte by byte. What is kept of it has one size for lines of any length.
ghost use Rattle.std.specs.Prelude.{◌≡◌, List, ◌++◌, ◌∷◌, [], ℕ, min, length};
ghost use Rattle.line.specs.Fed.{head_length, Heads, Items, Fed, Says};

use hl7::bytes::is_within;
use hl7::number::{Digits, TOO_LARGE, with_digit};

// One byte more than a stamp has.
const HEAD_LENGTH: usize = 20;

// The first bytes of the line, and how many there are. Memory is fixed: no list grows.
#[derive(Clone, Copy)]
pub struct Head {
    pub bytes: [u8; 20],
    pub count: usize,
}

// How many of the head's bytes stand before the last space, if there is one. What stands after it: whether
// there is a byte, whether all are digits, and the value of any bytes, counted up to one past the largest control number.
#[derive(Clone, Copy)]
pub struct Item {
    pub stamp: Option<usize>,
    pub filled: bool,
    pub number: Digits,
}

// What is kept of the input: whether its line has ended, and the line.
#[derive(Clone, Copy)]
pub struct State {
    pub ended: bool,
    pub head: Head,
    pub item: Item,
}

// A line that can be used; the stamp is the first so many bytes of the head.
#[derive(Clone, Copy)]
pub struct Line {
    pub control: u32,
    pub stamp: usize,
}

impl Head {
    // One byte more, if there is room.
    fn push(mut self, byte: u8) -> Head
        ensures { (line : List ℕ) → Heads line self → Heads (line ++ (byte ∷ [])) result }
    {
        let at = self.count;
        if at < HEAD_LENGTH {
            self.bytes[at] = byte;
            self.count = at + 1;
        }
        self
    }
}

impl Item {
    // One byte more on a line that has so many bytes in its head.
    fn push(self, byte: u8, count: usize) -> Item
        ensures { (line : List ℕ) → Items line self → count ≡ min (length line) head_length → Items (line ++ (byte ∷ [])) result }
    {
        if byte == b' ' {
            return Item {
                stamp: Some(count),
                filled: false,
                number: Digits {
                    all: true,
                    value: 0,
                },
            };
        }
        Item {
            stamp: self.stamp,
            filled: true,
            number: Digits {
                all: self.number.all & is_within(byte, b'0', b'9'),
                value: with_digit(self.number.value, byte),
            },
        }
    }
}

// Nothing was read yet.
pub fn start() -> State
    ensures { Fed [] result }
{
    State {
        ended: false,
        head: Head {
            bytes: [0; 20],
            count: 0,
        },
        item: Item {
            stamp: None,
            filled: false,
            number: Digits {
                all: true,
                value: 0,
            },
        },
    }
}

impl State {
    // One byte more.
    fn push(self, byte: u8) -> State
        ensures { (input : List ℕ) → Fed input self → Fed (input ++ (byte ∷ [])) result }
    {
        if self.ended {
            return self;
        }
        let head = self.head;
        let item = self.item;
        if byte == b'\n' {
            return State {
                ended: true,
                head,
                item,
            };
        }
        State {
            ended: false,
            head: head.push(byte),
            item: item.push(byte, head.count),
        }
    }
}

// All bytes of a chunk of the input.
pub fn feed(state: State, chunk: &[u8]) -> State
    ensures { (input : List ℕ) → Fed input state → Fed (input ++ chunk.now) result }
{
    let mut fed = state;
    for byte in chunk {
        fed = fed.push(*byte);
    }
    fed
}

// What the line of the input says; none where it is bad.
pub fn line_says(state: State) -> Option<Line>
    ensures { Says state result }
{
    let stamp = state.item.stamp?;
    let number = state.item.number;
    if state.item.filled & number.all & (number.value < TOO_LARGE) {
        return Some(Line {
            control: number.value as u32,
            stamp,
        });
    }
    None
}
