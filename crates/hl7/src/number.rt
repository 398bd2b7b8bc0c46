// The value of decimal digits, one digit after the other.
ghost use Rattle.std.specs.Prelude.{◌≡◌, min};
ghost use Rattle.hl7.specs.Bytes.{is_digit, all};
ghost use Rattle.hl7.specs.Counted.{too_large, with_digit};
ghost use Rattle.hl7.specs.Number.{value_of};

// One past the largest number of 32 bits.
pub const TOO_LARGE: usize = 0x1_0000_0000;

// A value with one digit more. A value that is capped already is capped again, which shows that ten times it fits.
pub fn with_digit(value: usize, digit: u8) -> usize
    ensures { result ≡ with_digit value digit }
{
    let more = 10 * value.min(TOO_LARGE) + usize::from(digit.saturating_sub(b'0'));
    more.min(TOO_LARGE)
}

// Whether bytes are all digits, and their value, as far as values are told apart. No Option: the value is told of any bytes, digits or not.
#[derive(Clone, Copy)]
pub struct Digits {
    pub all: bool,
    pub value: usize,
}

pub fn read_digits(text: &[u8]) -> Digits
    ensures { (result.all ≡ all is_digit text.now) × (result.value ≡ min (value_of text.now) too_large) }
{
    let mut all = true;
    let mut value = 0;
    for x in text {
        all &= x.is_ascii_digit();
        value = with_digit(value, *x);
    }
    Digits { all, value }
}
