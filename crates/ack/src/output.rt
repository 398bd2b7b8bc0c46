// Bytes written into an output that the caller lends. What would lie past the output's end is dropped and counted all the same; and nothing here has a
// `requires`, so that a caller has nothing to show.
ghost use Rattle.std.specs.Prelude.{◌≡◌, ◌∷◌, [], ◌+◌, ◌-◌, ◌<◌, ◌≤◌, min, length};
ghost use Rattle.ack.specs.Splice.{Wrote, limit};
ghost use Rattle.ack.specs.Decimal.{decimal, digit};

// No index of an output reaches this one.
const LIMIT: usize = 0x8000_0000_0000_0000;

// The index so many bytes after at, counted up to LIMIT.
pub(crate) fn advanced(at: usize, count: usize) -> usize
    requires { count < limit }
    ensures { result ≡ min (at + count) limit }
{
    at.saturating_add(count).min(LIMIT)
}

// How many of so many bytes lie within an output of this length, from at on.
pub(crate) fn fitting(length: usize, at: usize, count: usize) -> usize
    ensures { result ≡ min count («length» - at) }
{
    count.min(length.saturating_sub(at))
}

// One byte; the answer is the index after it.
pub fn put_byte(out: &mut [u8], at: usize, byte: u8) -> usize
    ensures { Wrote out.old at (byte ∷ []) out.new result }
{
    let next = advanced(at, 1);
    if at < out.len() {
        out[at] = byte;
    }
    next
}

// All of bytes: those that fit are found first, and copied in one go. The answer is the index after the last.
pub fn put(out: &mut [u8], at: usize, bytes: &[u8]) -> usize
    ensures { Wrote out.old at bytes.now out.new result }
{
    let next = advanced(at, bytes.len());
    let n = fitting(out.len(), at, bytes.len());
    if 0 < n {
        out[at..at + n].copy_from_slice(&bytes[..n]);
    }
    next
}

// An output that the caller lends, and where in it the next byte goes, counted up to LIMIT.
#[derive(Drop)]
pub struct Output<'a> {
    pub bytes: &'a mut [u8],
    pub at: usize,
    ghost counted: { at ≤ limit },
}

impl Output<'_> {
    ghost use Rattle.std.specs.Prelude.{◌≡◌, List, ◌∷◌, [], ℕ, ◌<◌, ◌≤◌, length};
    ghost use Rattle.ack.specs.Splice.{limit};
    ghost use Rattle.ack.specs.Output.{Adds};
    ghost use Rattle.ack.specs.Decimal.{decimal};

    // One byte.
    pub fn put_byte(&mut self, byte: u8)
        ensures { Adds self.old (byte ∷ []) self.new }
    {
        self.at = put_byte(self.bytes, self.at, byte);
    }

    // All of bytes.
    pub fn put(&mut self, bytes: &[u8])
        ensures { Adds self.old bytes.now self.new }
    {
        self.at = put(self.bytes, self.at, bytes);
    }

    // So many bytes past the end, which are counted alone.
    pub(crate) fn pass(&mut self, count: usize)
        requires { (length self.old.bytes.now ≤ self.old.at) × (count < limit) }
        ensures { (bytes : List ℕ) → length bytes ≡ count → Adds self.old bytes self.new }
    {
        self.at = advanced(self.at, count);
    }

    // n in decimal notation.
    fn put_decimal(&mut self, n: usize)
        ensures { Adds self.old (decimal n) self.new }
    {
        if n < 10 {
            self.put_byte(48 + n as u8);
        } else {
            self.put_decimal(n / 10);
            self.put_byte(48 + (n % 10) as u8);
        }
    }

    // A mark, and then all of bytes.
    pub fn put_field(&mut self, mark: u8, bytes: &[u8])
        ensures { Adds self.old (mark ∷ bytes.now) self.new }
    {
        self.put_byte(mark);
        self.put(bytes);
    }

    // A mark, and n in decimal notation.
    pub fn put_number(&mut self, mark: u8, n: usize)
        ensures { Adds self.old (mark ∷ decimal n) self.new }
    {
        self.put_byte(mark);
        self.put_decimal(n);
    }
}

// How many digits n has: nearly every number has one.
pub(crate) fn decimal_length(n: usize) -> usize
    ensures { (result ≡ length (decimal n)) × (result ≤ 20) }
{
    if n < 10 {
        return 1;
    }
    1 + n.ilog10() as usize
}
