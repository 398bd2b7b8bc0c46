// Bytes of a lent slice. These functions are total, so that whoever calls them has nothing to show.
ghost use Rattle.std.specs.Prelude.{◌≡◌, cond, get_or, take, drop};
ghost use Rattle.hl7.specs.Bytes.{within, same, begins};

// One value or the other, without a branch.
pub fn pick<T: Copy>(test: bool, yes: T, otherwise: T) -> T
    ensures { result ≡ cond test yes otherwise }
{
    if test {
        return yes;
    }
    otherwise
}

// Whether a byte is from low to high.
pub fn is_within(b: u8, low: u8, high: u8) -> bool
    ensures { result ≡ within low high b }
{
    (low <= b) & (b <= high)
}

// The byte at a position, 0 past the end: the library's word, with the contract that callers need.
pub fn byte_at(v: &[u8], at: usize) -> u8
    ensures { result ≡ get_or v.now at 0 }
{
    v.get(at).copied().unwrap_or(0)
}

// All bytes from a position on.
pub fn after(v: &[u8], from: usize) -> &[u8]
    ensures { result.now ≡ drop from v.now }
{
    &v[from.min(v.len())..]
}

// The first so many bytes.
pub fn front(v: &[u8], count: usize) -> &[u8]
    ensures { result.now ≡ take count v.now }
{
    &v[..count.min(v.len())]
}

// Whether two slices hold the same bytes: `==`, in the documents' word for it, which the definitions use.
pub fn same_bytes(v: &[u8], w: &[u8]) -> bool
    ensures { result ≡ same v.now w.now }
{
    v == w
}

// Whether s begins with the bytes p: `starts_with`, likewise.
pub fn begins_with(s: &[u8], p: &[u8]) -> bool
    ensures { result ≡ begins p.now s.now }
{
    s.starts_with(p)
}
