// casts.rs: the conversions between an atom's bytes and a number.
ghost use Rattle.std.specs.Prelude.{◌≡◌, ◌≤◌, ◌<◌, eqb, length, get_or};
ghost use Rattle.meaning.specs.Number.{number, negative, bigint_from_bytes, shortest_signed, bytes_of};
ghost use Rattle.paths.specs.Fours.{turned};
ghost use Rattle.paths.specs.Wide.{Wide, Zeros, Shortest, Holds};

// A number below 256 ^ 65: its bytes are big-endian and right-aligned with zeros before them, and the last `len` are its shortest.
// The byte over the 64 of an atom is for the path that the path rule makes of one.
#[derive(Clone, Copy)]
pub struct Number {
    pub bytes: [u8; 65],
    pub len: usize,
}

// The top bit is set: `number_from_u8` reads the bytes as a number below 0.
pub(crate) fn negative(b: &[u8]) -> bool
    ensures { result ≡ negative b.now }
{
    matches!(b, [128..=255, ..])
}

// Where the shortest unsigned bytes start: how many zeros stand in front.
pub(crate) fn zeros(b: &[u8]) -> usize
    ensures { Shortest b.now result }
{
    b.iter().position(|x| *x != 0).unwrap_or(b.len())
}

// The unsigned number is 0.
pub fn is_zero(b: &[u8]) -> bool
    ensures { result ≡ eqb (number b.now) 0 }
{
    zeros(b) == b.len()
}

// The unsigned number's shortest bytes, none for 0.
pub fn bigint_to_bytes_unsigned(b: &[u8]) -> &[u8]
    ensures { result.now ≡ bytes_of (number b.now) }
{
    &b[zeros(b)..]
}

// Both have the same unsigned number: their shortest bytes are the same.
pub(crate) fn same_number(a: &[u8], b: &[u8]) -> bool
    ensures { result ≡ eqb (number a.now) (number b.now) }
{
    bigint_to_bytes_unsigned(a) == bigint_to_bytes_unsigned(b)
}

// 65 bytes, with the count of their number's shortest ones. These start at index `from` or later.
pub(crate) fn measured(bytes: [u8; 65], from: usize) -> Number
    requires { Zeros bytes from }
    ensures { Holds (number bytes) result }
{
    let len = 65 - from - zeros(&bytes[from..]);
    Number { bytes, len }
}

// The bytes at the right end of 65.
pub(crate) fn placed(b: &[u8]) -> [u8; 65]
    requires { length b.now ≤ 65 }
    ensures { Wide (number b.now) result }
{
    let mut r = [0; 65];
    r[65 - b.len()..].copy_from_slice(b);
    r
}

// The unsigned number of the bytes.
pub fn unsigned(b: &[u8]) -> Number
    requires { length b.now ≤ 65 }
    ensures { Holds (number b.now) result }
{
    measured(placed(b), 65 - b.len())
}

// `bigint_to_bytes_clvm` of a number below 0: a leading ff goes where the next byte has the sign too.
pub(crate) fn shortest_signed(b: &[u8]) -> &[u8]
    ensures { result.now ≡ shortest_signed b.now }
{
    let mut s = b;
    while let [255, 128..=255, ..] = s {
        s = &s[1..];
    }
    s
}

// The byte that `get_u32` brings to index i: it takes each group of four, counted from the end, low byte first.
pub(crate) fn turned_at(b: &[u8], i: usize) -> u8
    requires { i < length b.now }
    ensures { result ≡ get_or (turned b.now) i 0 }
{
    let remain = b.len() % 4;
    if i < remain {
        return b[i];
    }
    let j = i - remain;
    let from = remain + j / 4 * 4 + (3 - j % 4);
    b[from]
}

// The Rust's number without the option `signed`, at the right end of 65 bytes.
pub(crate) fn bigint_from_bytes(b: &[u8]) -> [u8; 65]
    requires { length b.now ≤ 65 }
    ensures { Wide (bigint_from_bytes b.now) result }
{
    let mut r = [0; 65];
    let base = 65 - b.len();
    for i in 0..b.len() {
        r[base + i] = turned_at(b, i);
    }
    r
}
