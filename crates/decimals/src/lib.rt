// Decimal whole numbers as shortest signed bytes, which are placed at the room's end.
#![tactic(auto)]

ghost use Rattle.std.specs.Prelude.{◌≡◌, true, ◌+◌, ◌-◌, ◌*◌, ◌^◌, ◌≤◌, ◌<◌, length, drop};
ghost use Rattle.std.proofs.Math.Option.{some};
ghost use Rattle.meaning.specs.Number.{minus, number, bytes_of};
ghost use Rattle.notation.specs.Words.{and_then, signed_word, signed_bytes, with_sign, turned_over};
ghost use Rattle.decimals.specs.Digits.{digits, some_digits, value_from, Chunk};
ghost use Rattle.decimals.specs.Places.{Holds, Times, Before, Holding, Less, Past, Ends};
ghost use Rattle.decimals.specs.Spelling.{Counting, Spelling, digits_spelt};

// Where the bytes begin, which go on to the room's end; that there are more than a form may have; or that a word spells nothing.
// the new form is no plainer: three answers, and neither Option nor Result has three.
#[derive(Clone, Copy)]
pub enum Spelled {
    From(usize),
    Long,
    Nothing,
}

// Digits that are worked at once: 256 times ten to this power fits 64 bits.
const CHUNK: usize = 16;

// A number of more bytes has, with a minus sign too, more bytes than a form may have.
const MOST: usize = 8193;

// ---- digits

// Whether all bytes are digits, and there is one.
fn some_digits(w: &[u8]) -> bool
    ensures { result ≡ some_digits w.now }
{
    !w.is_empty() && w.iter().all(|c| c.is_ascii_digit())
}

// The number of the digits from at to end, 16 of them at most.
fn chunk(w: &[u8], at: usize, end: usize) -> u64
    requires { (at ≤ end) × (end ≤ length w.now) × (end ≤ at + 16) × (digits (drop at w.now) ≡ true) }
    ensures { Chunk w.now at end result }
{
    let mut n = 0;
    for i in at..end {
        n = n * 10 + u64::from(w[i] - b'0');
    }
    n
}

// ---- the number at the room's end

// The number from at on becomes m times itself and d more; what does not fit its bytes is given back.
fn times_plus(room: &mut [u8], at: usize, m: u64, d: u64) -> u64
    requires { (at ≤ length room.old) × (d < m) × (m ≤ 10 ^ 16) }
    ensures { Times m d room.old room.new at result }
{
    let mut carry = d;
    for i in (at..room.len()).rev() {
        let t = u64::from(room[i]) * m + carry;
        room[i] = (t % 256) as u8;
        carry = t / 256;
    }
    carry
}

// The bytes of a number before those from at on.
fn before(room: &mut [u8], at: usize, n: u64) -> usize
    requires { (at ≤ length room.old) × (n < 256 ^ at) }
    ensures { Before n room.old room.new at result }
{
    let mut i = at;
    let mut left = n;
    while 0 < left {
        i -= 1;
        room[i] = (left % 256) as u8;
        left /= 256;
    }
    i
}

// The number from at on becomes m times itself and d more, in its shortest bytes.
fn extended(room: &mut [u8], at: usize, m: u64, d: u64) -> usize
    requires { Holds (number (drop at room.old)) room.old at × (d < m) × (m ≤ 10 ^ 16) × (m ≤ 256 ^ at) }
    ensures { Holding (m * number (drop at room.old) + d) room.old room.new result }
{
    let carry = times_plus(room, at, m, d);
    before(room, at, carry)
}

// Where the digits' number begins in its shortest bytes, which go on to the room's end; none where these are more than a form may have.
fn number(w: &[u8], room: &mut [u8]) -> Option<usize>
    requires { (length w.now ≤ length room.old) × (digits w.now ≡ true) }
    ensures { Counting (value_from 0 w.now) (length w.now) room.old room.new result }
{
    let mut at = room.len();
    let mut i = 0;
    while i < w.len() {
        if MOST < room.len() - at {
            return None;
        }
        let k = CHUNK.min(w.len() - i);
        at = extended(room, at, 10u64.pow(k as u32), chunk(w, i, i + k));
        i += k;
    }
    Some(at)
}

// ---- signs

// The number's shortest bytes from at on, with a zero byte before them where their top bit is set.
fn with_sign(room: &mut [u8], at: usize) -> usize
    requires { Holds (number (drop at room.old)) room.old at × (0 < at) }
    ensures { Ends (with_sign (bytes_of (number (drop at room.old)))) room.old room.new result }
{
    if at < room.len() && 0x80 <= room[at] {
        room[at - 1] = 0;
        return at - 1;
    }
    at
}

// One less: the number from at on is not 0. Zeros at its end become ff, and the byte before them falls.
fn less_one(room: &mut [u8], at: usize)
    requires { (at ≤ length room.old) × (1 ≤ number (drop at room.old)) }
    ensures { Less room.old room.new at }
{
    for i in (at..room.len()).rev() {
        if room[i] != 0 {
            room[i] -= 1;
            return;
        }
        room[i] = 255;
    }
}

// Past a zero byte.
fn past_zero(room: &[u8], at: usize) -> usize
    requires { (at < length room.now) × (256 ^ (length room.now - (at + 1)) ≤ number (drop at room.now) + 1) }
    ensures { Past room.now at result }
{
    if room[at] == 0 { at + 1 } else { at }
}

// Every bit the other way, from at on.
fn turn_over(room: &mut [u8], at: usize)
    requires { at ≤ length room.old }
    ensures { Ends (turned_over (drop at room.old)) room.old room.new at }
{
    for b in room[at..].iter_mut() {
        *b = !*b;
    }
}

// The bytes of minus the number from at on.
fn negate(room: &mut [u8], at: usize) -> usize
    requires { Holds (number (drop at room.old)) room.old at × (0 < at) }
    ensures { Ends (signed_bytes (minus (number (drop at room.old)))) room.old room.new result }
{
    if at == room.len() {
        return at;
    }
    less_one(room, at);
    let top = past_zero(room, at);
    if top == room.len() {
        room[at] = 255;
        return at;
    }
    let from = with_sign(room, top);
    turn_over(room, from);
    from
}

// The shortest signed bytes of the digits' number, or of minus this number.
fn spell(w: &[u8], below: bool, room: &mut [u8]) -> Spelled
    requires { length w.now < length room.old }
    ensures { Spelling (digits_spelt below w.now) room.old room.new result }
{
    if !some_digits(w) {
        return Spelled::Nothing;
    }
    match number(w, room) {
        None => Spelled::Long,
        Some(at) if below => Spelled::From(negate(room, at)),
        Some(at) => Spelled::From(with_sign(room, at)),
    }
}

// The shortest signed bytes of a decimal word.
pub fn signed_word(w: &[u8], room: &mut [u8]) -> Spelled
    requires { length w.now < length room.old }
    ensures { Spelling (and_then (signed_word w.now) λ s. some (signed_bytes s)) room.old room.new result }
{
    match w.strip_prefix(b"-") {
        Some(digits) => spell(digits, true, room),
        None => spell(w, false, room),
    }
}
