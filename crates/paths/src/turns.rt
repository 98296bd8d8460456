// A path's turns, read off the atom's bytes: false is left, true is right, the lowest bit first.
ghost use Rattle.std.specs.Prelude.{◌≡◌, false, ◌/◌, ◌%◌, ◌^◌, ◌<◌, eqb, length, get_or};
ghost use Rattle.meaning.specs.Number.{number, turns};
ghost use Rattle.meaning.specs.Substitute.{sub_turns, is_low};

use crate::casts::{is_zero, negative, zeros};

// How many bits stand below the top bit of a byte: none for 0.
pub(crate) fn below_top(x: u8) -> usize
    ensures { result ≡ length (turns x) }
{
    if x == 0 {
        0
    } else {
        (7 - x.leading_zeros()) as usize
    }
}

// How many turns the unsigned number has: the bits below its top bit.
pub fn turn_count(b: &[u8]) -> usize
    requires { length b.now < 2 ^ 60 }
    ensures { result ≡ length (turns (number b.now)) }
{
    let z = zeros(b);
    if z == b.len() {
        return 0;
    }
    (b.len() - 1 - z) * 8 + below_top(b[z])
}

// Bit k of a byte.
pub(crate) fn bit(x: u8, k: usize) -> bool
    requires { k < 8 }
    ensures { result ≡ eqb (x / 2 ^ k % 2) 1 }
{
    (x >> k) & 1 == 1
}

// Turn i of the unsigned number.
pub fn turn(b: &[u8], i: usize) -> bool
    requires { i < length (turns (number b.now)) }
    ensures { result ≡ get_or (turns (number b.now)) i false }
{
    let at = b.len() - 1 - i / 8;
    bit(b[at], i % 8)
}

// How many turns substitution takes, which reads the signed number: none where it is 1 or less.
pub fn sub_turn_count(b: &[u8]) -> usize
    requires { length b.now < 2 ^ 60 }
    ensures { result ≡ length (sub_turns b.now) }
{
    if negative(b) { 0 } else { turn_count(b) }
}

// The signed number is 0 or less.
pub fn is_low(b: &[u8]) -> bool
    ensures { result ≡ is_low b.now }
{
    negative(b) || is_zero(b)
}
