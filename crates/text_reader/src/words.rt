// The atom of a word: a name in operator place, hex, or a decimal number. Its bytes are placed at the room's end.
ghost use Rattle.std.specs.Prelude.{◌≡◌, ◌≤◌, ◌<◌, length, drop};
ghost use Rattle.notation.specs.Words.{named, hex_bytes, word_bytes};
ghost use Rattle.decimals.specs.Spelling.{Spelling};
ghost use Rattle.text_reader.specs.Digits.{operator, found, named_by, hex_pair, Digit, Begins};

use decimals::Spelled;
use notation::{NAMES, Place};

// The number of the operator that a byte names.
fn operator_of(c: u8) -> Option<u8>
    ensures { named_by c ≡ operator result }
{
    for (i, name) in NAMES.iter().enumerate() {
        if c == *name {
            return Some(i as u8 + 1);
        }
    }
    None
}

// The number of the operator that a word names at a place.
#[tactic(auto, unfolding(notation::specs::Words::named, notation::specs::Words::and_then, crate::specs::Digits::named_by, crate::specs::Digits::operator))]
fn named(p: Place, w: &[u8]) -> Option<u8>
    ensures { named p w.now ≡ operator result }
{
    match (p, w) {
        (Place::Operator, [c]) => operator_of(*c),
        _ => None,
    }
}

// A hex digit's value.
fn hex_value(c: u8) -> Option<u8>
    ensures { Digit c result }
{
    match c {
        b'0'..=b'9' => Some(c - b'0'),
        b'A'..=b'F' => Some(c - b'A' + 10),
        b'a'..=b'f' => Some(c - b'a' + 10),
        _ => None,
    }
}

// Whether a word begins with 0x and has something after it.
fn begins_hex(w: &[u8]) -> bool
    ensures { Begins w.now result }
{
    matches!(w, [b'0', b'x', _, ..])
}

// Two digits as a byte.
#[tactic(auto, unfolding(crate::specs::Digits::hex_pair, crate::specs::Digits::found, crate::specs::Digits::Small, notation::specs::Words::and_then))]
fn hex_pair(c: u8, d: u8) -> Option<u8>
    ensures { hex_pair c d ≡ found result }
{
    let high = hex_value(c)?;
    let low = hex_value(d)?;
    Some(high * 16 + low)
}

// The bytes of the digits after 0x, at the room's end.
fn hex_bytes(w: &[u8], room: &mut [u8]) -> Spelled
    requires { (3 ≤ length w.now) × (length w.now < length room.old) }
    ensures { Spelling (hex_bytes (drop 2 w.now)) room.old room.new result }
{
    let n = (w.len() - 2) / 2;
    if w.len() % 2 == 1 {
        return Spelled::Nothing;
    }
    let from = room.len() - n;
    for i in 0..n {
        let Some(b) = hex_pair(w[2 + 2 * i], w[3 + 2 * i]) else {
            return Spelled::Nothing;
        };
        room[from + i] = b;
    }
    Spelled::From(from)
}

// The atom that a word stands for at a place.
pub(crate) fn word_bytes(p: Place, w: &[u8], room: &mut [u8]) -> Spelled
    requires { length w.now < length room.old }
    ensures { Spelling (word_bytes p w.now) room.old room.new result }
{
    if let Some(k) = named(p, w) {
        let from = room.len() - 1;
        room[from] = k;
        return Spelled::From(from);
    }
    if begins_hex(w) {
        return hex_bytes(w, room);
    }
    decimals::signed_word(w, room)
}
