// The path rule's path from an atom of any length, which first shrinks to what counts of it: a path of over 64 bytes is refused, so
// numbers 65 bytes wide are enough.
ghost use Rattle.std.specs.Prelude.{◌≡◌, true, false, ◌≤◌, ◌<◌};
ghost use Rattle.meaning.specs.Number.{negative};
ghost use Rattle.paths.specs.Lengthens.{Lengthens};

use crate::casts::{
    Number, bigint_to_bytes_unsigned, negative, same_number, shortest_signed, unsigned,
};
use crate::node_path::{compose_paths, node_path_index};

// What the path rule makes of an atom: the longer path, and whether the atom's index differs from its unsigned number.
#[derive(Clone, Copy)]
pub struct Lengthened {
    pub path: Number,
    pub misread: bool,
}

// Some path of over 64 bytes.
fn over_long() -> Lengthened
    ensures { 64 < result.path.len }
{
    let path = Number {
        bytes: [255; 65],
        len: 65,
    };
    Lengthened {
        path,
        misread: false,
    }
}

// From an atom with a signed number below 0.
fn longer_negative(b: &[u8], q: u8) -> Lengthened
    requires { (negative b.now ≡ true) × (1 ≤ q) }
    ensures { Lengthens b.now q result }
{
    let s = shortest_signed(b);
    if 64 < s.len() {
        return over_long();
    }
    let index = node_path_index(s);
    let misread = !same_number(&index.bytes, b);
    let path = compose_paths(index, q);
    Lengthened { path, misread }
}

// From any other atom, whose index is its unsigned number.
fn longer_positive(b: &[u8], q: u8) -> Lengthened
    requires { (negative b.now ≡ false) × (1 ≤ q) }
    ensures { Lengthens b.now q result }
{
    let s = bigint_to_bytes_unsigned(b);
    if 64 < s.len() {
        return over_long();
    }
    let path = compose_paths(unsigned(s), q);
    Lengthened {
        path,
        misread: false,
    }
}

// `NodePath::new(..).add(..)`, or some path of over 64 bytes where that one has over 64.
pub fn lengthen(b: &[u8], q: u8) -> Lengthened
    requires { 1 ≤ q }
    ensures { Lengthens b.now q result }
{
    if negative(b) {
        longer_negative(b, q)
    } else {
        longer_positive(b, q)
    }
}
