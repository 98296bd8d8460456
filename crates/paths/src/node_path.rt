// node_path.rs: paths as numbers.
ghost use Rattle.std.specs.Prelude.{◌≡◌, ◌+◌, ◌*◌, ◌%◌, ◌^◌, ◌≤◌, ◌<◌, length};
ghost use Rattle.meaning.specs.Number.{number, node_path_index, compose_paths};
ghost use Rattle.paths.specs.Wide.{Holds};

use crate::casts::{Number, bigint_from_bytes, measured, negative, shortest_signed, unsigned};
use crate::turns::below_top;

// `NodePath::new` of the signed number of the bytes.
pub fn node_path_index(b: &[u8]) -> Number
    requires { length b.now ≤ 65 }
    ensures { Holds (node_path_index b.now) result }
{
    if negative(b) {
        let s = shortest_signed(b);
        return measured(bigint_from_bytes(s), 65 - s.len());
    }
    unsigned(b)
}

// q is shifted left by n bits, and the lower n bits of x go in.
fn joined(q: u8, x: u8, n: usize) -> u16
    requires { n < 8 }
    ensures { result ≡ q * 2 ^ n + x % 2 ^ n }
{
    let mask = (1u16 << n) - 1;
    (u16::from(q) << n) | (u16::from(x) & mask)
}

// path_1 is shifted left by the number of bits below the top bit of path_0, and path_0's lower bits go in. The length says which byte has
// the top bit. All bytes after it stay; path_1 goes into it, above its lower bits, and what goes over into the byte before it.
pub fn compose_paths(path_0: Number, path_1: u8) -> Number
    requires holds { Holds (number path_0.bytes) path_0 }
    requires bytes_bound { number path_0.bytes < 256 ^ 64 }
    ensures { Holds (compose_paths (number path_0.bytes) path_1) result }
{
    let Number { mut bytes, len } = path_0;
    if len == 0 {
        return unsigned(&[path_1]);
    }
    let at = 65 - len;
    let top = bytes[at];
    let [over, here] = joined(path_1, top, below_top(top)).to_be_bytes();
    bytes[at] = here;
    bytes[at - 1] = over;
    measured(bytes, at - 1)
}
