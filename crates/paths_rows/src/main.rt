// Rows of paths: a line of hex in, a line out. The first byte says what is asked of the bytes from the third on; the second byte is q.
//   01  `compose_paths` of their unsigned number and q
//   02  `NodePath::new`'s index of their signed number
//   03  the path rule's longer path: `misread` where the index is not the unsigned number, `too long` where it has over 64 bytes
//   04  the turns, `l` and `r`: `low` for a signed number of 0 or less, `fewer` where substitution takes fewer of them
// Bytes are printed in hex, and `-` where there are none. A line that is no such row, or has over 64 bytes, prints `no row`.
#![tactic(auto)]

ghost use Rattle.std.specs.Prelude.{◌≤◌, length};
ghost use Rattle.lines.specs.Text.{line_most};

use lines::{Got, Lines, Spelling};
use paths::Number;
use std::io::Stdin;

// A number's shortest bytes, as many as it says.
fn print_number(n: Number, text: &mut [u8], at: usize) -> usize
    requires { n.len ≤ 65 }
{
    if n.len == 0 {
        return lines::print_word(text, at, b"-");
    }
    lines::print_hex(text, at, &n.bytes[65 - n.len..])
}

fn print_composed(p: &[u8], q: u8, text: &mut [u8], at: usize) -> usize
    requires { length p.now ≤ 64 }
{
    print_number(paths::compose_paths(paths::unsigned(p), q), text, at)
}

fn print_index(b: &[u8], text: &mut [u8], at: usize) -> usize
    requires { length b.now ≤ 64 }
{
    print_number(paths::node_path_index(b), text, at)
}

// A word, or nothing.
fn print_if(yes: bool, word: &[u8], text: &mut [u8], at: usize) -> usize {
    if yes {
        lines::print_word(text, at, word)
    } else {
        at
    }
}

fn print_longer(b: &[u8], q: u8, text: &mut [u8], at: usize) -> usize
    requires { 1 ≤ q }
{
    let l = paths::lengthen(b, q);
    if 64 < l.path.len {
        return lines::print_word(text, at, b"too long");
    }
    let k = print_number(l.path, text, at);
    print_if(l.misread, b" misread", text, k)
}

fn print_letter(right: bool, text: &mut [u8], at: usize) -> usize {
    lines::print_word(text, at, if right { b"r" } else { b"l" })
}

// A letter for each turn, the first turn first.
fn print_letters(b: &[u8], text: &mut [u8], at: usize) -> usize
    requires { length b.now ≤ 64 }
{
    let mut k = at;
    for i in 0..paths::turn_count(b) {
        k = print_letter(paths::turn(b, i), text, k);
    }
    k
}

fn print_turns(b: &[u8], text: &mut [u8], at: usize) -> usize
    requires { length b.now ≤ 64 }
{
    let fewer = paths::sub_turn_count(b) < paths::turn_count(b);
    let mut k = lines::print_word(text, at, b".");
    k = print_letters(b, text, k);
    k = print_if(paths::is_low(b), b" low", text, k);
    print_if(fewer, b" fewer", text, k)
}

fn print_row(row: &[u8], text: &mut [u8], at: usize) -> usize {
    match row {
        _ if 66 < row.len() => lines::print_word(text, at, b"no row"),
        [1, q, p @ ..] => print_composed(p, *q, text, at),
        [2, _, b @ ..] => print_index(b, text, at),
        [3, q, b @ ..] if 0 < *q => print_longer(b, *q, text, at),
        [4, _, b @ ..] => print_turns(b, text, at),
        _ => lines::print_word(text, at, b"no row"),
    }
}

// Answers the next line.
fn turn(input: Stdin, buf: &mut [u8], row: &mut [u8], text: &mut [u8], s: Lines) -> Lines
    requires { line_most ≤ length text.old }
{
    let r = lines::next_line(input, Spelling::Hex, buf, row, text, s);
    let at = lines::room_for_line(text, r.put);
    let put = match r.got {
        Got::Form => {
            let k = print_row(&row[..r.n], text, at);
            lines::print_word(text, k, b"\n")
        }
        Got::Bad => lines::print_no_line(text, at),
        Got::End => at,
    };
    Lines { put, ..r }
}

// Nothing says that the input ends: the turns are counted down, from a number that no run uses up.
fn turns(input: Stdin, buf: &mut [u8], row: &mut [u8], text: &mut [u8])
    requires { line_most ≤ length text.old }
{
    let mut s = lines::start();
    let mut left = u64::MAX;
    while 0 < left {
        s = turn(input, buf, row, text, s);
        left = lines::left(s, left);
    }
}

// Of a row one byte more than it may have is kept.
fn main(rt: HostRuntime) {
    let mut buf = [0u8; 4096];
    let mut row = [0u8; 67];
    let mut text = [0u8; 69632];
    turns(rt.stdin(), &mut buf, &mut row, &mut text);
}
