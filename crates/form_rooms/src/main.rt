// Lends rooms and outputs of several lengths, none of them clean, and prints what they hold after.
#![tactic(auto)]

ghost use Rattle.std.specs.Prelude.{◌≤◌};

use form::Written;
use refusals::Refusal;

// What every lent byte holds before a call. No form here has it.
const DIRT: u8 = 0xdd;

// How many bytes of b are not x.
fn others(b: &[u8], x: u8) -> usize {
    let mut n = 0;
    for y in b {
        n += usize::from(*y != x);
    }
    n
}

fn say(words: &[u8], n: usize) {
    io::write_all(1, words);
    io::print_decimal(1, n as u64);
}

fn say_room(room: &[u8]) {
    say(b"; room ", room.len());
    say(b", not zero ", others(room, 0));
}

fn say_ends(out: &[u8]) {
    if let (Some(first), Some(last)) = (out.first(), out.last()) {
        say(b", first ", usize::from(*first));
        say(b", last ", usize::from(*last));
    }
}

fn say_output(out: &[u8]) {
    say(b"; output ", out.len());
    say(b", changed ", others(out, DIRT));
    say_ends(out);
}

fn say_read(a: Result<usize, Refusal>) {
    match a {
        Ok(units) => say(b"read ok ", units),
        Err(e) => say(b"read no ", usize::from(refusals::number_of(e))),
    }
}

fn say_written(a: Result<Written, Refusal>) {
    match a {
        Ok(w) => {
            say(b"write ok ", w.length);
            say(b" ", w.units);
        }
        Err(e) => say(b"write no ", usize::from(refusals::number_of(e))),
    }
}

fn read_in(form: &[u8], room: &mut [u8]) {
    say_read(form::read(form, room));
    say_room(room);
    io::write_all(1, b"\n");
}

fn write_in(form: &[u8], room: &mut [u8], out: &mut [u8]) {
    say_written(form::write(form, room, out));
    say_room(room);
    say_output(out);
    io::write_all(1, b"\n");
}

// With r bytes of room.
fn try_read(form: &[u8], r: usize)
    requires { r ≤ 70000 }
{
    let mut room = [DIRT; 70000];
    read_in(form, &mut room[..r]);
}

// With r bytes of room and n of output.
fn try_write(form: &[u8], r: usize, n: usize)
    requires { (r ≤ 70000) × (n ≤ 100) }
{
    let mut room = [DIRT; 70000];
    let mut out = [DIRT; 100];
    write_in(form, &mut room[..r], &mut out[..n]);
}

// A room that is a byte short, one that is just enough, and two that are longer.
fn rooms(form: &[u8]) {
    try_read(form, 65535);
    try_read(form, 65536);
    try_read(form, 70000);
    try_write(form, 65535, 8);
    try_write(form, 65536, 8);
    try_write(form, 65537, 8);
    try_write(form, 70000, 8);
}

fn main() {
    let pair = [0xffu8, 5, 0xff, 1, 0x80];
    let nil = [0x80u8];
    rooms(&pair);
    rooms(b"");
    rooms(b"12");
    // outputs that are a byte short, just enough, and a byte longer
    try_write(&pair, 65536, 4);
    try_write(&pair, 65536, 5);
    try_write(&pair, 65536, 6);
    try_write(&nil, 65536, 0);
    try_write(&nil, 65536, 1);
    try_write(&nil, 65536, 2);
}
