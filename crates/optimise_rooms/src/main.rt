// What `optimise` leaves of the bytes that are lent to it: rooms short, exact, longer and dirty, and outputs one short, exact and one long.
// A line says the room's length and what fills it, and the output's length; the answer; how many bytes of the room are not 0 then, and the
// output, which was filled with ee.
#![tactic(auto)]

ghost use Rattle.std.specs.Prelude.{◌≤◌};

use optimiser::Report;
use refusals::Refusal;

// Standard output.
const STDOUT_FILENO: i32 = 1;

fn say(text: &[u8]) {
    io::write_all(STDOUT_FILENO, text);
}

fn say_number(n: usize) {
    io::print_decimal(STDOUT_FILENO, n as u64);
}

fn say_byte(x: u8) {
    io::print_hex(STDOUT_FILENO, x as u64, 2);
}

// The bytes, and `-` where there are none.
fn show(b: &[u8]) {
    if b.is_empty() {
        say(b"-");
    }
    for x in b {
        say_byte(*x);
    }
}

// How many bytes are not 0.
fn count(s: &[u8]) -> usize {
    let mut n = 0;
    for x in s {
        n += usize::from(*x != 0);
    }
    n
}

fn say_answer(a: Result<Report, Refusal>) {
    match a {
        Err(e) => {
            say(b"no ");
            say_number(usize::from(refusals::number_of(e)));
        }
        Ok(r) => {
            say(b"ok ");
            say_number(r.length);
            say(b" ");
            say_number(r.passes);
            say(b" ");
            say_number(r.units);
            say(if r.mark { b" 1" } else { b" 0" });
        }
    }
}

fn say_lent(room: usize, dirt: u8, out: usize) {
    say(b"room ");
    say_number(room);
    say(b" of ");
    say_byte(dirt);
    say(b", output ");
    say_number(out);
    say(b": ");
}

fn say_left<'a>(room: &'a [u8], out: &'a [u8]) {
    say(b"; not zero ");
    say_number(count(room));
    say(b"; output ");
    show(out);
    say(b"\n");
}

// The room and the output are filled, lent, and looked at.
fn lend(form: &[u8], room: &mut [u8], dirt: u8, out: &mut [u8]) {
    room.fill(dirt);
    out.fill(0xee);
    say_lent(room.len(), dirt, out.len());
    say_answer(optimiser::optimise(form, room, out));
    say_left(room, out);
}

// ---- rooms

const SHORT: usize = 65535;

const EXACT: usize = 65536;

const LONGER: usize = 70000;

// In a room of N bytes.
fn in_room<const N: usize>(form: &[u8], dirt: u8, out: &mut [u8])
    requires { N ≤ 70000 }
{
    let mut room = [0u8; N];
    lend(form, &mut room, dirt, out);
}

// ---- forms

// (f 1), which becomes 2: one byte
fn one_byte(form: &[u8]) {
    let mut out = [0u8; 2];
    in_room::<0>(form, 0, &mut out);
    in_room::<SHORT>(form, 0, &mut out);
    in_room::<SHORT>(form, 0x55, &mut out);
    in_room::<EXACT>(form, 0, &mut out);
    in_room::<EXACT>(form, 0x55, &mut out);
    in_room::<EXACT>(form, 0xff, &mut out);
    in_room::<LONGER>(form, 0x55, &mut out);
}

fn no_output(form: &[u8]) {
    let mut out = [0u8; 0];
    in_room::<SHORT>(form, 0x55, &mut out);
    in_room::<EXACT>(form, 0x55, &mut out);
}

fn exact_output(form: &[u8]) {
    let mut out = [0u8; 1];
    in_room::<EXACT>(form, 0x55, &mut out);
    in_room::<LONGER>(form, 0xff, &mut out);
}

// (c (q . 5) (q . 6)), which becomes (q 5 . 6): five bytes
fn five_bytes(form: &[u8]) {
    let mut short = [0u8; 4];
    let mut exact = [0u8; 5];
    let mut long = [0u8; 6];
    in_room::<LONGER>(form, 0x55, &mut short);
    in_room::<EXACT>(form, 0x55, &mut exact);
    in_room::<EXACT>(form, 0, &mut long);
}

// a mark, and refusals of the reader and of the driver
fn others() {
    let mut out = [0u8; 4];
    in_room::<EXACT>(b"\xff\x05\xff\x82\xff\x80\x80", 0x55, &mut out);
    in_room::<EXACT>(b"", 0x55, &mut out);
    in_room::<EXACT>(b"\xff\x05", 0, &mut out);
    in_room::<LONGER>(b"\xff\x05\x80\x80", 0xff, &mut out);
    in_room::<EXACT>(b"\xff\x05\xff\x80\x80", 0x55, &mut out);
    in_room::<LONGER>(b"\xff\x05\xff\x80\x80", 0x55, &mut out);
}

// a form of 8,193 bytes, in a room that is too small and in one that is not
fn long_form() {
    let form = [0u8; 8193];
    let mut out = [0u8; 1];
    in_room::<SHORT>(&form, 0x55, &mut out);
    in_room::<EXACT>(&form, 0x55, &mut out);
}

fn main() {
    one_byte(b"\xff\x05\xff\x01\x80");
    no_output(b"\xff\x05\xff\x01\x80");
    exact_output(b"\xff\x05\xff\x01\x80");
    five_bytes(b"\xff\x04\xff\xff\x01\x05\xff\xff\x01\x06\x80");
    others();
    long_form();
}
