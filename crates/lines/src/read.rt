// Reading. A program lends the bytes that reads fill, buf, and the bytes that a line spells, form; only places and lengths go by value.
ghost use Rattle.std.specs.Prelude.{◌≡◌, ◌+◌, ◌-◌, ◌^◌, ◌≤◌, ◌<◌, IfSome, length};
ghost use Rattle.io.specs.Counts.{IsPrefixLen};
ghost use Rattle.lines.specs.declared.read.Spelling.TheVariants.{Hex, Raw};
ghost use Rattle.lines.specs.Hex.{digit_of};
ghost use Rattle.lines.specs.Line.{judged, Took, Passed, Came};

use crate::print::flush;
use std::io::{Read, Stdin};

// How a line spells bytes.
#[derive(Clone, Copy)]
pub enum Spelling {
    // Two lower-case hex digits for each.
    Hex,
    // As they stand: all but the newline, a carriage return too.
    Raw,
}

#[derive(Clone, Copy)]
pub enum Got {
    // An even count of lower-case hex digits, none for an empty line; or any line that is raw.
    Form,
    // Any other line.
    Bad,
    // No line: the input ended before.
    End,
}

// buf[at..len] was read and is not used yet; text[..put] waits to be written; and what the last line was: form[..n] has its bytes, and
// form[..first] those of the first of two.
#[derive(Clone, Copy)]
pub struct Lines {
    pub at: usize,
    pub len: usize,
    pub put: usize,
    pub first: usize,
    pub n: usize,
    pub got: Got,
}

// A line so far: form[..n] has the bytes that it spelt, half is the digit that waits for its second, bad says that a byte was met that is
// no digit.
#[derive(Clone, Copy)]
struct Line {
    n: usize,
    half: Option<u8>,
    bad: bool,
}

// The line after some bytes, the place after these, and whether they ended it.
#[derive(Clone, Copy)]
struct Part {
    line: Line,
    at: usize,
    ended: bool,
}

// The value of a digit, and none for any other byte.
fn digit(x: u8) -> Option<u8>
    ensures value { result ≡ digit_of x }
    ensures small { IfSome result (λ d. d < 16) }
{
    match x {
        b'0'..=b'9' => Some(x - b'0'),
        b'a'..=b'f' => Some(x - b'a' + 10),
        _ => None,
    }
}

// The line after one byte more, as it stands. What form has no room for is dropped.
fn with_raw(form: &mut [u8], l: Line, x: u8) -> Line
    requires fits { l.n ≤ length form.old }
    requires half { IfSome l.half (λ h. h < 16) }
    ensures { Took Raw x form.old form.new l result }
{
    if form.len() <= l.n {
        return l;
    }
    form[l.n] = x;
    Line { n: l.n + 1, ..l }
}

// The line after one byte more, of hex. What form has no room for is dropped.
fn with_digit(form: &mut [u8], l: Line, x: u8) -> Line
    requires fits { l.n ≤ length form.old }
    requires half { IfSome l.half (λ h. h < 16) }
    ensures { Took Hex x form.old form.new l result }
{
    let Some(d) = digit(x) else {
        return Line { bad: true, ..l };
    };
    let Some(h) = l.half else {
        return Line { half: Some(d), ..l };
    };
    let r = with_raw(form, l, h * 16 + d);
    Line { half: None, ..r }
}

// The line after one byte more.
fn with_byte(how: Spelling, form: &mut [u8], l: Line, x: u8) -> Line
    requires fits { l.n ≤ length form.old }
    requires half { IfSome l.half (λ h. h < 16) }
    ensures { Took how x form.old form.new l result }
{
    match how {
        Spelling::Hex => with_digit(form, l, x),
        Spelling::Raw => with_raw(form, l, x),
    }
}

// The line after the bytes from a place on, up to a newline or their end.
fn with_bytes(how: Spelling, bytes: &[u8], from: usize, form: &mut [u8], l: Line) -> Part
    requires fits { l.n ≤ length form.old }
    requires half { IfSome l.half (λ h. h < 16) }
    ensures { Passed how bytes.now from form.old form.new l result }
{
    let mut line = l;
    for at in from..bytes.len() {
        if bytes[at] == b'\n' {
            return Part {
                line,
                at: at + 1,
                ended: true,
            };
        }
        line = with_byte(how, form, line, bytes[at]);
    }
    Part {
        line,
        at: from.max(bytes.len()),
        ended: false,
    }
}

// Bad where a byte was met that is no digit, or where a digit waits.
fn verdict(l: Line) -> Got
    ensures { result ≡ judged l.half l.bad }
{
    match l.half {
        None if !l.bad => Got::Form,
        _ => Got::Bad,
    }
}

// Writes the text that waits, and then reads: whoever waits for an outcome before sending more gets it.
// A read that fails ends the input.
fn refill(mut input: Stdin, buf: &mut [u8], text: &[u8], put: usize) -> usize
    ensures { IsPrefixLen result buf.new }
{
    flush(text, put);
    input.read(buf).unwrap_or(0)
}

// Where a program starts: nothing waits.
pub fn start() -> Lines
    ensures { result.put ≡ 0 }
{
    Lines {
        at: 0,
        len: 0,
        put: 0,
        first: 0,
        n: 0,
        got: Got::Form,
    }
}

// How many turns of a program's loop are left: none where the input had no line. A proved loop ends, and nothing says that the input
// does: so turns and reads are counted, and no run uses them up.
pub fn left(s: Lines, turns: u64) -> u64
    ensures { result ≤ turns - 1 }
{
    match s.got {
        Got::Form | Got::Bad => turns.saturating_sub(1),
        Got::End => 0,
    }
}

// Where the input ends: a last line needs no newline.
fn last(l: Line, begun: bool) -> Lines
    ensures { (result.n ≡ l.n) × ((result.first ≡ 0) × (result.put ≡ 0)) }
{
    Lines {
        at: 0,
        len: 0,
        put: 0,
        first: 0,
        n: l.n,
        got: if begun { verdict(l) } else { Got::End },
    }
}

// The next line: form[..n] has its bytes, or the first of them where form is too short for all.
pub fn next_line(
    input: Stdin,
    how: Spelling,
    buf: &mut [u8],
    form: &mut [u8],
    text: &[u8],
    s: Lines,
) -> Lines
    ensures { Came form.new s result }
{
    let mut line = Line {
        n: 0,
        half: None,
        bad: false,
    };
    let mut at = s.at;
    let mut len = s.len.min(buf.len());
    let mut put = s.put;
    let mut begun = at < len;
    for _ in 0..u64::MAX {
        let p = with_bytes(how, &buf[..len], at, form, line);
        line = p.line;
        if p.ended {
            return Lines {
                at: p.at,
                len,
                put,
                first: 0,
                n: line.n,
                got: verdict(line),
            };
        }
        len = refill(input, buf, text, put);
        put = 0;
        at = 0;
        if len == 0 {
            return last(line, begun);
        }
        begun = true;
    }
    Lines {
        at,
        len,
        put,
        first: 0,
        n: line.n,
        got: Got::End,
    }
}

// What two lines are together: both read, and the second's bytes behind the first's.
fn both(a: Lines, b: Lines) -> Lines
    requires { a.n + b.n < 2 ^ 64 }
    ensures { (result.n ≡ a.n + b.n) × ((result.first ≡ a.n) × (result.put ≡ b.put)) }
{
    Lines {
        first: a.n,
        n: a.n + b.n,
        got: match (a.got, b.got) {
            (Got::Form, Got::Form) => Got::Form,
            (Got::End, _) => Got::End,
            _ => Got::Bad,
        },
        ..b
    }
}

// The next two lines: forms[..first] has the first one's bytes, and forms[first..n] the second's. A second line that is missing is no
// line.
pub fn next_two(
    input: Stdin,
    how: Spelling,
    buf: &mut [u8],
    forms: &mut [u8],
    text: &[u8],
    s: Lines,
) -> Lines
    ensures { Came forms.new s result }
{
    let a = next_line(input, how, buf, forms, text, s);
    let b = next_line(input, how, buf, &mut forms[a.n..], text, a);
    both(a, b)
}
