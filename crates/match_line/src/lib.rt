// The outcome of a match as one line of text: `ok` and each name's bytes, `=` and the tree that it is bound to; `no match` and the place; `too many
// names`; or `no` and the refusal's number.
#![tactic(auto)]

ghost use Rattle.std.specs.Prelude.{◌+◌, ◌≤◌, length};
ghost use Rattle.meaning.specs.Limits.{path_limit};
ghost use Rattle.meaning.specs.Number.{number, bytes_of};
ghost use Rattle.matcher.specs.Outcome.{Within};
ghost use Rattle.lines.specs.Text.{Printed};
ghost use Rattle.match_line.specs.Line.{no_match_at, no_match_line, match_line};
ghost use Rattle.match_line.specs.Written.{NameFrom, both_in, ok_in};

use matcher::{Parts, Verdict};

// Where the bytes of a written name begin. It has at most 64 of them, so its prefix has at most two bytes.
// tried: the proof did not close by slice patterns with ranges: they leave seven goals, most under names that may change.
fn name_from(name: &[u8]) -> usize
    ensures { NameFrom name.now result }
{
    if name.len() == 0 {
        return 0;
    }
    let x = name[0];
    if x < 0x80 {
        return 0;
    }
    if x < 0xc0 {
        return 1;
    }
    if name.len() == 1 {
        return 1;
    }
    2
}

// Prints a written name, both[..mid], and the tree behind it after text[..at].
fn print_both(both: &[u8], mid: usize, text: &mut [u8], at: usize) -> usize
    requires { mid ≤ length both.now }
    ensures { Printed (both_in both.now mid) text.old text.new at result }
{
    let name = &both[..mid];
    let from = name_from(name);
    let a = lines::print_word(text, at, b" ");
    let b = lines::print_hex(text, a, &name[from..]);
    let c = lines::print_word(text, b, b"=");
    lines::print_hex(text, c, &both[mid..])
}

// Prints what was written to the output after text[..at].
fn print_parts(out: &[u8], e: Parts, text: &mut [u8], at: usize) -> usize
    requires { Within e (length out.now) }
    ensures { Printed (ok_in out.now e) text.old text.new at result }
{
    let a = lines::print_word(text, at, b"ok");
    if e.count == 0 {
        return a;
    }
    let mid = e.node_1;
    let b = print_both(&out[..mid], e.name_1, text, a);
    if e.count == 1 {
        return b;
    }
    print_both(&out[mid..e.node_2], e.name_2 - mid, text, b)
}

// Prints `no match` and a path's bytes as its atom's form, which is first written to atom, after text[..at].
fn print_path(path: &[u8], atom: &mut [u8], text: &mut [u8], at: usize) -> usize
    requires { (length path.now ≤ path_limit) × (path_limit + 2 ≤ length atom.old) }
    ensures { Printed (no_match_at path.now) text.old text.new at result }
{
    let n = form::put_atom(path, atom);
    let a = lines::print_word(text, at, b"no match ");
    let b = lines::print_hex(text, a, &atom[..n]);
    lines::print_word(text, b, b"\n")
}

// Prints `no match` and the place, a path in 64 bytes.
fn print_place(place: [u8; 64], text: &mut [u8], at: usize) -> usize
    requires { length (bytes_of (number place)) ≤ path_limit }
    ensures { Printed (no_match_line place) text.old text.new at result }
{
    let mut atom = [0u8; 66];
    let path = paths::bigint_to_bytes_unsigned(&place);
    print_path(path, &mut atom, text, at)
}

// Prints what `matches` makes of two forms after text[..at].
pub fn print_matched(
    forms: &[u8],
    first: usize,
    room: &mut [u8],
    out: &mut [u8],
    text: &mut [u8],
    at: usize,
) -> usize
    ensures { Printed (match_line forms.now first (length room.old) (length out.old)) text.old text.new at result }
{
    let m = matcher::matches(forms, first, room, out);
    match m.answer {
        Ok(Verdict::Matched(e)) => {
            let k = print_parts(out, e, text, at);
            lines::print_word(text, k, b"\n")
        }
        Ok(Verdict::NoMatch) => print_place(m.place, text, at),
        Ok(Verdict::TooManyNames) => lines::print_word(text, at, b"too many names\n"),
        Err(e) => lines::print_no(text, at, refusals::number_of(e)),
    }
}
