// Reads one line of hex and prints its outcome: `ok`, the optimised tree, passes, units and mark; `no` and the refusal's number; or
// `no line` where it is not an even count of lower-case hex digits. No line at all is the empty form.
#![tactic(auto)]

ghost use Rattle.std.specs.Prelude.{◌≤◌, length, take};
ghost use Rattle.meaning.specs.Run.{run};
ghost use Rattle.lines.specs.Text.{out_most, line_most};
ghost use Rattle.outcome.specs.Line.{line_of};
ghost use Rattle.optimise.specs.Only.{Only};

use lines::{Got, Lines, Spelling};
use std::io::Stdin;

// Answers the first line: text[..put] is the line that is printed for it.
fn answer(
    input: Stdin,
    buf: &mut [u8],
    form: &mut [u8],
    room: &mut [u8],
    out: &mut [u8],
    text: &mut [u8],
) -> Lines
    requires { (length out.old ≤ out_most) × (line_most ≤ length text.old) }
    ensures { Only (line_of (run (take result.n form.new) (length room.old) (length out.old))) text.new result }
{
    let mut r = lines::next_line(input, Spelling::Hex, buf, form, text, lines::start());
    let n = r.n;
    let g = r.got;
    match g {
        Got::Form => {
            r.put = outcome::print_optimised(&form[..n], room, out, text, 0);
            r
        }
        Got::Bad => {
            r.put = lines::print_no_line(text, 0);
            r
        }
        Got::End => {
            r.put = outcome::print_optimised(&form[..n], room, out, text, 0);
            r
        }
    }
}

fn main(rt: HostRuntime) {
    let mut buf = [0u8; 4096];
    let mut form = [0u8; 8193];
    let mut room = [0u8; 65536];
    let mut out = [0u8; 32768];
    let mut text = [0u8; 69632];
    let r = answer(
        rt.stdin(),
        &mut buf,
        &mut form,
        &mut room,
        &mut out,
        &mut text,
    );
    lines::flush(&text, r.put);
}
