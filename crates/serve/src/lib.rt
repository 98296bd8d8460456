// The programs that answer all of their input, line by line: one loop for all, and one choice of what answers.
#![tactic(auto)]

ghost use Rattle.std.specs.Prelude.{◌≤◌, length};
ghost use Rattle.meaning.specs.Limits.{room_least};
ghost use Rattle.lines.specs.Text.{Printed};
ghost use Rattle.lines.specs.Line.{Came, Turned};
ghost use Rattle.serve.specs.Reply.{reply, Lent};

use lines::{Got, Lines, Spelling};
use std::io::Stdin;

#[derive(Clone, Copy)]
pub enum Program {
    // A form: what the optimiser makes of it.
    Optimise,
    // A program and its environment: the value.
    Evaluate,
    // A pattern and an expression: what the names are bound to.
    Match,
    // A rule's number as one byte, and a form: what the rule makes of it.
    Rule,
    // A form: its tree written again.
    Read,
    // A text: the form of its tree.
    ReadText,
    // A form: the text of its tree.
    WriteText,
    // A text: what the optimiser makes of it, as text.
    OptimiseText,
    // A program's text and its environment's: the value as text.
    EvaluateText,
    // A text: where it stops, if it does not parse.
    TextFault,
}

// How the program's lines spell bytes.
fn spelling(which: Program) -> Spelling {
    match which {
        Program::Optimise
        | Program::Evaluate
        | Program::Match
        | Program::Rule
        | Program::Read
        | Program::WriteText => Spelling::Hex,
        Program::ReadText | Program::OptimiseText | Program::EvaluateText | Program::TextFault =>
            Spelling::Raw,
    }
}

// Whether the program takes two lines for each answer.
fn takes_two(which: Program) -> bool {
    matches!(
        which,
        Program::Evaluate | Program::Match | Program::Rule | Program::EvaluateText
    )
}

// The next line, or the next two where the program takes two.
fn next(
    input: Stdin,
    which: Program,
    buf: &mut [u8],
    forms: &mut [u8],
    text: &[u8],
    s: Lines,
) -> Lines
    ensures { Came forms.new s result }
{
    let how = spelling(which);
    if takes_two(which) {
        lines::next_two(input, how, buf, forms, text, s)
    } else {
        lines::next_line(input, how, buf, forms, text, s)
    }
}

// Prints the program's reply after text[..at]; forms[..first] are the first line's bytes.
fn answer(
    which: Program,
    forms: &[u8],
    first: usize,
    room: &mut [u8],
    out: &mut [u8],
    text: &mut [u8],
    at: usize,
) -> usize
    requires { room_least ≤ length room.old }
    ensures { Printed (reply which (length room.old) (length out.old) forms.now first) text.old text.new at result }
{
    match which {
        Program::Optimise => outcome::print_optimised(forms, room, out, text, at),
        Program::Evaluate => outcome::print_evaluated(forms, first, room, out, text, at),
        Program::Match => match_line::print_matched(forms, first, room, out, text, at),
        Program::Rule => rule_line::print_ruled(forms, first, room, out, text, at),
        Program::Read => outcome::print_written(forms, room, out, text, at),
        Program::ReadText => text_line::print_read(forms, room, out, text, at),
        Program::WriteText => text_line::print_written(forms, room, out, text, at),
        Program::OptimiseText => text_line::print_optimised(forms, room, out, text, at),
        Program::EvaluateText => text_line::print_evaluated(forms, first, room, out, text, at),
        Program::TextFault => text_line::print_fault(forms, room, text, at),
    }
}

// Answers what comes next. There is room for the line before it is begun: so what is handed to a write is never a part of one.
fn turn(
    input: Stdin,
    which: Program,
    buf: &mut [u8],
    forms: &mut [u8],
    room: &mut [u8],
    out: &mut [u8],
    text: &mut [u8],
    s: Lines,
) -> Lines
    requires { Lent room.old out.old text.old }
    ensures { Turned (reply which (length room.old) (length out.old)) forms.new text.old text.new s result }
{
    let mut r = next(input, which, buf, forms, text, s);
    let n = r.n;
    let at = lines::room_for_line(text, r.put);
    match r.got {
        Got::Form => {
            r.put = answer(which, &forms[..n], r.first, room, out, text, at);
            r
        }
        Got::Bad => {
            r.put = lines::print_no_line(text, at);
            r
        }
        Got::End => {
            r.put = at;
            r
        }
    }
}

// Nothing says that the input ends: the turns are counted down, from a number that no run uses up.
fn turns(
    input: Stdin,
    which: Program,
    buf: &mut [u8],
    forms: &mut [u8],
    room: &mut [u8],
    out: &mut [u8],
    text: &mut [u8],
)
    requires { Lent room.old out.old text.old }
{
    let mut s = lines::start();
    let mut left = u64::MAX;
    while 0 < left {
        s = turn(input, which, buf, forms, room, out, text, s);
        left = lines::left(s, left);
    }
}

// A form has at most 8,192 bytes and a text at most 32,768, and of each line one byte more is kept: a longer one is refused. What waits
// has room for the longest line and some before it.
pub fn run(input: Stdin, which: Program) {
    let mut buf = [0u8; 4096];
    let mut forms = [0u8; 65538];
    let mut room = [0u8; 65536];
    let mut out = [0u8; 32768];
    let mut text = [0u8; 69632];
    turns(
        input, which, &mut buf, &mut forms, &mut room, &mut out, &mut text,
    );
}
