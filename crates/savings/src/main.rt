// For a list of forms, one a line of hex, a report: how many there are, answered, refused by each number and marked; bytes before and
// after; the most passes; how often each rule ended a pass. `no line` at once for a line that is not an even count of lower-case hex
// digits. A 4,097th form ends the list: the report, and `no 17`.
#![tactic(auto)]

ghost use Rattle.std.specs.Prelude.{◌≡◌, ◌≤◌, ◌++◌, length};
ghost use Rattle.lines.specs.Text.{line_most, Printed, numbers_line};
ghost use Rattle.savings.specs.Report.{refused_text, totals_text, report_text, last_text, Worked, Turned};

use lines::{Got, Lines, Spelling};
use refusals::Refusal;
use std::io::Stdin;
use totals::{Column, Savings};

// Where the list stands: the lines, the report so far, and whether it is at its end.
#[derive(Clone, Copy)]
pub(crate) struct Listed {
    pub lines: Lines,
    pub savings: Savings,
    pub over: bool,
}

// ---- the report

// A word and numbers, as a line.
fn print_row(text: &mut [u8], at: usize, word: &[u8], numbers: &[usize]) -> usize
    ensures { Printed (word.now ++ numbers_line numbers.now) text.old text.new at result }
{
    let k = lines::print_word(text, at, word);
    lines::print_numbers(text, k, numbers)
}

// A line for each number that a form can be refused with.
fn print_refused(text: &mut [u8], at: usize, refused: &[u64]) -> usize
    ensures { Printed (refused_text 1 refused.now) text.old text.new at result }
{
    let mut k = at;
    for (i, n) in refused.iter().enumerate() {
        k = print_row(text, k, b"refused", &[i + 1, *n as usize]);
    }
    k
}

// What is told of the answered forms.
fn print_totals(text: &mut [u8], at: usize, s: Savings) -> usize
    ensures { Printed (totals_text s) text.old text.new at result }
{
    let a = print_row(text, at, b"marked", &[s.marked as usize]);
    let b = print_row(text, a, b"bytes", &[s.before as usize, s.after as usize]);
    let c = print_row(text, b, b"passes", &[s.passes as usize]);
    let rules = s.rules.map(|n| n as usize);
    print_row(text, c, b"rules", &rules)
}

fn print_report(text: &mut [u8], at: usize, s: Savings) -> usize
    ensures { Printed (report_text s) text.old text.new at result }
{
    let forms = totals::forms_in(s.answered, &s.refused);
    let a = print_row(text, at, b"forms", &[forms as usize]);
    let b = print_row(text, a, b"answered", &[s.answered as usize]);
    let c = print_refused(text, b, &s.refused);
    print_totals(text, c, s)
}

// The report of a list that goes on behind what a report may have.
fn print_last(text: &mut [u8], at: usize, s: Savings) -> usize
    ensures { Printed (last_text s) text.old text.new at result }
{
    let k = print_report(text, at, s);
    lines::print_no(text, k, refusals::number_of(Refusal::ReportFull))
}

// ---- the list

// Works a form into the report. Where there is no room for it the list is over.
fn work_in(form: &[u8], room: &mut [u8], text: &mut [u8], at: usize, t: Listed) -> Listed
    ensures { Worked t.savings form.now room.old text.old text.new at result × (result.lines.got ≡ t.lines.got) × (result.lines.n ≡ t.lines.n) }
{
    let mut lines = t.lines;
    let a = totals::add_form(form, room, t.savings);
    let savings = a.savings;
    match a.column {
        Column::Full => {
            lines.put = print_last(text, at, savings);
            Listed {
                lines,
                savings,
                over: true,
            }
        }
        Column::Answered | Column::Refused(_) => {
            lines.put = at;
            Listed {
                lines,
                savings,
                over: false,
            }
        }
    }
}

// Takes the next line.
fn turn(
    input: Stdin,
    buf: &mut [u8],
    forms: &mut [u8],
    room: &mut [u8],
    text: &mut [u8],
    t: Listed,
) -> Listed
    requires { line_most ≤ length text.old }
    ensures { Turned t.savings t.lines.put forms.new room.old text.old text.new result }
{
    let savings = t.savings;
    let mut lines = lines::next_line(input, Spelling::Hex, buf, forms, text, t.lines);
    let n = lines.n;
    let at = lines::room_for_line(text, lines.put);
    match lines.got {
        Got::Form => {
            let next = Listed {
                lines,
                savings,
                over: false,
            };
            work_in(&forms[..n], room, text, at, next)
        }
        Got::Bad => {
            lines.put = lines::print_no_line(text, at);
            Listed {
                lines,
                savings,
                over: false,
            }
        }
        Got::End => {
            lines.put = print_report(text, at, savings);
            Listed {
                lines,
                savings,
                over: true,
            }
        }
    }
}

// Nothing says that the input ends: the turns are counted down, from a number that no run uses up.
fn list(input: Stdin, buf: &mut [u8], forms: &mut [u8], room: &mut [u8], text: &mut [u8])
    requires { line_most ≤ length text.old }
{
    let mut t = Listed {
        lines: lines::start(),
        savings: totals::none_yet(),
        over: false,
    };
    let mut left = u64::MAX;
    while 0 < left {
        t = turn(input, buf, forms, room, text, t);
        if t.over {
            lines::flush(text, t.lines.put);
            return;
        }
        left = lines::left(t.lines, left);
    }
}

// A form has at most 8,192 bytes, and of each line one byte more is kept: a longer one is refused.
fn main(rt: HostRuntime) {
    let mut buf = [0u8; 4096];
    let mut forms = [0u8; 8193];
    let mut room = [0u8; 65536];
    let mut text = [0u8; 69632];
    list(rt.stdin(), &mut buf, &mut forms, &mut room, &mut text);
}
