// The outcomes of `read_text`, `write_text`, `optimise_text`, `evaluate_text` and `text_fault` as one line of text each. A tree that is written as text
// is printed as it stands.
#![tactic(auto)]

ghost use Rattle.std.specs.Prelude.{length};
ghost use Rattle.lines.specs.Text.{Printed};
ghost use Rattle.outcome.specs.Line.{line_of};
ghost use Rattle.texts.specs.Outcomes.{read_text_outcome, write_text_outcome, optimise_text_outcome, evaluate_text_outcome};
ghost use Rattle.texts.specs.Faults.{fault_outcome};
ghost use Rattle.text_line.specs.Line.{ok_text, text_and, text_line, bare_line, fault_line};

// Prints `ok` and an answer's text after text[..at].
fn print_ok(answer: &[u8], text: &mut [u8], at: usize) -> usize
    ensures { Printed (ok_text answer.now) text.old text.new at result }
{
    let a = lines::print_word(text, at, b"ok ");
    lines::print_word(text, a, answer)
}

// The same, and the numbers that are told behind its length.
fn print_answer(answer: &[u8], numbers: &[usize], text: &mut [u8], at: usize) -> usize
    ensures { Printed (text_and answer.now numbers.now) text.old text.new at result }
{
    let a = print_ok(answer, text, at);
    lines::print_numbers(text, a, numbers)
}

// Prints what `read_text` makes of a source: the form in hex, and units.
pub fn print_read(
    source: &[u8],
    room: &mut [u8],
    out: &mut [u8],
    text: &mut [u8],
    at: usize,
) -> usize
    ensures { Printed (line_of (read_text_outcome source.now (length room.old) (length out.old))) text.old text.new at result }
{
    match texts::read_text(source, room, out) {
        Err(e) => lines::print_no(text, at, refusals::number_of(e)),
        Ok(w) => outcome::print_answer(&out[..w.length], &[w.units], text, at),
    }
}

// Prints what `write_text` makes of a form: its text alone, so that the line without its word can be read again.
pub fn print_written(
    form: &[u8],
    room: &mut [u8],
    out: &mut [u8],
    text: &mut [u8],
    at: usize,
) -> usize
    ensures { Printed (bare_line (write_text_outcome form.now (length room.old) (length out.old))) text.old text.new at result }
{
    match texts::write_text(form, room, out) {
        Err(e) => lines::print_no(text, at, refusals::number_of(e)),
        Ok(w) => {
            let a = print_ok(&out[..w.length], text, at);
            lines::print_word(text, a, b"\n")
        }
    }
}

// Prints what `optimise_text` makes of a source.
pub fn print_optimised(
    source: &[u8],
    room: &mut [u8],
    out: &mut [u8],
    text: &mut [u8],
    at: usize,
) -> usize
    ensures { Printed (text_line (optimise_text_outcome source.now (length room.old) (length out.old))) text.old text.new at result }
{
    match texts::optimise_text(source, room, out) {
        Err(e) => lines::print_no(text, at, refusals::number_of(e)),
        Ok(r) => {
            let numbers = [r.passes, r.units, r.mark as usize];
            print_answer(&out[..r.length], &numbers, text, at)
        }
    }
}

// Prints what `evaluate_text` makes of two sources.
pub fn print_evaluated(
    sources: &[u8],
    first: usize,
    room: &mut [u8],
    out: &mut [u8],
    text: &mut [u8],
    at: usize,
) -> usize
    ensures { Printed (text_line (evaluate_text_outcome sources.now first (length room.old) (length out.old))) text.old text.new at result }
{
    match texts::evaluate_text(sources, first, room, out) {
        Err(e) => lines::print_no(text, at, refusals::number_of(e)),
        Ok(v) => print_answer(&out[..v.length], &[v.steps, v.units], text, at),
    }
}

// Prints where a source stops: `at` and the place, or `no fault`.
pub fn print_fault(source: &[u8], room: &mut [u8], text: &mut [u8], at: usize) -> usize
    ensures { Printed (fault_line (fault_outcome source.now (length room.old))) text.old text.new at result }
{
    match texts::text_fault(source, room) {
        Err(e) => lines::print_no(text, at, refusals::number_of(e)),
        Ok(fault) => match fault {
            None => lines::print_word(text, at, b"no fault\n"),
            Some(p) => {
                let a = lines::print_word(text, at, b"at");
                lines::print_numbers(text, a, &[p])
            }
        },
    }
}
