// The outcomes of `optimise`, `evaluate` and `write` as one line of text each.
#![tactic(auto)]

ghost use Rattle.std.specs.Prelude.{length};
ghost use Rattle.meaning.specs.Run.{run};
ghost use Rattle.evaluation.specs.Bytes.{outcome};
ghost use Rattle.form.specs.Bytes.{write_outcome};
ghost use Rattle.lines.specs.Text.{Printed};
ghost use Rattle.outcome.specs.Line.{ok_line, line_of};

// Prints an answer after text[..at]: `ok`, the tree, and the numbers that are told behind its length.
pub fn print_answer<'a>(tree: &'a [u8], numbers: &'a [usize], text: &mut [u8], at: usize) -> usize
    ensures { Printed (ok_line tree.now numbers.now) text.old text.new at result }
{
    let a = lines::print_ok(text, at, tree);
    lines::print_numbers(text, a, numbers)
}

// Prints what `optimise` makes of a form after text[..at].
pub fn print_optimised(
    form: &[u8],
    room: &mut [u8],
    out: &mut [u8],
    text: &mut [u8],
    at: usize,
) -> usize
    ensures { Printed (line_of (run form.now (length room.old) (length out.old))) text.old text.new at result }
{
    match optimiser::optimise(form, room, out) {
        Err(e) => lines::print_no(text, at, refusals::number_of(e)),
        Ok(r) => {
            let numbers = [r.passes, r.units, r.mark as usize];
            print_answer(&out[..r.length], &numbers, text, at)
        }
    }
}

// Prints what `evaluate` makes of two forms.
pub fn print_evaluated(
    forms: &[u8],
    first: usize,
    room: &mut [u8],
    out: &mut [u8],
    text: &mut [u8],
    at: usize,
) -> usize
    ensures { Printed (line_of (outcome forms.now first (length room.old) (length out.old))) text.old text.new at result }
{
    match evaluation::evaluate(forms, first, room, out) {
        Err(e) => lines::print_no(text, at, refusals::number_of(e)),
        Ok(v) => print_answer(&out[..v.length], &[v.steps, v.units], text, at),
    }
}

// Prints what `write` makes of a form.
pub fn print_written(
    form: &[u8],
    room: &mut [u8],
    out: &mut [u8],
    text: &mut [u8],
    at: usize,
) -> usize
    ensures { Printed (line_of (write_outcome form.now (length room.old) (length out.old))) text.old text.new at result }
{
    match form::write(form, room, out) {
        Err(e) => lines::print_no(text, at, refusals::number_of(e)),
        Ok(w) => print_answer(&out[..w.length], &[w.units], text, at),
    }
}
