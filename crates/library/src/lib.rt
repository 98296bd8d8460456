// The functions of the static library, for C and Rust: the public ones, with answers as numbers. Each returns 0 for an answer and
// the number of a refusal; a report is written through an array of its own, since neither an enum nor a struct is a result in C.
#![tactic(auto)]

ghost use Rattle.std.specs.Prelude.{◌≡◌, length, []};
ghost use Rattle.meaning.specs.Run.{run};
ghost use Rattle.form.specs.Bytes as forms;
ghost use Rattle.evaluation.specs.Bytes as evaluation;
ghost use Rattle.matcher.specs.Outcome as matcher;
ghost use Rattle.texts.specs.Outcomes as notation;
ghost use Rattle.texts.specs.Faults as faults;
ghost use Rattle.library.specs.Reports.{Reports, Places};
ghost use Rattle.library.specs.Totals.{savings_in, numbers_of, Totals};

use umlazgrin::{Column, Refusal, Savings, Verdict};

// What the matcher returns beside the refusals' numbers.
const NO_MATCH: u8 = 100;

const TOO_MANY_NAMES: u8 = 101;

// report: length, passes, units, mark.
#[unsafe(no_mangle)]
pub extern "C" fn umlazgrin_optimise(
    form: &[u8],
    room: &mut [u8],
    out: &mut [u8],
    report: &mut [usize; 4],
) -> u8
    ensures { Reports (run form.now (length room.old) (length out.old)) room.old room.new out.old out.new report.old report.new result }
{
    match umlazgrin::optimise(form, room, out) {
        Err(e) => refusals::number_of(e),
        Ok(r) => {
            *report = [r.length, r.passes, r.units, r.mark as usize];
            0
        }
    }
}

// report: length, steps, units.
#[unsafe(no_mangle)]
pub extern "C" fn umlazgrin_evaluate(
    forms: &[u8],
    first: usize,
    room: &mut [u8],
    out: &mut [u8],
    report: &mut [usize; 3],
) -> u8
    ensures { Reports (evaluation.outcome forms.now first (length room.old) (length out.old)) room.old room.new out.old out.new report.old report.new result }
{
    match umlazgrin::evaluate(forms, first, room, out) {
        Err(e) => refusals::number_of(e),
        Ok(v) => {
            *report = [v.length, v.steps, v.units];
            0
        }
    }
}

// report: how many names, and where each of the four parts ends. place: where a match that fails stops.
#[unsafe(no_mangle)]
pub extern "C" fn umlazgrin_match_place(
    forms: &[u8],
    first: usize,
    room: &mut [u8],
    out: &mut [u8],
    report: &mut [usize; 5],
    place: &mut [u8; 64],
) -> u8
    ensures { Places (matcher.outcome forms.now first (length room.old) (length out.old)) room.old room.new out.old out.new report.old report.new place.old place.new result }
{
    let m = umlazgrin::matches(forms, first, room, out);
    let stop = m.place;
    match m.answer {
        Err(e) => refusals::number_of(e),
        Ok(verdict) => match verdict {
            Verdict::NoMatch => {
                *place = stop;
                NO_MATCH
            }
            Verdict::TooManyNames => TOO_MANY_NAMES,
            Verdict::Matched(p) => {
                *report = [p.count, p.name_1, p.node_1, p.name_2, p.node_2];
                0
            }
        },
    }
}

// The same without the place.
#[unsafe(no_mangle)]
pub extern "C" fn umlazgrin_match(
    forms: &[u8],
    first: usize,
    room: &mut [u8],
    out: &mut [u8],
    report: &mut [usize; 5],
) -> u8
    ensures { Reports (matcher.outcome forms.now first (length room.old) (length out.old)) room.old room.new out.old out.new report.old report.new result }
{
    let mut place = [0u8; 64];
    umlazgrin_match_place(forms, first, room, out, report, &mut place)
}

// Reads the form and no more. report: units.
#[unsafe(no_mangle)]
pub extern "C" fn umlazgrin_check(form: &[u8], room: &mut [u8], report: &mut [usize; 1]) -> u8
    ensures { Reports (forms.read_outcome form.now (length room.old)) room.old room.new [] [] report.old report.new result }
{
    match umlazgrin::read(form, room) {
        Err(refusal) => refusals::number_of(refusal),
        Ok(units) => {
            *report = [units];
            0
        }
    }
}

// Reads the form and writes it again. report: length, units.
#[unsafe(no_mangle)]
pub extern "C" fn umlazgrin_write(
    form: &[u8],
    room: &mut [u8],
    out: &mut [u8],
    report: &mut [usize; 2],
) -> u8
    ensures { Reports (forms.write_outcome form.now (length room.old) (length out.old)) room.old room.new out.old out.new report.old report.new result }
{
    match umlazgrin::write(form, room, out) {
        Err(e) => refusals::number_of(e),
        Ok(w) => {
            *report = [w.length, w.units];
            0
        }
    }
}

// ---- savings over a list of forms

fn from_numbers(q: [u64; 27]) -> Savings
    ensures { result ≡ savings_in q }
{
    Savings {
        answered: q[0],
        refused: [
            q[1], q[2], q[3], q[4], q[5], q[6], q[7], q[8], q[9], q[10], q[11], q[12], q[13], q[14],
        ],
        marked: q[15],
        before: q[16],
        after: q[17],
        passes: q[18],
        rules: [q[19], q[20], q[21], q[22], q[23], q[24], q[25], q[26]],
    }
}

fn to_numbers(s: Savings) -> [u64; 27]
    ensures { result ≡ numbers_of s }
{
    let n = s.refused;
    let r = s.rules;
    [
        s.answered, n[0], n[1], n[2], n[3], n[4], n[5], n[6], n[7], n[8], n[9], n[10], n[11],
        n[12], n[13], s.marked, s.before, s.after, s.passes, r[0], r[1], r[2], r[3], r[4], r[5],
        r[6], r[7],
    ]
}

// Works the form into a running report, which starts as all zero: answered; refused by each of the numbers 1 to 14; marked; bytes
// before and after; passes; each of the eight rules. It returns the form's number, which the report then has in its column; or 17,
// and the report is as it came in.
#[unsafe(no_mangle)]
pub extern "C" fn umlazgrin_add_form(form: &[u8], room: &mut [u8], report: &mut [u64; 27]) -> u8
    ensures { Totals form.now room.old room.new report.old report.new result }
{
    let a = umlazgrin::add_form(form, room, from_numbers(*report));
    match a.column {
        Column::Answered => {
            *report = to_numbers(a.savings);
            0
        }
        Column::Refused(e) => {
            *report = to_numbers(a.savings);
            refusals::number_of(e)
        }
        Column::Full => refusals::number_of(Refusal::ReportFull),
    }
}

// ---- the notation

// Reads the text and writes its tree as a form. report: length, units.
#[unsafe(no_mangle)]
pub extern "C" fn umlazgrin_read_text(
    text: &[u8],
    room: &mut [u8],
    out: &mut [u8],
    report: &mut [usize; 2],
) -> u8
    ensures { Reports (notation.read_text_outcome text.now (length room.old) (length out.old)) room.old room.new out.old out.new report.old report.new result }
{
    match umlazgrin::read_text(text, room, out) {
        Err(e) => refusals::number_of(e),
        Ok(w) => {
            *report = [w.length, w.units];
            0
        }
    }
}

// Reads the form and writes its tree as text. report: length, units.
#[unsafe(no_mangle)]
pub extern "C" fn umlazgrin_write_text(
    form: &[u8],
    room: &mut [u8],
    out: &mut [u8],
    report: &mut [usize; 2],
) -> u8
    ensures { Reports (notation.write_text_outcome form.now (length room.old) (length out.old)) room.old room.new out.old out.new report.old report.new result }
{
    match umlazgrin::write_text(form, room, out) {
        Err(e) => refusals::number_of(e),
        Ok(w) => {
            *report = [w.length, w.units];
            0
        }
    }
}

// From text to text. report: length, passes, units, mark.
#[unsafe(no_mangle)]
pub extern "C" fn umlazgrin_optimise_text(
    text: &[u8],
    room: &mut [u8],
    out: &mut [u8],
    report: &mut [usize; 4],
) -> u8
    ensures { Reports (notation.optimise_text_outcome text.now (length room.old) (length out.old)) room.old room.new out.old out.new report.old report.new result }
{
    match umlazgrin::optimise_text(text, room, out) {
        Err(e) => refusals::number_of(e),
        Ok(a) => {
            *report = [a.length, a.passes, a.units, a.mark as usize];
            0
        }
    }
}

// From text to text. report: length, steps, units.
#[unsafe(no_mangle)]
pub extern "C" fn umlazgrin_evaluate_text(
    texts: &[u8],
    first: usize,
    room: &mut [u8],
    out: &mut [u8],
    report: &mut [usize; 3],
) -> u8
    ensures { Reports (notation.evaluate_text_outcome texts.now first (length room.old) (length out.old)) room.old room.new out.old out.new report.old report.new result }
{
    match umlazgrin::evaluate_text(texts, first, room, out) {
        Err(e) => refusals::number_of(e),
        Ok(v) => {
            *report = [v.length, v.steps, v.units];
            0
        }
    }
}

// Says where the text stops, if it does not parse. report: 1 and the place, or 0 and 0.
#[unsafe(no_mangle)]
pub extern "C" fn umlazgrin_text_fault(text: &[u8], room: &mut [u8], report: &mut [usize; 2]) -> u8
    ensures { Reports (faults.fault_outcome text.now (length room.old)) room.old room.new [] [] report.old report.new result }
{
    match umlazgrin::text_fault(text, room) {
        Err(e) => refusals::number_of(e),
        Ok(fault) => {
            *report = match fault {
                Some(place) => [1, place],
                None => [0, 0],
            };
            0
        }
    }
}
