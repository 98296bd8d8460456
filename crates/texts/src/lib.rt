// The notation on byte slices: text to the serialised form and back, and optimising and evaluating from text to text.
#![tactic(auto)]

ghost use Rattle.std.specs.Prelude.{◌≤◌, [], length, take, drop};
ghost use Rattle.meaning.specs.Limits.{room_least, form_limit};
ghost use Rattle.meaning.specs.Form.{read_form};
ghost use Rattle.meaning.specs.Outcome.{ended, Delivers, Settles};
ghost use Rattle.meaning.specs.Run.{worked_on, worked};
ghost use Rattle.form.specs.Bytes.{write_says};
ghost use Rattle.optimiser.specs.Optimised.{says as run-says};
ghost use Rattle.evaluation.specs.Bytes.{worked_on as evaluated-on, worked as evaluated, says as value-says};
ghost use Rattle.notation.specs.Grammar.{read_text};
ghost use Rattle.texts.specs.Outcomes.{read_text_outcome, delivered_text, write_text_outcome, delivered_run, optimise_text_outcome, read_texts, delivered_value, evaluate_text_outcome};
ghost use Rattle.texts.specs.Faults.{fault_outcome, fault_says};
ghost use Rattle.texts.specs.Converting.{forms_most, FirstOk, BothOk};

use evaluation::Evaluated;
use evaluator::Valued;
use form::Written;
use optimiser::{Finished, Report};
use refusals::Refusal;
use store::{Made, ROOM};
use text_reader::{fault_of_text, form_of_text};
use text_writer::deliver_text;

// How many bytes the first form takes, and both.
#[derive(Clone, Copy)]
pub(crate) struct Forms {
    pub(crate) first: usize,
    pub(crate) both: usize,
}

// ---- text in, serialised form out

// The serialised form of the text's tree. The room is all zero after, but for refusal 1.
pub fn read_text(text: &[u8], room: &mut [u8], out: &mut [u8]) -> Result<Written, Refusal>
    ensures { Settles write_says (read_text_outcome text.now (length room.old) (length out.old)) room.old room.new out.old out.new result }
{
    if room.len() < ROOM {
        return Err(Refusal::RoomSmall);
    }
    let mut form = [0u8; 8192];
    match form_of_text(text, room, &mut form) {
        Ok(n) => form::write(&form[..n], room, out),
        Err(e) => {
            store::zero_room(room);
            Err(e)
        }
    }
}

// ---- where a text stops

// The place in the text that refusal 15 is about, as a count of the bytes before it; or none where the text parses. The room is all
// zero after, but for refusal 1.
pub fn text_fault(text: &[u8], room: &mut [u8]) -> Result<Option<usize>, Refusal>
    ensures { Settles fault_says (fault_outcome text.now (length room.old)) room.old room.new [] [] result }
{
    if room.len() < ROOM {
        return Err(Refusal::RoomSmall);
    }
    let fault = fault_of_text(text, room);
    store::zero_room(room);
    fault
}

// ---- serialised form in, text out

// Reads the form, and writes its tree's text where it fits. What was read stands in the room still.
fn write_form(form: &[u8], room: &mut [u8], out: &mut [u8]) -> Result<Written, Refusal>
    requires { room_least ≤ length room.old }
    ensures { Delivers write_says (ended (delivered_text (length out.old)) (read_form form.now 0)) out.old out.new result }
{
    let Made { node, ch } = form::read_whole(form, room)?;
    let length = deliver_text(form, room, node, out).ok_or(Refusal::OutputShort)?;
    Ok(Written {
        length,
        units: ch.units,
    })
}

// The text of the form's tree. The room is all zero after, but for refusal 1.
pub fn write_text(form: &[u8], room: &mut [u8], out: &mut [u8]) -> Result<Written, Refusal>
    ensures { Settles write_says (write_text_outcome form.now (length room.old) (length out.old)) room.old room.new out.old out.new result }
{
    if room.len() < ROOM {
        return Err(Refusal::RoomSmall);
    }
    let a = write_form(form, room, out);
    store::zero_room(room);
    a
}

// ---- optimising, from text to text

// Optimises the form's tree, and writes its text where it fits. What the run left in the room stands there still.
fn run_form(form: &[u8], room: &mut [u8], out: &mut [u8]) -> Result<Report, Refusal>
    requires { room_least ≤ length room.old }
    ensures { Delivers run-says (ended (delivered_run (length out.old)) (worked form.now)) out.old out.new result }
{
    let Finished { node, work } = optimiser::worked(form, room)?;
    let length = deliver_text(form, room, node, out).ok_or(Refusal::OutputShort)?;
    Ok(Report {
        length,
        passes: work.passes,
        units: work.ch.units,
        mark: work.mark,
    })
}

// The text's tree, in the same way.
fn run_text(text: &[u8], room: &mut [u8], out: &mut [u8]) -> Result<Report, Refusal>
    requires { room_least ≤ length room.old }
    ensures { Delivers run-says (ended (delivered_run (length out.old)) (worked_on (read_text text.now 0))) out.old out.new result }
{
    let mut form = [0u8; 8192];
    let n = form_of_text(text, room, &mut form)?;
    run_form(&form[..n], room, out)
}

// The text's tree, optimised and written as text to the front of out. The room is all zero after, but for refusal 1.
pub fn optimise_text(text: &[u8], room: &mut [u8], out: &mut [u8]) -> Result<Report, Refusal>
    ensures { Settles run-says (optimise_text_outcome text.now (length room.old) (length out.old)) room.old room.new out.old out.new result }
{
    if room.len() < ROOM {
        return Err(Refusal::RoomSmall);
    }
    let a = run_text(text, room, out);
    store::zero_room(room);
    a
}

// ---- evaluating, from text to text

// The program's form, at the front of forms. It is read here once, since its refusals come before those of the environment's text.
fn convert_first(text: &[u8], room: &mut [u8], forms: &mut [u8]) -> Result<usize, Refusal>
    requires { (room_least ≤ length room.old) × (form_limit ≤ length forms.old) }
    ensures { FirstOk text.now forms.new result }
{
    let n = form_of_text(text, room, forms)?;
    // Arms in place of `?`: the edit environment_before_the_program changes what the second gives, and nothing else.
    match form::read_whole(&forms[..n], room) {
        Ok(_) => Ok(n),
        Err(e) => Err(e),
    }
}

// The program's form and, behind it, the environment's: the program's text is texts[..mid].
fn convert_both(
    texts: &[u8],
    mid: usize,
    room: &mut [u8],
    forms: &mut [u8],
) -> Result<Forms, Refusal>
    requires { (room_least ≤ length room.old) × (forms_most ≤ length forms.old) × (mid ≤ length texts.now) }
    ensures { BothOk (take mid texts.now) (drop mid texts.now) forms.new result }
{
    let first = convert_first(&texts[..mid], room, forms)?;
    let n = form_of_text(&texts[mid..], room, &mut forms[first..])?;
    Ok(Forms {
        first,
        both: first + n,
    })
}

// Evaluates the program, the first bytes, in the environment, what follows them; and writes the value's text where it fits. What the
// work left in the room stands there still.
fn value_of_forms(
    forms: &[u8],
    first: usize,
    room: &mut [u8],
    out: &mut [u8],
) -> Result<Evaluated, Refusal>
    requires { room_least ≤ length room.old }
    ensures { Delivers value-says (ended (delivered_value (length out.old)) (evaluated (take first forms.now) (drop first forms.now))) out.old out.new result }
{
    let Valued { node, meter } = evaluation::work(forms, room, first)?;
    let length = deliver_text(forms, room, node, out).ok_or(Refusal::OutputShort)?;
    Ok(Evaluated {
        length,
        steps: meter.steps,
        units: meter.ch.units,
    })
}

// The same of texts: the program's text is the first bytes, and the environment's what follows them.
fn value_of_texts(
    texts: &[u8],
    first: usize,
    room: &mut [u8],
    out: &mut [u8],
) -> Result<Evaluated, Refusal>
    requires { room_least ≤ length room.old }
    ensures { Delivers value-says (ended (delivered_value (length out.old)) (evaluated-on (read_texts (take first texts.now) (drop first texts.now)))) out.old out.new result }
{
    let mid = form::cut(texts, first);
    let mut forms = [0u8; 16384];
    let Forms { first, both } = convert_both(texts, mid, room, &mut forms)?;
    value_of_forms(&forms[..both], first, room, out)
}

// The value, as text, of the program, whose text is the first bytes, in the environment, whose text is what follows them. The room is
// all zero after, but for refusal 1.
pub fn evaluate_text(
    texts: &[u8],
    first: usize,
    room: &mut [u8],
    out: &mut [u8],
) -> Result<Evaluated, Refusal>
    ensures { Settles value-says (evaluate_text_outcome texts.now first (length room.old) (length out.old)) room.old room.new out.old out.new result }
{
    if room.len() < ROOM {
        return Err(Refusal::RoomSmall);
    }
    let a = value_of_texts(texts, first, room, out);
    store::zero_room(room);
    a
}
