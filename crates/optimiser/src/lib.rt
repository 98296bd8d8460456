// The optimiser on byte slices: a form is read, worked to its end and written.
#![tactic(auto)]

ghost use Rattle.std.specs.Prelude.{◌≡◌, ◌≤◌, length};
ghost use Rattle.meaning.specs.Limits.{room_least};
ghost use Rattle.meaning.specs.Outcome.{ended, Delivers};
ghost use Rattle.meaning.specs.Run.{worked, ends_in, deliver_run};
ghost use Rattle.run_state.specs.Notes.{count_records, Noted};
ghost use Rattle.optimiser.specs.Optimised.{says, Optimised};
ghost use Rattle.optimiser.specs.Worked.{Fresh, finish_at, WorkedOk};

use patterns::Patterns;
use refusals::Refusal;
use run_state::{Notes, Outcome, Record, Work};
use store::{Charges, ROOM};

// What an answer reports: how many bytes were written, and what the run took.
#[derive(Clone, Copy)]
pub struct Report {
    pub length: usize,
    pub passes: usize,
    pub units: usize,
    pub mark: bool,
}

// The finished tree's node, and what the run took.
#[derive(Clone, Copy)]
pub struct Finished {
    pub node: usize,
    pub work: Work,
}

// What the driver says of the node n.
fn finish(w: Work, n: usize) -> Result<Finished, Refusal>
    ensures { result ≡ finish_at n w w.last }
{
    match w.last {
        Outcome::Same => Ok(Finished { node: n, work: w }),
        Outcome::Changed(m) => Ok(Finished { node: m, work: w }),
        Outcome::Stopped(e) => Err(e),
    }
}

// Reads the form and works its tree. The memo's row is lent after the reading.
fn read_and_work(
    form: &[u8],
    room: &mut [u8],
    p: Patterns,
    ch: Charges,
) -> Result<Finished, Refusal>
    requires { Fresh form.now room.old ch p }
    ensures { WorkedOk form.now room.new result }
{
    let tree = form::read_form(form, room, 0, form.len(), ch)?;
    let n = tree.node;
    let mut row = [[0u16; 6]; 256];
    let w = driver::optimize_node(form, room, &mut row[..], p, tree.ch, n, Notes::Nothing);
    finish(w, n)
}

// All of a run's work, whatever the room held. The patterns are laid first, below the form's nodes and free of units.
pub fn worked(form: &[u8], room: &mut [u8]) -> Result<Finished, Refusal>
    requires { room_least ≤ length room.old }
    ensures { WorkedOk form.now room.new result }
{
    let ch = store::start(form, room);
    let a = patterns::lay_patterns(form, room, ch);
    read_and_work(form, room, a.patterns, a.ch)
}

// The same with a row of the caller's, in which what is noted stands after.
fn read_and_note(
    form: &[u8],
    room: &mut [u8],
    row: &mut [Record],
    p: Patterns,
    ch: Charges,
    notes: Notes,
) -> Result<Finished, Refusal>
    requires { Fresh form.now room.old ch p × (count_records ≤ length row.old) }
    ensures { WorkedOk form.now room.new result × Noted notes row.old row.new (ends_in form.now) }
{
    let tree = form::read_form(form, room, 0, form.len(), ch)?;
    let w = driver::optimize_node(form, room, row, p, tree.ch, tree.node, notes);
    finish(w, tree.node)
}

pub fn worked_noting(
    form: &[u8],
    room: &mut [u8],
    row: &mut [Record],
    notes: Notes,
) -> Result<Finished, Refusal>
    requires { (room_least ≤ length room.old) × (count_records ≤ length row.old) }
    ensures { WorkedOk form.now room.new result × Noted notes row.old row.new (ends_in form.now) }
{
    let ch = store::start(form, room);
    let a = patterns::lay_patterns(form, room, ch);
    read_and_note(form, room, row, a.patterns, a.ch, notes)
}

// Writes the finished tree where it fits.
fn deliver<'a>(
    form: &'a [u8],
    room: &'a [u8],
    x: Result<Finished, Refusal>,
    out: &mut [u8],
) -> Result<Report, Refusal>
    requires { WorkedOk form.now room.now x }
    ensures { Delivers says (ended (deliver_run (length out.old)) (worked form.now)) out.old out.new result }
{
    let Finished { node, work } = x?;
    match form::deliver_node(form, room, node, out) {
        None => Err(Refusal::OutputShort),
        Some(length) => Ok(Report {
            length,
            passes: work.passes,
            units: work.ch.units,
            mark: work.mark,
        }),
    }
}

// The form's tree, optimised and written to the front of out. The room is all zero after, but for refusal 1.
pub fn optimise(form: &[u8], room: &mut [u8], out: &mut [u8]) -> Result<Report, Refusal>
    ensures { Optimised form.now room.old out.old result room.new out.new }
{
    if room.len() < ROOM {
        return Err(Refusal::RoomSmall);
    }
    let x = worked(form, room);
    let a = deliver(form, room, x, out);
    store::zero_room(room);
    a
}
