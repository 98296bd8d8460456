// The evaluator on bytes alone: the program's form and the environment's stand one after the other in one lent slice.
#![tactic(auto)]

ghost use Rattle.std.specs.Prelude.{◌≤◌, length, take, drop};
ghost use Rattle.meaning.specs.Limits.{room_least};
ghost use Rattle.meaning.specs.Outcome.{ended, Delivers, Settles};
ghost use Rattle.evaluation.specs.Bytes.{worked, delivered, outcome, says};
ghost use Rattle.evaluation.specs.Work.{WorkedOk};

use evaluator::{Meter, Valued};
use form::Two;
use refusals::Refusal;
use store::ROOM;

// The value's length in bytes, and the steps and units spent.
#[derive(Clone, Copy)]
pub struct Evaluated {
    pub length: usize,
    pub steps: usize,
    pub units: usize,
}

// Reads the program, the first bytes, and then the environment, what follows them; and evaluates.
pub fn work(forms: &[u8], room: &mut [u8], first: usize) -> Result<Valued, Refusal>
    requires { room_least ≤ length room.old }
    ensures { WorkedOk forms.now room.new (worked (take first forms.now) (drop first forms.now)) result }
{
    let Two { first, second, ch } = form::read_two(forms, room, first)?;
    evaluator::eval_node(forms, room, Meter { steps: 0, ch }, first, second)
}

// Works, and writes the value where it fits. What the work left in the room stands there still.
fn deliver(
    forms: &[u8],
    room: &mut [u8],
    first: usize,
    out: &mut [u8],
) -> Result<Evaluated, Refusal>
    requires { room_least ≤ length room.old }
    ensures { Delivers says (ended (delivered (length out.old)) (worked (take first forms.now) (drop first forms.now))) out.old out.new result }
{
    let Valued { node, meter } = work(forms, room, first)?;
    let length = form::deliver_node(forms, room, node, out).ok_or(Refusal::OutputShort)?;
    Ok(Evaluated {
        length,
        steps: meter.steps,
        units: meter.ch.units,
    })
}

// The value of the program, the first bytes, in the environment, what follows them. The room is all zero after, but for refusal 1.
pub fn evaluate(
    forms: &[u8],
    first: usize,
    room: &mut [u8],
    out: &mut [u8],
) -> Result<Evaluated, Refusal>
    ensures { Settles says (outcome forms.now first (length room.old) (length out.old)) room.old room.new out.old out.new result }
{
    if room.len() < ROOM {
        return Err(Refusal::RoomSmall);
    }
    let a = deliver(forms, room, first, out);
    store::zero_room(room);
    a
}
