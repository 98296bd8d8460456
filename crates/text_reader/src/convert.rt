// The whole of a text.
ghost use Rattle.std.specs.Prelude.{◌≡◌, ◌≤◌, length};
ghost use Rattle.meaning.specs.Limits.{room_least, form_limit};
ghost use Rattle.notation.specs.Texts.{text_limit};
ghost use Rattle.text_reader.specs.Converts.{begun, EndingOk, ConvertedOk, FaultOk};

use crate::machine::{Frame, Reading, Turn, Want, take_token};
use crate::scan::next_place;
use refusals::Refusal;

const TEXT: usize = 32768;

fn start() -> Reading
    ensures { result ≡ begun }
{
    Reading {
        at: 0,
        want: Want::Whole,
        depth: 0,
        grown: Some(0),
    }
}

// Token by token: how many bytes the form has (none is said where it is too long), where nothing more is wanted at the end; or the place
// from which on the next token may not stand.
fn take_tokens(
    text: &[u8],
    frames: &mut [Frame],
    room: &mut [u8],
    form: &mut [u8],
) -> Result<Option<usize>, usize>
    requires { (length text.now ≤ text_limit) × (text_limit ≤ length frames.old) × (room_least ≤ length room.old) × (form_limit ≤ length form.old) }
    ensures { EndingOk text.now form.new result }
{
    let mut r = start();
    'tokens: loop {
        match take_token(text, frames, room, form, r) {
            Turn::Goes(q) => {
                r = q;
            }
            Turn::Done(g) => {
                return Ok(g);
            }
            Turn::Fails => {
                return Err(r.at);
            }
        }
    }
}

// The whole machine. What is wanted after each open list stands here and not with the callers, whose frames stay while a form is worked.
fn convert(text: &[u8], room: &mut [u8], form: &mut [u8]) -> Result<Option<usize>, usize>
    requires { (length text.now ≤ text_limit) × (room_least ≤ length room.old) × (form_limit ≤ length form.old) }
    ensures { EndingOk text.now form.new result }
{
    let mut frames = [Frame::Outermost; 32768];
    take_tokens(text, &mut frames, room, form)
}

// The serialised form of the text's tree, at the front of form, which has 8,192 bytes at least: how many bytes it has. Words are spelled
// out in the room, which has 65,536 bytes at least.
pub fn form_of_text(text: &[u8], room: &mut [u8], form: &mut [u8]) -> Result<usize, Refusal>
    requires { (room_least ≤ length room.old) × (form_limit ≤ length form.old) }
    ensures { ConvertedOk text.now form.new result }
{
    if TEXT < text.len() {
        return Err(Refusal::TextLong);
    }
    // Refusal 2 comes after 15.
    match convert(text, room, form) {
        Ok(Some(n)) => Ok(n),
        Ok(None) => Err(Refusal::FormLong),
        Err(_) => Err(Refusal::NoParse),
    }
}

// Where a text stops that does not parse, or none where it parses: the same machine, and its form is dropped. Refused is a text that is
// too long to be looked at.
pub fn fault_of_text(text: &[u8], room: &mut [u8]) -> Result<Option<usize>, Refusal>
    requires { room_least ≤ length room.old }
    ensures { FaultOk text.now result }
{
    if TEXT < text.len() {
        return Err(Refusal::TextLong);
    }
    let mut form = [0u8; 8192];
    match convert(text, room, &mut form) {
        Ok(_) => Ok(None),
        Err(at) => Ok(Some(next_place(text, at))),
    }
}
