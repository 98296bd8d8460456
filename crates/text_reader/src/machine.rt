// A machine over tokens: what is wanted next, the lists that are open, and the form so far.
ghost use Rattle.std.specs.Prelude.{◌≡◌, ◌≤◌, ◌<◌, length, drop};
ghost use Rattle.meaning.specs.Limits.{room_least};
ghost use Rattle.notation.specs.Texts.{text_limit};
ghost use Rattle.text_reader.specs.Forms.{Within};
ghost use Rattle.text_reader.specs.Machine.{want_of, back, on_opening, on_closing, place_of};
ghost use Rattle.text_reader.specs.Turns.{opening_of, wanted_after, dotted, end_turn, turn_of, StepOk, AtomOk, LongOk, WordOk, PopOk, Fair, TurnOk};

use crate::emit::{emit_byte, emit_pair, emit_part};
use crate::scan::{Token, next_token};
use crate::words::word_bytes;
use decimals::Spelled;
use notation::{Place, is_one};

// What is wanted next: the whole expression; a list's first part, at a place; a part after it; the part after a dot; the bracket after
// that; or nothing.
#[derive(Clone, Copy)]
pub(crate) enum Want {
    Whole,
    First(Place),
    More(Place),
    Last(Place),
    Bracket,
    Nothing,
}

// An open list, by what is wanted once it is closed: nothing; a part in code or data after it; or the bracket after it, where it is the
// part after a dot.
#[derive(Clone, Copy)]
pub(crate) enum Frame {
    Outermost,
    BeforeCode,
    BeforeData,
    AfterDot,
}

// As many are kept as a text may have bytes: one byte each.
const _: () = prove!(size_of::<Frame>() == 1);

// Between two tokens: where the next stands, what is wanted, how many lists are open, how many bytes stand in the form so far (or none is
// said: more would have to stand than may).
#[derive(Clone, Copy)]
pub(crate) struct Reading {
    pub at: usize,
    pub want: Want,
    pub depth: usize,
    pub grown: Option<usize>,
}

// After a token or the text's end.
#[derive(Clone, Copy)]
pub(crate) enum Turn {
    Goes(Reading),
    Done(Option<usize>),
    Fails,
}

// What a bracket opens: what is wanted in it, what is wanted after it, and whether it is the left part of a pair.
#[derive(Clone, Copy)]
pub(crate) struct Opened {
    pub within: Want,
    pub after: Frame,
    pub pair: bool,
}

// What is wanted after an atom, and whether it is the left part of a pair.
#[derive(Clone, Copy)]
pub(crate) struct Wanted {
    pub want: Want,
    pub pair: bool,
}

// What is wanted once a list is closed.
#[tactic(auto, unfolding(crate::specs::Machine::want_of))]
fn want_of(k: Frame) -> Want
    ensures { result ≡ want_of k }
{
    match k {
        Frame::Outermost => Want::Nothing,
        Frame::BeforeCode => Want::More(Place::Code),
        Frame::BeforeData => Want::More(Place::Data),
        Frame::AfterDot => Want::Bracket,
    }
}

// A part at p that is a list.
fn back(p: Place) -> Frame
    ensures { result ≡ back p }
{
    match p {
        Place::Operator | Place::Code => Frame::BeforeCode,
        Place::Data => Frame::BeforeData,
    }
}

fn opened_in(w: Want) -> Option<Opened>
    ensures { result ≡ opening_of w }
{
    match w {
        Want::Whole => Some(Opened {
            within: Want::First(Place::Operator),
            after: Frame::Outermost,
            pair: false,
        }),
        Want::First(p) | Want::More(p) => Some(Opened {
            within: Want::First(p.head_in()),
            after: back(p),
            pair: true,
        }),
        Want::Last(p) => Some(Opened {
            within: Want::First(p),
            after: Frame::AfterDot,
            pair: false,
        }),
        Want::Bracket | Want::Nothing => None,
    }
}

fn on_open(frames: &mut [Frame], form: &mut [u8], r: Reading, next: usize) -> Option<Reading>
    requires { (r.depth < length frames.old) × (r.depth < 65536) × (8192 ≤ length form.old) × Within r.grown }
    ensures { StepOk on_opening frames.old frames.new form.old form.new r next result }
{
    let opened = opened_in(r.want)?;
    frames[r.depth] = opened.after;
    Some(Reading {
        at: next,
        want: opened.within,
        depth: r.depth + 1,
        grown: emit_pair(form, r.grown, opened.pair),
    })
}

// The innermost list is closed, with g in the form.
#[tactic(auto, unfolding(crate::specs::Turns::PopOk, crate::specs::Machine::pop, crate::specs::Turns::stack_in))]
fn pop(frames: &[Frame], depth: usize, grown: Option<usize>, next: usize) -> Option<Reading>
    requires { depth ≤ length frames.now }
    ensures { PopOk frames.now depth grown next result }
{
    if depth == 0 {
        return None;
    }
    Some(Reading {
        at: next,
        want: want_of(frames[depth - 1]),
        depth: depth - 1,
        grown,
    })
}

fn on_close(frames: &[Frame], form: &mut [u8], r: Reading, next: usize) -> Option<Reading>
    requires { (r.depth ≤ length frames.now) × (8192 ≤ length form.old) × Within r.grown }
    ensures { StepOk on_closing frames.now frames.now form.old form.new r next result }
{
    match r.want {
        Want::First(_) | Want::More(_) => {
            let g = emit_byte(form, r.grown, 0x80);
            pop(frames, r.depth, g, next)
        }
        Want::Bracket => pop(frames, r.depth, r.grown, next),
        Want::Whole | Want::Last(_) | Want::Nothing => None,
    }
}

fn on_dot(r: Reading, next: usize) -> Option<Reading>
    ensures { result ≡ dotted r.want r next }
{
    match r.want {
        Want::More(p) => Some(Reading {
            at: next,
            want: Want::Last(p),
            ..r
        }),
        _ => None,
    }
}

// What is wanted after an atom that is the byte 1, or another.
fn after_part(w: Want, one: bool) -> Option<Wanted>
    ensures { result ≡ wanted_after w one }
{
    match w {
        Want::Whole => Some(Wanted {
            want: Want::Nothing,
            pair: false,
        }),
        Want::First(p) | Want::More(p) => Some(Wanted {
            want: Want::More(p.after(one)),
            pair: true,
        }),
        Want::Last(_) => Some(Wanted {
            want: Want::Bracket,
            pair: false,
        }),
        Want::Bracket | Want::Nothing => None,
    }
}

// An atom of these bytes.
fn on_atom(form: &mut [u8], r: Reading, b: &[u8], next: usize) -> Option<Reading>
    requires { (8192 ≤ length form.old) × Within r.grown }
    ensures { AtomOk b.now form.old form.new r next result }
{
    let wanted = after_part(r.want, is_one(b))?;
    Some(Reading {
        at: next,
        want: wanted.want,
        grown: emit_part(form, r.grown, wanted.pair, b),
        ..r
    })
}

// An atom of more bytes than a form may have.
fn on_long(r: Reading, next: usize) -> Option<Reading>
    ensures { LongOk r next result }
{
    let wanted = after_part(r.want, false)?;
    Some(Reading {
        at: next,
        want: wanted.want,
        grown: None,
        ..r
    })
}

// The place at which a word would stand: a word where none is wanted is refused later.
fn place_of(w: Want) -> Place
    ensures { result ≡ place_of w }
{
    match w {
        Want::Whole => Place::Code,
        Want::First(p) | Want::More(p) | Want::Last(p) => p,
        Want::Bracket | Want::Nothing => Place::Data,
    }
}

// An atom of the bytes that stand from at on in the room.
fn on_spelled(form: &mut [u8], room: &[u8], at: usize, r: Reading, next: usize) -> Option<Reading>
    requires { (at ≤ length room.now) × (8192 ≤ length form.old) × Within r.grown }
    ensures { AtomOk (drop at room.now) form.old form.new r next result }
{
    on_atom(form, r, &room[at..], next)
}

fn on_word(v: &[u8], room: &mut [u8], form: &mut [u8], r: Reading, next: usize) -> Option<Reading>
    requires { (length v.now < length room.old) × (8192 ≤ length form.old) × Within r.grown }
    ensures { WordOk v.now form.old form.new r next result }
{
    match word_bytes(place_of(r.want), v, room) {
        Spelled::From(at) => on_spelled(form, room, at, r, next),
        Spelled::Long => on_long(r, next),
        Spelled::Nothing => None,
    }
}

fn at_end(r: Reading) -> Turn
    ensures { result ≡ end_turn r.want r.grown }
{
    match r.want {
        Want::Nothing => Turn::Done(r.grown),
        _ => Turn::Fails,
    }
}

fn turned(s: Option<Reading>) -> Turn
    ensures { result ≡ turn_of s }
{
    match s {
        Some(q) => Turn::Goes(q),
        None => Turn::Fails,
    }
}

// The next token of the text, or its end.
pub(crate) fn take_token(
    text: &[u8],
    frames: &mut [Frame],
    room: &mut [u8],
    form: &mut [u8],
    r: Reading,
) -> Turn
    requires { Fair text.now frames.old form.old r × (length text.now ≤ text_limit) × (room_least ≤ length room.old) }
    ensures { TurnOk text.now frames.old frames.new form.old form.new r result }
{
    match next_token(text, r.at) {
        Token::Open(next) => turned(on_open(frames, form, r, next)),
        Token::Close(next) => turned(on_close(frames, form, r, next)),
        Token::Dot(next) => turned(on_dot(r, next)),
        Token::Word(from, to) => turned(on_word(&text[from..to], room, form, r, to)),
        Token::Quoted(from, to) => turned(on_atom(form, r, &text[from..to], to + 1)),
        Token::Wrong(_) => Turn::Fails,
        Token::End => at_end(r),
    }
}
