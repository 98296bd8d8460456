// What the driver does between its calls of itself.
#![tactic(auto)]

ghost use Rattle.std.specs.Prelude.{◌≡◌, ◌||◌};
ghost use Rattle.meaning.specs.Meter.{done, give};
ghost use Rattle.meaning.specs.Rules.{non_constant};
ghost use Rattle.meaning.proofs.Operands.{ending};
ghost use Rattle.store.specs.Cells.{Room};
ghost use Rattle.store.specs.Nodes.{tree_in};
ghost use Rattle.store.specs.Store.{Ready};
ghost use Rattle.sexp.specs.Lists.{Items};
ghost use Rattle.patterns.specs.Patterns.{Patterned};
ghost use Rattle.run_state.specs.Work.{spent_of, with_last, Did};
ghost use Rattle.driver_parts.specs.Turns.{optimizer, Simple, kept, Keepable, Listable, KeptBody, KeptList, Begun, outcome_of};
ghost use Rattle.driver_parts.specs.Walk.{made_list, sets_flag, wrap, Walked, Puttable, PutBefore, Stands, Became};

use patterns::Patterns;
use refusals::Refusal;
use run_state::{Outcome, Work};
use store::Cell;

// ---- the walk over a list

// What an element became: its node, and the flag after it.
#[derive(Clone, Copy)]
pub struct Element {
    pub node: u16,
    pub flag: bool,
}

// An operand that `non_constant_count` counts: a pair headed by an atom other than the byte 1.
fn non_constant_node<'a>(form: &'a [u8], room: &'a [u8], n: usize) -> bool
    requires { Room room.now n }
    ensures { result ≡ non_constant (tree_in form.now room.now n) }
{
    match store::look_node(room, n) {
        Cell::Pair(o, _) => match store::look_node(room, o) {
            Cell::Atom => !sexp::is_byte_node(form, room, o, 1),
            Cell::Pair(_, _) => false,
        },
        Cell::Atom => false,
    }
}

// The flag after an element that was worked into n, and moved or not: rule 4 (count) asks what it became, rule 5 whether it differs.
fn flag_after<'a>(
    form: &'a [u8],
    room: &'a [u8],
    n: usize,
    count: bool,
    moved: bool,
    flag: bool,
) -> bool
    requires { Room room.now n }
    ensures { result ≡ (flag || sets_flag count moved (tree_in form.now room.now n)) }
{
    if flag {
        return true;
    }
    if count {
        non_constant_node(form, room, n)
    } else {
        moved
    }
}

// Is the list made anew? Rule 4 makes it where no operand was counted, rule 5 where an element differs.
pub fn is_made(count: bool, flag: bool) -> bool
    ensures { result ≡ made_list count flag }
{
    if count { !flag } else { flag }
}

// The list of the first k of got before tail, where it is made.
pub fn build(
    form: &[u8],
    room: &mut [u8],
    w: Work,
    got: [u16; 48],
    k: usize,
    tail: usize,
    make: bool,
) -> Work
    requires { Ready form.now room.old w.ch tail × Items room.old w.ch got k }
    ensures { Walked form.now room.old room.new w (wrap form.now room.old got k (done (ending make (tree_in form.now room.old tail)) (spent_of w))) result }
{
    if !make {
        return run_state::with(w, Outcome::Same);
    }
    let m = sexp::enlist_node(form, room, w.ch, &got, k, tail);
    run_state::put(w, m)
}

// The first k of got before what came of the rest of the list, as w says.
pub fn put_before(form: &[u8], room: &mut [u8], w: Work, got: [u16; 48], k: usize) -> Work
    requires { Puttable form.now room.old w got k w.last }
    ensures { PutBefore form.now room.old room.new w got k result w.last }
{
    match w.last {
        Outcome::Changed(m) => build(form, room, w, got, k, m, true),
        Outcome::Same => w,
        Outcome::Stopped(_) => w,
    }
}

// What the element h became, as w says; nothing where it was refused.
pub fn worked_into<'a>(
    form: &'a [u8],
    room: &'a [u8],
    w: Work,
    h: usize,
    count: bool,
    flag: bool,
) -> Option<Element>
    requires { Stands form.now room.now w h w.last }
    ensures { Became form.now room.now h count flag result w.last }
{
    match w.last {
        Outcome::Changed(m) => Some(Element {
            node: m as u16,
            flag: flag_after(form, room, m, count, true, flag),
        }),
        Outcome::Same => Some(Element {
            node: h as u16,
            flag: flag_after(form, room, h, count, false, flag),
        }),
        Outcome::Stopped(_) => None,
    }
}

// ---- rule 4

// The changed body m of r is given back: the mark goes by that, even where m equals r.
fn keep(form: &[u8], room: &mut [u8], w: Work, r: usize, m: usize, low: bool) -> Work
    requires { Ready form.now room.old w.ch r × Ready form.now room.old w.ch m }
    ensures { Did form.now room.old room.new w (tree_in form.now room.old r) (kept low (tree_in form.now room.old m) (spent_of w)) result }
{
    let k = run_state::marked(w, low);
    if sexp::equal_node(form, room, w.ch, r, m) {
        return run_state::with(k, Outcome::Same);
    }
    run_state::with(k, Outcome::Changed(m))
}

// The body `new` was worked into what w says: what that is of the input r.
pub fn keep_body(form: &[u8], room: &mut [u8], w: Work, r: usize, new: usize, low: bool) -> Work
    requires { Keepable form.now room.old w r new w.last }
    ensures { KeptBody form.now room.old room.new w r new low result w.last }
{
    match w.last {
        Outcome::Stopped(_) => w,
        Outcome::Same => keep(form, room, w, r, new, low),
        Outcome::Changed(m) => keep(form, room, w, r, m, low),
    }
}

// The body's list was walked over, as w says: what that is of the input r.
pub fn keep_list(form: &[u8], room: &mut [u8], w: Work, r: usize, low: bool) -> Work
    requires { Listable form.now room.old w r w.last }
    ensures { KeptList form.now room.old room.new w r low result w.last }
{
    match w.last {
        Outcome::Stopped(_) => w,
        Outcome::Same => w,
        Outcome::Changed(m) => keep(form, room, w, r, m, low),
    }
}

// ---- the rules that do not call the driver

// Rules 1 to 3 and 6 to 8, by number.
pub fn simple(form: &[u8], room: &mut [u8], p: Patterns, w: Work, n: usize, rule: usize) -> Work
    requires { Ready form.now room.old w.ch n × Patterned form.now room.old w.ch p × Simple rule }
    ensures { Did form.now room.old room.new w (tree_in form.now room.old n) (optimizer give rule (tree_in form.now room.old n) (spent_of w)) result }
{
    if rule == 1 {
        return rules::cons_optimizer(form, room, p, w, n);
    }
    if rule == 2 {
        return rules::constant_optimizer(form, room, w, n);
    }
    if rule == 3 {
        return rules::cons_q_a_optimizer(form, room, p, w, n);
    }
    if rule == 6 {
        return rules::path_optimizer(form, room, p, w, n);
    }
    if rule == 7 {
        return rules::quote_null_optimizer(form, room, p, w, n);
    }
    rules::apply_null_optimizer(form, room, p, w, n)
}

// ---- a turn

// The start of a turn: Changed where n is an atom (nothing is left to do), Same where a pass was charged.
pub fn begin<'a>(form: &'a [u8], room: &'a [u8], w: Work, n: usize) -> Work
    requires { Ready form.now room.now w.ch n }
    ensures { Begun form.now room.now w n result }
{
    match store::look_node(room, n) {
        Cell::Atom => run_state::with(w, Outcome::Changed(n)),
        Cell::Pair(_, _) => {
            if 65536 <= w.passes {
                return run_state::with(w, Outcome::Stopped(Refusal::PassesOut));
            }
            Work {
                passes: w.passes + 1,
                last: Outcome::Same,
                ..w
            }
        }
    }
}

// A call's end at r: Changed where a rule ended a pass, else Same.
pub fn finish(w: Work, r: usize, moved: bool) -> Work
    ensures { result ≡ with_last w (outcome_of moved r) }
{
    if moved {
        return run_state::with(w, Outcome::Changed(r));
    }
    run_state::with(w, Outcome::Same)
}
