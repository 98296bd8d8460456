// optimize.rs: the rules that do not call the driver, on nodes. Each says unchanged, changed to a node, or stopped by a refusal.
#![tactic(auto)]

ghost use Rattle.std.specs.Prelude.{◌≡◌, [], false, ◌≤◌};
ghost use Rattle.meaning.specs.Match.{match_sexp, got};
ghost use Rattle.meaning.specs.Tree.{is_quote};
ghost use Rattle.meaning.specs.Meter.{give};
ghost use Rattle.meaning.specs.Rules.{applied_of, cons_optimizer, worked_out, constant_optimizer, cons_q_a_optimizer, atom_name, atom_pattern, path_to, misread, longer, path_optimizer, quote_null_optimizer, apply_null_optimizer};
ghost use Rattle.meaning.specs.Number.{node_path_index, compose_paths, bytes_of};
ghost use Rattle.store.specs.Cells.{Room, bytes_at};
ghost use Rattle.store.specs.Nodes.{tree_at, tree_in};
ghost use Rattle.store.specs.Store.{Ready};
ghost use Rattle.pattern.specs.Bound.{got_at, Named};
ghost use Rattle.patterns.specs.Patterns.{Patterned};
ghost use Rattle.run_state.specs.Work.{spent_of, Did};
ghost use Rattle.rules.specs.Rule.{both_of, AppliedOk, PathAsks, LongerAsks};

use evaluator::Meter;
use pattern::Match;
use patterns::Patterns;
use refusals::Refusal;
use run_state::{Outcome, Work};
use store::{Cell, Charges};

// ---- 1. `cons_optimizer`: (f (c A B)) gives A, (r (c A B)) gives B

pub fn cons_optimizer(form: &[u8], room: &mut [u8], p: Patterns, w: Work, n: usize) -> Work
    requires { Ready form.now room.old w.ch n × Patterned form.now room.old w.ch p }
    ensures { Did form.now room.old room.new w (tree_in form.now room.old n) (give (cons_optimizer (tree_in form.now room.old n)) (spent_of w)) result }
{
    match pattern::got_node(form, room, w.ch, p.first_cons, n, b"first") {
        Some(a) => run_state::with(w, Outcome::Changed(a)),
        None => match pattern::got_node(form, room, w.ch, p.rest_cons, n, b"rest") {
            Some(b) => run_state::with(w, Outcome::Changed(b)),
            None => run_state::with(w, Outcome::Same),
        },
    }
}

// ---- 2. `constant_optimizer`: what seems constant becomes the quote of its value

// A pair headed by the byte 1.
pub fn is_quote_node<'a>(form: &'a [u8], room: &'a [u8], n: usize) -> bool
    requires { Room room.now n }
    ensures { result ≡ is_quote (tree_in form.now room.now n) }
{
    match store::look_node(room, n) {
        Cell::Atom => false,
        Cell::Pair(o, _) => sexp::is_byte_node(form, room, o, 1),
    }
}

// The value under nil, quoted.
fn quoted_value(form: &[u8], room: &mut [u8], w: Work, n: usize) -> Work
    requires { Ready form.now room.old w.ch n × (is_quote (tree_at form.now room.old n) ≡ false) }
    ensures { Did form.now room.old room.new w (tree_in form.now room.old n) (worked_out (tree_in form.now room.old n) (spent_of w)) result }
{
    let m = Meter { steps: 0, ch: w.ch };
    match evaluator::eval_node(form, room, m, n, 0) {
        Ok(value) => run_state::put(w, sexp::quote_node(form, room, value.meter.ch, value.node)),
        Err(e) => run_state::with(w, Outcome::Stopped(e)),
    }
}

pub fn constant_optimizer(form: &[u8], room: &mut [u8], w: Work, n: usize) -> Work
    requires { Ready form.now room.old w.ch n }
    ensures { Did form.now room.old room.new w (tree_in form.now room.old n) (constant_optimizer (tree_in form.now room.old n) (spent_of w)) result }
{
    if is_quote_node(form, room, n) {
        return run_state::with(w, Outcome::Same);
    }
    if sexp::is_nil_node(form, room, n) {
        return run_state::with(w, Outcome::Same);
    }
    if seems::seems_constant(form, room, w.ch, n) {
        quoted_value(form, room, w, n)
    } else {
        run_state::with(w, Outcome::Same)
    }
}

// ---- 3. `cons_q_a_optimizer`: (a (q . S) 1) gives S

// The S and the ARGS of (a (q . S) ARGS).
#[derive(Clone, Copy)]
pub struct Applied {
    pub body: usize,
    pub args: usize,
}

fn both_got(s: Option<usize>, a: Option<usize>) -> Option<Applied>
    ensures { result ≡ both_of s a }
{
    Some(Applied { body: s?, args: a? })
}

// What n is applied to, if it is (a (q . S) ARGS).
pub fn applied_of(
    form: &[u8],
    room: &mut [u8],
    p: Patterns,
    ch: Charges,
    n: usize,
) -> Option<Applied>
    requires { Ready form.now room.old ch n × Patterned form.now room.old ch p }
    ensures { AppliedOk form.now room.old room.new ch result (applied_of (tree_in form.now room.old n)) }
{
    match pattern::matched_node(form, room, ch, p.apply, n) {
        Match::Matched(ks) => {
            let s = pattern::get(form, room, ch, ks, b"sexp");
            let a = pattern::get(form, room, ch, ks, b"args");
            both_got(s, a)
        }
        Match::NoMatch => None,
        Match::TooManyNames => None,
    }
}

pub fn cons_q_a_optimizer(form: &[u8], room: &mut [u8], p: Patterns, w: Work, n: usize) -> Work
    requires { Ready form.now room.old w.ch n × Patterned form.now room.old w.ch p }
    ensures { Did form.now room.old room.new w (tree_in form.now room.old n) (give (cons_q_a_optimizer (tree_in form.now room.old n)) (spent_of w)) result }
{
    match applied_of(form, room, p, w.ch, n) {
        Some(applied) => {
            if sexp::is_byte_node(form, room, applied.args, 1) {
                run_state::with(w, Outcome::Changed(applied.body))
            } else {
                run_state::with(w, Outcome::Same)
            }
        }
        None => run_state::with(w, Outcome::Same),
    }
}

// ---- 6. `path_optimizer`: (f N) and (r N) become longer paths

// The atom a of n is a path, and goes on by q. It is refused if it is too long, before it is charged.
fn path_node(form: &[u8], room: &mut [u8], w: Work, n: usize, a: usize, q: u8) -> Work
    requires { PathAsks form.now room.old w.ch n × Named form.now room.old w.ch a × (1 ≤ q) }
    ensures { Did form.now room.old room.new w (tree_in form.now room.old n) (path_to (bytes_of (compose_paths (node_path_index (bytes_at form.now room.old a)) q)) (misread (bytes_at form.now room.old a)) (spent_of w)) result }
{
    let l = paths::lengthen(store::atom_bytes(form, room, a), q);
    let len = l.path.len;
    if 64 < len {
        return run_state::with(w, Outcome::Stopped(Refusal::PathLong));
    }
    let bytes = l.path.bytes;
    let from = 65 - len;
    let m = store::atom_node(form, room, w.ch, &bytes[from..]);
    run_state::put(run_state::marked(w, l.misread), m)
}

// What became of the name `atom`: only an atom is a path.
fn longer_node(form: &[u8], room: &mut [u8], w: Work, n: usize, g: Option<usize>, q: u8) -> Work
    requires { LongerAsks form.now room.old w.ch n g × (1 ≤ q) }
    ensures { Did form.now room.old room.new w (tree_in form.now room.old n) (longer (tree_in form.now room.old n) (got_at form.now room.old g) q (spent_of w)) result }
{
    match g {
        None => run_state::with(w, Outcome::Same),
        Some(a) => match store::look_node(room, a) {
            Cell::Pair(_, _) => run_state::with(w, Outcome::Same),
            Cell::Atom => path_node(form, room, w, n, a, q),
        },
    }
}

// (r N)
fn rest_path(form: &[u8], room: &mut [u8], p: Patterns, w: Work, n: usize) -> Work
    requires { Ready form.now room.old w.ch n × Patterned form.now room.old w.ch p }
    ensures { Did form.now room.old room.new w (tree_in form.now room.old n) (longer (tree_in form.now room.old n) (got atom_name (match_sexp (atom_pattern 6) (tree_in form.now room.old n) [])) 3 (spent_of w)) result }
{
    let g = pattern::got_node(form, room, w.ch, p.rest_atom, n, b"atom");
    longer_node(form, room, w, n, g, 3)
}

pub fn path_optimizer(form: &[u8], room: &mut [u8], p: Patterns, w: Work, n: usize) -> Work
    requires { Ready form.now room.old w.ch n × Patterned form.now room.old w.ch p }
    ensures { Did form.now room.old room.new w (tree_in form.now room.old n) (path_optimizer (tree_in form.now room.old n) (spent_of w)) result }
{
    match pattern::matched_node(form, room, w.ch, p.first_atom, n) {
        Match::Matched(ks) => {
            let g = pattern::get(form, room, w.ch, ks, b"atom");
            longer_node(form, room, w, n, g, 2)
        }
        Match::NoMatch => rest_path(form, room, p, w, n),
        Match::TooManyNames => rest_path(form, room, p, w, n),
    }
}

// ---- 7., 8. (q . 0) and (a 0 . any) become nil

pub fn quote_null_optimizer(form: &[u8], room: &mut [u8], p: Patterns, w: Work, n: usize) -> Work
    requires { Ready form.now room.old w.ch n × Patterned form.now room.old w.ch p }
    ensures { Did form.now room.old room.new w (tree_in form.now room.old n) (give (quote_null_optimizer (tree_in form.now room.old n)) (spent_of w)) result }
{
    match pattern::matched_node(form, room, w.ch, p.quote_nil, n) {
        Match::Matched(_) => run_state::with(w, Outcome::Changed(0)),
        Match::NoMatch => run_state::with(w, Outcome::Same),
        Match::TooManyNames => run_state::with(w, Outcome::Same),
    }
}

pub fn apply_null_optimizer(form: &[u8], room: &mut [u8], p: Patterns, w: Work, n: usize) -> Work
    requires { Ready form.now room.old w.ch n × Patterned form.now room.old w.ch p }
    ensures { Did form.now room.old room.new w (tree_in form.now room.old n) (give (apply_null_optimizer (tree_in form.now room.old n)) (spent_of w)) result }
{
    match pattern::matched_node(form, room, w.ch, p.apply_nil, n) {
        Match::Matched(_) => run_state::with(w, Outcome::Changed(0)),
        Match::NoMatch => run_state::with(w, Outcome::Same),
        Match::TooManyNames => run_state::with(w, Outcome::Same),
    }
}
