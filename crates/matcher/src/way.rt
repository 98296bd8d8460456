// Where a match that fails stops. The matcher does not say it, so that the rules do not pay for it: the walk goes down from the root
// again, a turn at a time, asking at each pair whether the left part fails.
ghost use Rattle.std.specs.Prelude.{◌≡◌, [], ◌<◌, ◌^◌};
ghost use Rattle.meaning.specs.Match as meaning;
ghost use Rattle.meaning.specs.Number.{number};
ghost use Rattle.paths.specs.Wide.{Holds};
ghost use Rattle.store.specs.Nodes.{tree_at, tree_in};
ghost use Rattle.store.specs.Store.{Ready};
ghost use Rattle.pattern.specs.Bound.{bindings_at};
ghost use Rattle.pattern.specs.Cases.{in_parts};
ghost use Rattle.matcher.specs.Way.{match_of, OnWay, StepOk};

use paths::Number;
use pattern::{Bindings, Match};
use store::{Cell, Charges};

// Nodes of the pattern and of the expression that stand against each other, what is bound before them, and the turn that led to them, as
// a path: 2 is left, 3 is right, and 1 is none.
#[derive(Clone, Copy)]
pub(crate) struct Part {
    pub(crate) pattern: usize,
    pub(crate) node: usize,
    pub(crate) ks: Bindings,
    pub(crate) turn: u8,
}

// The parts of two pairs: the left one where it fails, else the right one with what the left one bound; or none where the failure is here.
fn below(
    form: &[u8],
    room: &mut [u8],
    ch: Charges,
    w: Part,
    a: usize,
    b: usize,
    l: usize,
    r: usize,
) -> Option<Part>
    requires on_way { OnWay form.now room.old ch w }
    requires ready { Ready form.now room.old ch a × Ready form.now room.old ch b × Ready form.now room.old ch l × Ready form.now room.old ch r }
    requires ks_value { in_parts (tree_at form.now room.old a) (tree_at form.now room.old b) (tree_at form.now room.old l) (tree_at form.now room.old r) (bindings_at form.now room.old w.ks) ≡ match_of form.now room.old w }
    ensures { StepOk form.now room.old room.new ch w result }
{
    match pattern::match_node(form, room, ch, a, l, w.ks) {
        Match::Matched(js) => Some(Part {
            pattern: b,
            node: r,
            ks: js,
            turn: 3,
        }),
        Match::NoMatch => Some(Part {
            pattern: a,
            node: l,
            turn: 2,
            ..w
        }),
        Match::TooManyNames => None,
    }
}

// A turn down, unless the disagreement is here.
fn next(form: &[u8], room: &mut [u8], ch: Charges, w: Part) -> Option<Part>
    requires { OnWay form.now room.old ch w }
    ensures { StepOk form.now room.old room.new ch w result }
{
    match store::look_node(room, w.pattern) {
        Cell::Atom => None,
        Cell::Pair(a, b) => match store::look_node(room, w.node) {
            Cell::Atom => None,
            Cell::Pair(l, r) => {
                if pattern::takes_any(form, room, a, b) {
                    None
                } else {
                    below(form, room, ch, w, a, b, l, r)
                }
            }
        },
    }
}

// The path as 64 bytes.
fn in_64(path: Number) -> [u8; 64]
    requires { Holds (number path.bytes) path × (number path.bytes < 256 ^ 64) }
    ensures { result ≡ meaning.place_bytes (number path.bytes) }
{
    let mut r = [0; 64];
    r[64 - path.len..].copy_from_slice(&path.bytes[65 - path.len..]);
    r
}

// The place at which the pattern p, which does not match s, first disagrees with it; zero where it is over 511 turns from the root.
pub(crate) fn place_node(form: &[u8], room: &mut [u8], ch: Charges, p: usize, s: usize) -> [u8; 64]
    requires { Ready form.now room.old ch p × Ready form.now room.old ch s × (meaning.no ≡ meaning.verdict (meaning.match_sexp (tree_at form.now room.old p) (tree_at form.now room.old s) [])) }
    ensures { result ≡ meaning.place_bytes (meaning.place (meaning.match_sexp (tree_in form.now room.old p) (tree_in form.now room.old s) [])) }
{
    let mut path = paths::unsigned(&[1]);
    let mut w = Part {
        pattern: p,
        node: s,
        ks: pattern::no_bindings(),
        turn: 1,
    };
    for _turn in 0..512usize {
        match next(form, room, ch, w) {
            None => return in_64(path),
            Some(v) => {
                path = paths::compose_paths(path, v.turn);
                w = v;
            }
        }
    }
    [0; 64]
}
