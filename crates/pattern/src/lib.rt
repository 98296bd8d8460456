// pattern_match.rs: any node may be the pattern; at most two names.
#![tactic(auto)]

ghost use Rattle.std.specs.Prelude.{◌≡◌, ◌&&◌, []};
ghost use Rattle.meaning.specs.Match as meaning;
ghost use Rattle.meaning.specs.Tree.{pair, same_bytes};
ghost use Rattle.sexp.specs.Tests.{is_byte_tree};
ghost use Rattle.store.specs.Cells.{Room, bytes_at};
ghost use Rattle.store.specs.Nodes.{tree_in};
ghost use Rattle.store.specs.Store.{Ready};
ghost use Rattle.pattern.specs.Bound.{bindings_at, Named, Bound, MatchOk, GotOk, no_bindings, inserted};
ghost use Rattle.pattern.specs.Cases.{takes_any};

use store::{Cell, Charges};

// The names bound so far, as the nodes of their atoms in the pattern, and what each is bound to.
#[derive(Clone, Copy)]
pub struct Bindings {
    pub count: usize,
    pub name_1: usize,
    pub node_1: usize,
    pub name_2: usize,
    pub node_2: usize,
}

#[derive(Clone, Copy)]
pub enum Match {
    Matched(Bindings),
    NoMatch,
    TooManyNames,
}

pub fn no_bindings() -> Bindings
    ensures { result ≡ no_bindings }
{
    Bindings {
        count: 0,
        name_1: 0,
        node_1: 0,
        name_2: 0,
        node_2: 0,
    }
}

// ---- bindings

fn same_name<'a>(form: &'a [u8], room: &'a [u8], n: usize, name: &'a [u8]) -> bool
    requires { Room room.now n }
    ensures { result ≡ same_bytes name.now (bytes_at form.now room.now n) }
{
    name == store::atom_bytes(form, room, n)
}

// Rust's `bindings.get`: what a name is bound to.
pub fn get<'a>(
    form: &'a [u8],
    room: &'a [u8],
    ch: Charges,
    ks: Bindings,
    name: &'a [u8],
) -> Option<usize>
    requires { Bound form.now room.now ch ks }
    ensures { GotOk form.now room.now room.now ch result (meaning.get name.now (bindings_at form.now room.now ks)) }
{
    if ks.count == 0 {
        return None;
    }
    if same_name(form, room, ks.name_1, name) {
        return Some(ks.node_1);
    }
    if ks.count == 1 {
        return None;
    }
    if same_name(form, room, ks.name_2, name) {
        return Some(ks.node_2);
    }
    None
}

// A third name is one too many.
fn insert(ks: Bindings, name: usize, node: usize) -> Match
    ensures { result ≡ inserted ks name node }
{
    match ks.count {
        0 => Match::Matched(Bindings {
            count: 1,
            name_1: name,
            node_1: node,
            ..no_bindings()
        }),
        1 => Match::Matched(Bindings {
            count: 2,
            name_2: name,
            node_2: node,
            ..ks
        }),
        _ => Match::TooManyNames,
    }
}

// A name that is known must be bound to an equal tree; one that is not is bound now.
fn unify_bindings(
    form: &[u8],
    room: &mut [u8],
    ch: Charges,
    ks: Bindings,
    name: usize,
    node: usize,
) -> Match
    requires { Bound form.now room.old ch ks × Named form.now room.old ch name × Ready form.now room.old ch node }
    ensures { MatchOk form.now room.old room.new ch result (meaning.unify_bindings (bindings_at form.now room.old ks) (bytes_at form.now room.old name) (tree_in form.now room.old node)) }
{
    match get(form, room, ch, ks, store::atom_bytes(form, room, name)) {
        Some(u) => {
            if sexp::equal_node(form, room, ch, u, node) {
                Match::Matched(ks)
            } else {
                Match::NoMatch
            }
        }
        None => insert(ks, name, node),
    }
}

// ---- the cases

// (: . name) takes any pair, where name is not ':'.
pub fn takes_any<'a>(form: &'a [u8], room: &'a [u8], a: usize, b: usize) -> bool
    requires { Room room.now a × Room room.now b }
    ensures { result ≡ takes_any (tree_in form.now room.now a) (tree_in form.now room.now b) }
{
    sexp::is_byte_node(form, room, a, b':')
        && matches!(store::look_node(room, b), Cell::Atom)
        && !sexp::is_byte_node(form, room, b, b':')
}

fn both_bytes<'a>(form: &'a [u8], room: &'a [u8], x: usize, y: usize, k: u8) -> bool
    requires { Room room.now x × Room room.now y }
    ensures { result ≡ (is_byte_tree k (tree_in form.now room.now x) && is_byte_tree k (tree_in form.now room.now y)) }
{
    sexp::is_byte_node(form, room, x, k) && sexp::is_byte_node(form, room, y, k)
}

// The pattern is the atom p.
fn match_atom<'a>(
    form: &'a [u8],
    room: &'a [u8],
    ch: Charges,
    p: usize,
    s: usize,
    ks: Bindings,
) -> Match
    requires { Named form.now room.now ch p × Ready form.now room.now ch s × Bound form.now room.now ch ks }
    ensures { MatchOk form.now room.now room.now ch result (meaning.match_sexp (tree_in form.now room.now p) (tree_in form.now room.now s) (bindings_at form.now room.now ks)) }
{
    match store::look_node(room, s) {
        Cell::Pair(_, _) => Match::NoMatch,
        Cell::Atom => {
            if same_name(form, room, s, store::atom_bytes(form, room, p)) {
                Match::Matched(ks)
            } else {
                Match::NoMatch
            }
        }
    }
}

// The pattern (a . b) at the atom s: ($ . $) and (: . :) give no bindings at all.
fn at_atom(
    form: &[u8],
    room: &mut [u8],
    ch: Charges,
    a: usize,
    b: usize,
    s: usize,
    ks: Bindings,
) -> Match
    requires { Ready form.now room.old ch a × Ready form.now room.old ch b × Named form.now room.old ch s × Bound form.now room.old ch ks }
    ensures { MatchOk form.now room.old room.new ch result (meaning.match_sexp (pair (tree_in form.now room.old a) (tree_in form.now room.old b)) (tree_in form.now room.old s) (bindings_at form.now room.old ks)) }
{
    match store::look_node(room, b) {
        Cell::Pair(_, _) => Match::NoMatch,
        Cell::Atom => {
            let none = no_bindings();
            if sexp::is_byte_node(form, room, a, b'$') {
                if sexp::is_byte_node(form, room, b, b'$') {
                    if sexp::is_byte_node(form, room, s, b'$') {
                        Match::Matched(none)
                    } else {
                        Match::NoMatch
                    }
                } else {
                    unify_bindings(form, room, ch, ks, b, s)
                }
            } else if sexp::is_byte_node(form, room, a, b':') {
                if both_bytes(form, room, b, s, b':') {
                    Match::Matched(none)
                } else {
                    unify_bindings(form, room, ch, ks, b, s)
                }
            } else {
                Match::NoMatch
            }
        }
    }
}

// ---- the matcher

// Rust's `match_sexp`: the pattern p, the expression s, the bindings already known.
pub fn match_node(
    form: &[u8],
    room: &mut [u8],
    ch: Charges,
    p: usize,
    s: usize,
    ks: Bindings,
) -> Match
    requires { Ready form.now room.old ch p × Ready form.now room.old ch s × Bound form.now room.old ch ks }
    ensures { MatchOk form.now room.old room.new ch result (meaning.match_sexp (tree_in form.now room.old p) (tree_in form.now room.old s) (bindings_at form.now room.old ks)) }
{
    match store::look_node(room, p) {
        Cell::Atom => match_atom(form, room, ch, p, s, ks),
        Cell::Pair(a, b) => match store::look_node(room, s) {
            Cell::Atom => at_atom(form, room, ch, a, b, s, ks),
            Cell::Pair(l, r) => {
                if takes_any(form, room, a, b) {
                    unify_bindings(form, room, ch, ks, b, s)
                } else {
                    match match_node(form, room, ch, a, l, ks) {
                        Match::Matched(js) => match_node(form, room, ch, b, r, js),
                        failed => failed,
                    }
                }
            }
        },
    }
}

// `match_sexp` with no bindings known.
pub fn matched_node(form: &[u8], room: &mut [u8], ch: Charges, p: usize, s: usize) -> Match
    requires { Ready form.now room.old ch p × Ready form.now room.old ch s }
    ensures { MatchOk form.now room.old room.new ch result (meaning.match_sexp (tree_in form.now room.old p) (tree_in form.now room.old s) []) }
{
    match_node(form, room, ch, p, s, no_bindings())
}

// `match_sexp(..).and_then(|t| t.get(name))`: what a match with no bindings known binds a name to.
pub fn got_node<'a>(
    form: &'a [u8],
    room: &mut [u8],
    ch: Charges,
    p: usize,
    s: usize,
    name: &'a [u8],
) -> Option<usize>
    requires { Ready form.now room.old ch p × Ready form.now room.old ch s }
    ensures { GotOk form.now room.old room.new ch result (meaning.got name.now (meaning.match_sexp (tree_in form.now room.old p) (tree_in form.now room.old s) [])) }
{
    match matched_node(form, room, ch, p, s) {
        Match::Matched(ks) => get(form, room, ch, ks, name),
        Match::NoMatch | Match::TooManyNames => None,
    }
}
