// optimize.rs, `sub_args` and what it calls, on nodes. Low atoms are noted on the way.
#![tactic(auto)]

ghost use Rattle.std.specs.Prelude.{◌≡◌, true, false, ◌||◌, ◌+◌, ◌<◌, length, get_or};
ghost use Rattle.meaning.specs.Tree.{pair, nil, byte};
ghost use Rattle.meaning.specs.Limits.{pair_cost};
ghost use Rattle.meaning.specs.Substitute.{cons_pattern, sub_turns, is_low, part_cost, path_from_args, path_cost, sub_args, sub_each, sub_cost, sub_each_cost, reads_low, reads_low_each};
ghost use Rattle.store.specs.Cells.{Room, bytes_at};
ghost use Rattle.store.specs.Nodes.{tree_in};
ghost use Rattle.store.specs.Store.{Ready};
ghost use Rattle.store.specs.Makers.{MadeOk};
ghost use Rattle.pattern.specs.Bound.{GotOk, Named};
ghost use Rattle.patterns.specs.Patterns.{Shows, Patterned};
ghost use Rattle.meaning.proofs.Parts.{part_byte};
ghost use Rattle.substitute.specs.Sub.{got_part, cons_part, head_tree, head_cost, head_low, list_tree, list_cost, list_low, SubOk, sub_made};

use patterns::Patterns;
use refusals::Refusal;
use store::{Cell, Charges, Made};

// The node of the substituted tree, the charges after it, and whether a low atom was read.
#[derive(Clone, Copy)]
pub struct Substituted {
    pub ch: Charges,
    pub low: bool,
    pub node: usize,
}

// ---- `cons_f` and `cons_r`: cons is the node of `cons_pattern`

// (o args)
fn call_node(form: &[u8], room: &mut [u8], ch: Charges, o: u8, args: usize) -> Result<Made, Refusal>
    requires { Ready form.now room.old ch args }
    ensures { MadeOk form.now room.old room.new ch (5 + (pair_cost + pair_cost)) (pair (byte o) (pair (tree_in form.now room.old args) nil)) result }
{
    let f = store::atom_node(form, room, ch, &[o])?;
    let t = store::pair_node(form, room, f.ch, args, 0)?;
    store::pair_node(form, room, t.ch, f.node, t.node)
}

// What args is made of on one side, where it is (c A B).
fn part_node(
    form: &[u8],
    room: &mut [u8],
    cons: usize,
    ch: Charges,
    args: usize,
    right: bool,
) -> Option<usize>
    requires { Ready form.now room.old ch args × Shows form.now room.old ch cons cons_pattern }
    ensures { GotOk form.now room.old room.new ch result (got_part right (tree_in form.now room.old args)) }
{
    if right {
        pattern::got_node(form, room, ch, cons, args, b"rest")
    } else {
        pattern::got_node(form, room, ch, cons, args, b"first")
    }
}

fn operator(right: bool) -> u8
    ensures { result ≡ part_byte right }
{
    if right { 6 } else { 5 }
}

// `cons_r` where right, else `cons_f`.
fn cons_node(
    form: &[u8],
    room: &mut [u8],
    cons: usize,
    ch: Charges,
    args: usize,
    right: bool,
) -> Result<Made, Refusal>
    requires { Ready form.now room.old ch args × Shows form.now room.old ch cons cons_pattern }
    ensures { MadeOk form.now room.old room.new ch (part_cost (tree_in form.now room.old args)) (cons_part right (tree_in form.now room.old args)) result }
{
    match part_node(form, room, cons, ch, args, right) {
        Some(node) => Ok(Made { node, ch }),
        None => call_node(form, room, ch, operator(right), args),
    }
}

// ---- `path_from_args`

// How many turns substitution takes at the atom n.
fn count_turns(form: &[u8], room: &[u8], ch: Charges, n: usize) -> usize
    requires { Named form.now room.now ch n }
    ensures { result ≡ length (sub_turns (bytes_at form.now room.now n)) }
{
    paths::sub_turn_count(store::atom_bytes(form, room, n))
}

// Its turn number i.
fn turn_at(form: &[u8], room: &[u8], n: usize, i: usize) -> bool
    requires { Room room.now n × (i < length (sub_turns (bytes_at form.now room.now n))) }
    ensures { result ≡ get_or (sub_turns (bytes_at form.now room.now n)) i false }
{
    paths::turn(store::atom_bytes(form, room, n), i)
}

// The path that the atom n says, from the new arguments.
fn path_from_args(
    form: &[u8],
    room: &mut [u8],
    cons: usize,
    ch: Charges,
    n: usize,
    args: usize,
) -> Result<Made, Refusal>
    requires { Named form.now room.old ch n × Ready form.now room.old ch args × Shows form.now room.old ch cons cons_pattern }
    ensures { MadeOk form.now room.old room.new ch (path_cost (sub_turns (bytes_at form.now room.old n)) (tree_in form.now room.old args)) (path_from_args (sub_turns (bytes_at form.now room.old n)) (tree_in form.now room.old args)) result }
{
    let count = count_turns(form, room, ch, n);
    let mut made = Made { node: args, ch };
    for i in 0..count {
        let right = turn_at(form, room, n, i);
        made = cons_node(form, room, cons, made.ch, made.node, right)?;
    }
    Ok(made)
}

// ---- `sub_args`

// An answer of a maker as one of substitution's.
fn made(low: bool, m: Result<Made, Refusal>) -> Result<Substituted, Refusal>
    ensures { result ≡ sub_made low m }
{
    let Made { node, ch } = m?;
    Ok(Substituted { ch, low, node })
}

fn low_node(form: &[u8], room: &[u8], n: usize) -> bool
    requires { Room room.now n }
    ensures { result ≡ is_low (bytes_at form.now room.now n) }
{
    paths::is_low(store::atom_bytes(form, room, n))
}

// An atom of the body: read as a path.
fn sub_atom(
    form: &[u8],
    room: &mut [u8],
    cons: usize,
    ch: Charges,
    n: usize,
    args: usize,
) -> Result<Substituted, Refusal>
    requires { Named form.now room.old ch n × Ready form.now room.old ch args × Shows form.now room.old ch cons cons_pattern }
    ensures { SubOk form.now room.old room.new ch (sub_cost (tree_in form.now room.old n) (tree_in form.now room.old args)) (sub_args (tree_in form.now room.old n) (tree_in form.now room.old args)) (reads_low (tree_in form.now room.old n)) result }
{
    let low = low_node(form, room, n);
    made(low, path_from_args(form, room, cons, ch, n, args))
}

// The head of a list that is no quote: an atom stays, and is not read; a pair is worked as a body.
#[cycle(substituting)]
fn sub_head(
    form: &[u8],
    room: &mut [u8],
    cons: usize,
    ch: Charges,
    f: usize,
    args: usize,
) -> Result<Substituted, Refusal>
    requires { Ready form.now room.old ch f × Ready form.now room.old ch args × Shows form.now room.old ch cons cons_pattern }
    ensures { SubOk form.now room.old room.new ch (head_cost (tree_in form.now room.old f) (tree_in form.now room.old args)) (head_tree (tree_in form.now room.old f) (tree_in form.now room.old args)) (head_low (tree_in form.now room.old f)) result }
{
    match store::look_node(room, f) {
        Cell::Atom => Ok(Substituted {
            ch,
            low: false,
            node: f,
        }),
        Cell::Pair(_, _) => sub_body(form, room, cons, ch, f, args),
    }
}

// The list of first, whose work is done, and the operands in rest: an improper tail gives the new arguments.
#[cycle(substituting)]
fn sub_list(
    form: &[u8],
    room: &mut [u8],
    cons: usize,
    ch: Charges,
    first: usize,
    low: bool,
    rest: usize,
    args: usize,
) -> Result<Substituted, Refusal>
    requires { Ready form.now room.old ch first × Ready form.now room.old ch rest × Ready form.now room.old ch args × Shows form.now room.old ch cons cons_pattern }
    ensures { SubOk form.now room.old room.new ch (list_cost (tree_in form.now room.old rest) (tree_in form.now room.old args)) (list_tree (tree_in form.now room.old first) (tree_in form.now room.old rest) (tree_in form.now room.old args)) (list_low low (tree_in form.now room.old rest)) result }
{
    if sexp::proper_list_node(form, room, rest) {
        let t = sub_each(form, room, cons, ch, rest, args)?;
        let low = low || t.low;
        made(low, store::pair_node(form, room, t.ch, first, t.node))
    } else {
        Ok(Substituted {
            ch,
            low,
            node: args,
        })
    }
}

// Each operand of the list.
#[cycle(substituting)]
fn sub_each(
    form: &[u8],
    room: &mut [u8],
    cons: usize,
    ch: Charges,
    list: usize,
    args: usize,
) -> Result<Substituted, Refusal>
    requires { Ready form.now room.old ch list × Ready form.now room.old ch args × Shows form.now room.old ch cons cons_pattern }
    ensures { SubOk form.now room.old room.new ch (sub_each_cost (tree_in form.now room.old list) (tree_in form.now room.old args)) (sub_each (tree_in form.now room.old list) (tree_in form.now room.old args)) (reads_low_each (tree_in form.now room.old list)) result }
{
    match store::look_node(room, list) {
        Cell::Atom => Ok(Substituted {
            ch,
            low: false,
            node: list,
        }),
        Cell::Pair(l, r) => {
            let x = sub_body(form, room, cons, ch, l, args)?;
            let y = sub_each(form, room, cons, x.ch, r, args)?;
            let low = x.low || y.low;
            made(low, store::pair_node(form, room, y.ch, x.node, y.node))
        }
    }
}

// `sub_args` by the node of the one pattern that it reads: it runs once for each level of the body, so its frame must be small.
// A quote is tested first: what is left is then one call for the head and one for the list.
#[cycle(substituting)]
fn sub_body(
    form: &[u8],
    room: &mut [u8],
    cons: usize,
    ch: Charges,
    body: usize,
    args: usize,
) -> Result<Substituted, Refusal>
    requires { Ready form.now room.old ch body × Ready form.now room.old ch args × Shows form.now room.old ch cons cons_pattern }
    ensures { SubOk form.now room.old room.new ch (sub_cost (tree_in form.now room.old body) (tree_in form.now room.old args)) (sub_args (tree_in form.now room.old body) (tree_in form.now room.old args)) (reads_low (tree_in form.now room.old body)) result }
{
    match store::look_node(room, body) {
        Cell::Atom => sub_atom(form, room, cons, ch, body, args),
        Cell::Pair(f, rest) => {
            if sexp::is_byte_node(form, room, f, 1) {
                return Ok(Substituted {
                    ch,
                    low: false,
                    node: body,
                });
            }
            let x = sub_head(form, room, cons, ch, f, args)?;
            sub_list(form, room, cons, x.ch, x.node, x.low, rest, args)
        }
    }
}

// The body with the new arguments in the place of its own: quotes stay.
pub fn sub_args(
    form: &[u8],
    room: &mut [u8],
    p: Patterns,
    ch: Charges,
    body: usize,
    args: usize,
) -> Result<Substituted, Refusal>
    requires { Ready form.now room.old ch body × Ready form.now room.old ch args × Patterned form.now room.old ch p }
    ensures { SubOk form.now room.old room.new ch (sub_cost (tree_in form.now room.old body) (tree_in form.now room.old args)) (sub_args (tree_in form.now room.old body) (tree_in form.now room.old args)) (reads_low (tree_in form.now room.old body)) result }
{
    sub_body(form, room, p.cons, ch, body, args)
}
