// sexp.rs over the store: tests on nodes, lists, quotes and equality of structure.
#![tactic(auto)]

ghost use Rattle.std.specs.Prelude.{◌≡◌, map, not, ◌+◌, ◌*◌, ◌-◌, ◌<◌, take, eqb};
ghost use Rattle.meaning.specs.Tree.{quote, is_byte, same_bytes, equal_to, non_nil};
ghost use Rattle.meaning.specs.Substitute.{is_proper};
ghost use Rattle.meaning.specs.Limits.{pair_cost};
ghost use Rattle.store.specs.Cells.{Room, bytes_at};
ghost use Rattle.store.specs.Nodes.{tree_in, print_of};
ghost use Rattle.store.specs.Store.{Ready};
ghost use Rattle.store.specs.Makers.{MadeOk, Answered, Grown};
ghost use Rattle.sexp.specs.Tests.{is_byte_tree, is_nil};
ghost use Rattle.sexp.specs.Lists.{enlist_onto, Items};
ghost use Rattle.sexp.specs.Canon.{Canon, Alike, compared};

use refusals::Refusal;
use store::{Cell, Charges, Made};

// ---- tests

// The one byte k.
pub fn is_byte(b: &[u8], k: u8) -> bool
    ensures { result ≡ is_byte k b.now }
{
    match b {
        [byte] => *byte == k,
        _ => false,
    }
}

// An atom of the one byte k.
pub fn is_byte_node<'a>(form: &'a [u8], room: &'a [u8], n: usize, k: u8) -> bool
    requires { Room room.now n }
    ensures { result ≡ is_byte_tree k (tree_in form.now room.now n) }
{
    match store::look_node(room, n) {
        Cell::Pair(..) => false,
        Cell::Atom => is_byte(store::atom_bytes(form, room, n), k),
    }
}

// Rust's `non_nil`.
pub fn non_nil_node<'a>(form: &'a [u8], room: &'a [u8], n: usize) -> bool
    requires { Room room.now n }
    ensures { result ≡ non_nil (tree_in form.now room.now n) }
{
    match store::look_node(room, n) {
        Cell::Pair(..) => true,
        Cell::Atom => !store::atom_bytes(form, room, n).is_empty(),
    }
}

// Nil: the empty atom, at whatever node.
pub fn is_nil_node<'a>(form: &'a [u8], room: &'a [u8], n: usize) -> bool
    requires { Room room.now n }
    ensures { result ≡ is_nil (tree_in form.now room.now n) }
{
    !non_nil_node(form, room, n)
}

// ---- lists

// Whether Rust's `proper_list` gives a list: the last right part is nil.
pub fn proper_list_node<'a>(form: &'a [u8], room: &'a [u8], n: usize) -> bool
    requires { Room room.now n }
    ensures { result ≡ is_proper (tree_in form.now room.now n) }
{
    let mut m = n;
    loop {
        match store::look_node(room, m) {
            Cell::Pair(_, r) => m = r,
            Cell::Atom => return is_nil_node(form, room, m),
        }
    }
}

// Rust's `enlist`, onto any tail: the list of the first k items before tail, built from its end.
pub fn enlist_node<'a>(
    form: &'a [u8],
    room: &mut [u8],
    ch: Charges,
    items: &'a [u16],
    k: usize,
    tail: usize,
) -> Result<Made, Refusal>
    requires { Ready form.now room.old ch tail × Items room.old ch items.now k }
    ensures { MadeOk form.now room.old room.new ch (pair_cost * k) (enlist_onto (map (tree_in form.now room.old) (take k items.now)) (tree_in form.now room.old tail)) result }
{
    let mut made = Made { node: tail, ch };
    for item in items[..k].iter().rev() {
        made = store::pair_node(form, room, made.ch, usize::from(*item), made.node)?;
    }
    Ok(made)
}

// helpers.rs, `quote`: (1 . n).
pub fn quote_node(form: &[u8], room: &mut [u8], ch: Charges, n: usize) -> Result<Made, Refusal>
    requires { Ready form.now room.old ch n }
    ensures { MadeOk form.now room.old room.new ch (5 + pair_cost) (quote (tree_in form.now room.old n)) result }
{
    let one = store::atom_node(form, room, ch, &[1])?;
    store::pair_node(form, room, one.ch, one.node, n)
}

// ---- equality

// What two records tell, or the parts that are left to compare.
#[derive(Clone, Copy)]
pub enum Compared {
    Told(bool),
    Parts(usize, usize, usize, usize),
}

// Are the bytes the same?
pub fn same_bytes(x: &[u8], y: &[u8]) -> bool
    ensures { result ≡ same_bytes x.now y.now }
{
    x == y
}

// The bytes of two atoms, by node.
pub fn same_atoms<'a>(form: &'a [u8], room: &'a [u8], a: usize, b: usize) -> bool
    requires { Room room.now a × Room room.now b }
    ensures { result ≡ same_bytes (bytes_at form.now room.now a) (bytes_at form.now room.now b) }
{
    let x = store::atom_bytes(form, room, a);
    let y = store::atom_bytes(form, room, b);
    same_bytes(x, y)
}

// Two nodes, their parts aside.
pub fn compare_records<'a>(form: &'a [u8], room: &'a [u8], a: usize, b: usize) -> Compared
    requires { Room room.now a × Room room.now b }
    ensures { result ≡ compared form.now room.now a b }
{
    match (store::look_node(room, a), store::look_node(room, b)) {
        (Cell::Pair(al, ar), Cell::Pair(bl, br)) => Compared::Parts(al, ar, bl, br),
        (Cell::Atom, Cell::Atom) => Compared::Told(same_atoms(form, room, a, b)),
        _ => Compared::Told(false),
    }
}

// The lowest node known to stand for the same tree as n.
fn canon<'a>(form: &'a [u8], room: &'a [u8], ch: Charges, n: usize) -> usize
    requires { Ready form.now room.now ch n }
    ensures { Canon form.now room.now ch n result }
{
    let mut m = n;
    loop {
        let s = store::same_node(room, m);
        if s < m {
            m = s;
        } else {
            return m;
        }
    }
}

// Joins two nodes that stand for the same tree: the higher one remembers the lower.
fn join(form: &[u8], room: &mut [u8], ch: Charges, a: usize, b: usize)
    requires { Alike form.now room.old ch a b }
    ensures { Grown form.now room.old room.new ch ch }
{
    store::join_node(form, room, ch, a.max(b), a.min(b));
}

fn prints_differ<'a>(form: &'a [u8], room: &'a [u8], ch: Charges, a: usize, b: usize) -> bool
    requires { Ready form.now room.now ch a × Ready form.now room.now ch b }
    ensures { result ≡ not (eqb (print_of (tree_in form.now room.now a)) (print_of (tree_in form.now room.now b))) }
{
    store::print_node(form, room, ch, a) != store::print_node(form, room, ch, b)
}

// Rust's `equal_to`. Pairs found equal are joined, so that no two records are found equal twice.
#[cycle(equality)]
pub fn equal_node(form: &[u8], room: &mut [u8], ch: Charges, x: usize, y: usize) -> bool
    requires { Ready form.now room.old ch x × Ready form.now room.old ch y }
    ensures { Answered form.now room.old room.new ch result (equal_to (tree_in form.now room.old x) (tree_in form.now room.old y)) }
{
    let a = canon(form, room, ch, x);
    let b = canon(form, room, ch, y);
    if a == b {
        return true;
    }
    equal_records(form, room, ch, a, b)
}

// The parts of two pairs are compared only where the fingerprints are the same; then equal pairs are joined.
#[cycle(equality)]
fn equal_records(form: &[u8], room: &mut [u8], ch: Charges, a: usize, b: usize) -> bool
    requires { Ready form.now room.old ch a × Ready form.now room.old ch b }
    ensures { Answered form.now room.old room.new ch result (equal_to (tree_in form.now room.old a) (tree_in form.now room.old b)) }
{
    match compare_records(form, room, a, b) {
        Compared::Told(u) => u,
        Compared::Parts(al, ar, bl, br) => {
            if prints_differ(form, room, ch, a, b) {
                return false;
            }
            if equal_node(form, room, ch, al, bl) && equal_node(form, room, ch, ar, br) {
                join(form, room, ch, a, b);
                return true;
            }
            false
        }
    }
}
