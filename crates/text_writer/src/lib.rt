// The text of a node: measured first, then written.
#![tactic(auto)]

ghost use Rattle.std.specs.Prelude.{◌≡◌, ◌∷◌, ◌+◌, ◌*◌, ◌/◌, ◌%◌, ◌≤◌, ◌<◌, length};
ghost use Rattle.std.proofs.Math.Option.{some};
ghost use Rattle.meaning.specs.Tree.{atom};
ghost use Rattle.notation.specs.Words.{name_of, hex_digit, hex, atom_text};
ghost use Rattle.notation.specs.Texts.{is_one, after, text_rest, text_of};
ghost use Rattle.store.specs.Cells.{Room};
ghost use Rattle.store.specs.Nodes.{tree_at, tree_in};
ghost use Rattle.store.specs.Store.{atom_most};
ghost use Rattle.form.specs.Writes.{Writable, Wrote, extent, Delivered};
ghost use Rattle.text_writer.specs.Parts.{part_text, part_place, first_byte, has_name};

use notation::{NAMES, Place, is_one};
use store::Cell;

// ---- places

// Where the first part of a pair stands: at the head of a list, or as one more part.
#[tactic(auto, unfolding(crate::specs::Parts::part_place))]
fn part_place(p: Place, rest: bool) -> Place
    ensures { result ≡ part_place rest p }
{
    if rest { p } else { p.head_in() }
}

// What stands before the first part of a pair: an opening bracket, or a space.
#[tactic(auto, unfolding(crate::specs::Parts::first_byte))]
fn first_byte(rest: bool) -> u8
    ensures { result ≡ first_byte rest }
{
    if rest { 0x20 } else { 0x28 }
}

// Whether a node is the atom 1.
fn one_at<'a>(form: &'a [u8], room: &'a [u8], n: usize) -> bool
    requires { Room room.now n }
    ensures { result ≡ is_one (tree_in form.now room.now n) }
{
    match store::look_node(room, n) {
        Cell::Pair(_, _) => false,
        Cell::Atom => is_one(store::atom_bytes(form, room, n)),
    }
}

// The place of what follows node n, which stands at p.
#[tactic(auto, unfolding(notation::specs::Texts::after))]
fn after<'a>(form: &'a [u8], room: &'a [u8], n: usize, p: Place) -> Place
    requires { Room room.now n }
    ensures { result ≡ after p (tree_in form.now room.now n) }
{
    match p {
        Place::Operator => p.after(one_at(form, room, n)),
        Place::Code | Place::Data => p,
    }
}

// ---- atoms

// The name of an operator.
#[tactic(auto, unfolding(notation::specs::Words::name_of))]
fn name(k: u8) -> u8
    requires { (1 ≤ k) × (k ≤ 9) }
    ensures { name_of k ≡ some result }
{
    NAMES[(k - 1) as usize]
}

// Whether a name fits these bytes at a place.
fn has_name(p: Place, b: &[u8]) -> bool
    ensures { result ≡ has_name p b.now }
{
    match p {
        Place::Operator => matches!(b, [1..=9]),
        // Two arms: the edit q_outside_operator_place changes the first.
        Place::Code => false,
        Place::Data => false,
    }
}

// How many bytes an atom's text has.
fn atom_length(p: Place, b: &[u8]) -> usize
    requires { length b.now ≤ atom_most }
    ensures { result ≡ length (atom_text p b.now) }
{
    if b.is_empty() {
        2
    } else if has_name(p, b) {
        1
    } else {
        2 + 2 * b.len()
    }
}

// How many bytes the rest of a list has that is an atom.
fn last_length(p: Place, b: &[u8]) -> usize
    requires { length b.now ≤ atom_most }
    ensures { result ≡ length (text_rest (atom b.now) p) }
{
    if b.is_empty() {
        1
    } else {
        4 + atom_length(p, b)
    }
}

// How many bytes an atom takes, as an expression or as the rest of a list.
#[tactic(auto, unfolding(crate::specs::Parts::part_text, notation::specs::Texts::text_at))]
fn end_length(p: Place, rest: bool, b: &[u8]) -> usize
    requires { length b.now ≤ atom_most }
    ensures { result ≡ length (part_text rest (atom b.now) p) }
{
    if rest {
        last_length(p, b)
    } else {
        atom_length(p, b)
    }
}

// A hex digit's text.
#[tactic(auto, unfolding(notation::specs::Words::hex_digit))]
fn hex_digit(d: u8) -> u8
    requires { d < 16 }
    ensures { result ≡ hex_digit d }
{
    if d < 10 { 0x30 + d } else { 0x57 + d }
}

// Two digits for each byte.
fn put_hex(b: &[u8], out: &mut [u8])
    requires { (length b.now ≤ atom_most) × (2 * length b.now ≤ length out.old) }
    ensures { Wrote (hex b.now) (2 * length b.now) out.old out.new }
{
    for (i, x) in b.iter().enumerate() {
        out[2 * i] = hex_digit(x / 16);
        out[2 * i + 1] = hex_digit(x % 16);
    }
}

// An atom that has no name: two digits a byte after 0x.
fn put_bytes(b: &[u8], out: &mut [u8]) -> usize
    requires { (length b.now ≤ atom_most) × (2 + 2 * length b.now ≤ length out.old) }
    ensures { Wrote (0x30 ∷ 0x78 ∷ hex b.now) result out.old out.new }
{
    out[0] = 0x30;
    out[1] = 0x78;
    put_hex(b, &mut out[2..]);
    2 + 2 * b.len()
}

fn put_atom(p: Place, b: &[u8], out: &mut [u8]) -> usize
    requires { (length b.now ≤ atom_most) × (length (atom_text p b.now) ≤ length out.old) }
    ensures { Wrote (atom_text p b.now) result out.old out.new }
{
    if b.is_empty() {
        out[0] = 0x28;
        out[1] = 0x29;
        return 2;
    }
    if has_name(p, b) {
        out[0] = name(b[0]);
        return 1;
    }
    put_bytes(b, out)
}

// The rest of a list that is an atom: the closing bracket, and before it a dot and the atom where it is no nil.
fn put_last(p: Place, b: &[u8], out: &mut [u8]) -> usize
    requires { (length b.now ≤ atom_most) × (length (text_rest (atom b.now) p) ≤ length out.old) }
    ensures { Wrote (text_rest (atom b.now) p) result out.old out.new }
{
    if b.is_empty() {
        out[0] = 0x29;
        return 1;
    }
    out[0] = 0x20;
    out[1] = 0x2e;
    out[2] = 0x20;
    let end = 3 + put_atom(p, b, &mut out[3..]);
    out[end] = 0x29;
    end + 1
}

// An atom, as an expression or as the rest of a list.
#[tactic(auto, unfolding(crate::specs::Parts::part_text, notation::specs::Texts::text_at))]
fn put_end(p: Place, rest: bool, b: &[u8], out: &mut [u8]) -> usize
    requires { (length b.now ≤ atom_most) × (length (part_text rest (atom b.now) p) ≤ length out.old) }
    ensures { Wrote (part_text rest (atom b.now) p) result out.old out.new }
{
    if rest {
        put_last(p, b, out)
    } else {
        put_atom(p, b, out)
    }
}

// ---- nodes

// How many bytes the text of node n has, or of it as the rest of a list, where that is at most limit: every node looked at takes a byte.
pub fn length_text<'a>(
    form: &'a [u8],
    room: &'a [u8],
    n: usize,
    p: Place,
    rest: bool,
    limit: usize,
) -> Option<usize>
    requires { Writable form.now room.now n }
    ensures { result ≡ extent limit (length (part_text rest (tree_in form.now room.now n) p)) }
{
    match store::look_node(room, n) {
        Cell::Pair(l, r) => {
            if limit == 0 {
                return None;
            }
            let q = part_place(p, rest);
            let k = 1 + length_text(form, room, l, q, false, limit - 1)?;
            let o = after(form, room, l, q);
            Some(k + length_text(form, room, r, o, true, limit - k)?)
        }
        Cell::Atom => {
            let k = end_length(p, rest, store::atom_bytes(form, room, n));
            if limit < k { None } else { Some(k) }
        }
    }
}

// Writes the text of node n, or of it as the rest of a list, to the front of out, which has room for it.
pub fn write_text<'a>(
    form: &'a [u8],
    room: &'a [u8],
    n: usize,
    p: Place,
    rest: bool,
    out: &mut [u8],
) -> usize
    requires { Writable form.now room.now n × (length (part_text rest (tree_at form.now room.now n) p) ≤ length out.old) }
    ensures { Wrote (part_text rest (tree_in form.now room.now n) p) result out.old out.new }
{
    match store::look_node(room, n) {
        Cell::Pair(l, r) => {
            let q = part_place(p, rest);
            let o = after(form, room, l, q);
            out[0] = first_byte(rest);
            let at = 1 + write_text(form, room, l, q, false, &mut out[1..]);
            at + write_text(form, room, r, o, true, &mut out[at..])
        }
        Cell::Atom => put_end(p, rest, store::atom_bytes(form, room, n), out),
    }
}

// Writes the text of node n to the front of out where it fits: measured first, so that refusal 14 leaves the output as it came in.
pub fn deliver_text<'a>(form: &'a [u8], room: &'a [u8], n: usize, out: &mut [u8]) -> Option<usize>
    requires { Writable form.now room.now n }
    ensures { Delivered (text_of (tree_in form.now room.now n)) out.old out.new result }
{
    length_text(form, room, n, Place::Code, false, out.len())?;
    Some(write_text(form, room, n, Place::Code, false, out))
}
