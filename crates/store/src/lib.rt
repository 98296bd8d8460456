// Records in the first 65,536 bytes of a lent room. A node's number is its record's place; node 0 is nil.
// Reading is total: a pair is a pair only where both parts are numbered below it.
#![tactic(auto)]

ghost use Rattle.std.specs.Prelude.{◌≡◌, ◌+◌, ◌-◌, ◌*◌, ◌/◌, ◌%◌, ◌<◌, ◌≤◌, ◌⊎◌, length, take, drop};
ghost use Rattle.meaning.specs.Tree.{atom, pair};
ghost use Rattle.meaning.specs.Limits.{unit_limit, pair_cost, atom_cost};
ghost use Rattle.meaning.specs.Constant.{seems_constant, seems_constant_tail};
ghost use Rattle.meaning.specs.Outcome.{zeroed};
ghost use Rattle.store.specs.Cells.{num16, num64, put16, put64, Room, cell_at, bytes_at, same_at, pair_put, atom_put};
ghost use Rattle.store.specs.Nodes.{tree_at, tree_in, mixed, print_from, print_of};
ghost use Rattle.store.specs.Store.{noted_at, noted_tail_at, digit, note, note_tail, atom_most, free_limit, Paid, Held, Ready};
ghost use Rattle.store.specs.Makers.{charged, lend, MadeOk, Put, LaidOk, Begun, Answered, Grown, Joins};

use refusals::Refusal;

// How many bytes of room a caller has to lend.
pub const ROOM: usize = 65536;

#[derive(Clone, Copy)]
pub enum Cell {
    Pair(usize, usize),
    Atom,
}

// Units spent in the run, bytes laid free of units, where the records end and where the made bytes begin.
#[derive(Clone, Copy)]
pub struct Charges {
    pub units: usize,
    pub free: usize,
    pub end: usize,
    pub top: usize,
}

// What a maker made: a node, and the charges after it.
#[derive(Clone, Copy)]
pub struct Made {
    pub node: usize,
    pub ch: Charges,
}

// ---- numbers in the room, low byte first

fn num(room: &[u8], i: usize) -> usize
    requires { i + 1 < length room.now }
    ensures { (result ≡ num16 room.now i) × (result < 65536) }
{
    let bytes: [u8; 2] = room[i..i + 2].try_into().unwrap();
    usize::from(u16::from_le_bytes(bytes))
}

fn num8(room: &[u8], i: usize) -> u64
    requires { i + 7 < length room.now }
    ensures { result ≡ num64 room.now i }
{
    let bytes: [u8; 8] = room[i..i + 8].try_into().unwrap();
    u64::from_le_bytes(bytes)
}

fn put(room: &mut [u8], i: usize, x: usize)
    requires { (i + 1 < length room.old) × (x < 65536) }
    ensures { room.new ≡ put16 room.old i x }
{
    room[i..i + 2].copy_from_slice(&(x as u16).to_le_bytes());
}

fn put8(room: &mut [u8], i: usize, x: u64)
    requires { i + 7 < length room.old }
    ensures { room.new ≡ put64 room.old i x }
{
    room[i..i + 8].copy_from_slice(&x.to_le_bytes());
}

// ---- reading

// What stands at node n.
pub fn look_node(room: &[u8], n: usize) -> Cell
    requires { Room room.now n }
    ensures { result ≡ cell_at room.now n }
{
    if room[n] % 4 == 2 {
        let l = num(room, n + 1);
        let r = num(room, n + 3);
        if l < n && r < n {
            return Cell::Pair(l, r);
        }
    }
    Cell::Atom
}

// The part of s from at on, of len bytes; shorter where s ends.
fn part(s: &[u8], at: usize, len: usize) -> &[u8]
    requires { (at < 65536) × (len < 65536) }
    ensures { result.now ≡ take len (drop at s.now) }
{
    if at + len <= s.len() {
        &s[at..at + len]
    } else {
        &s[at.min(s.len())..]
    }
}

// An atom's bytes: in the form, or in the made bytes.
pub fn atom_bytes<'a>(form: &'a [u8], room: &'a [u8], n: usize) -> &'a [u8]
    requires { Room room.now n }
    ensures { result.now ≡ bytes_at form.now room.now n }
{
    let at = num(room, n + 1);
    let len = num(room, n + 3);
    let source = if room[n] % 4 == 1 { room } else { form };
    part(source, at, len)
}

// Fingerprints: sums that wrap on purpose, the left one doubled so that order matters.
fn mix(a: u64, b: u64) -> u64
    ensures { result ≡ mixed a b }
{
    a.wrapping_add(a)
        .wrapping_add(b)
        .wrapping_add(1442695040888963407)
}

fn print_bytes(b: &[u8]) -> u64
    ensures { result ≡ print_from 7 b.now }
{
    b.iter().fold(7, |print, byte| mix(print, u64::from(*byte)))
}

// A node's fingerprint: kept in a pair's record, counted for an atom.
pub fn print_node<'a>(form: &'a [u8], room: &'a [u8], ch: Charges, n: usize) -> u64
    requires { Ready form.now room.now ch n }
    ensures { result ≡ print_of (tree_in form.now room.now n) }
{
    match look_node(room, n) {
        Cell::Pair(..) => num8(room, n + 5),
        Cell::Atom => print_bytes(atom_bytes(form, room, n)),
    }
}

// A node at or below n, known to stand for the same tree.
pub fn same_node(room: &[u8], n: usize) -> usize
    requires { Room room.now n }
    ensures { result ≡ same_at room.now n }
{
    match look_node(room, n) {
        Cell::Pair(..) => num(room, n + 13),
        Cell::Atom => n,
    }
}

// ---- charges

const UNITS: usize = 32768;

// Charges for work, whether or not it makes a record.
pub fn charge(ch: Charges, cost: usize) -> Result<Charges, Refusal>
    requires { ch.units ≤ unit_limit }
    ensures { result ≡ charged ch cost }
{
    if UNITS - ch.units < cost {
        return Err(Refusal::UnitsOut);
    }
    Ok(Charges {
        units: ch.units + cost,
        ..ch
    })
}

// ---- records at the end, already paid for: the charges leave room for them, so none is asked for

fn put_pair(room: &mut [u8], n: usize, l: usize, r: usize, p: u64)
    requires { Room room.old n × (l < n) × (r < n) }
    ensures { room.new ≡ pair_put room.old n l r p }
{
    put(room, n + 1, l);
    put(room, n + 3, r);
    put8(room, n + 5, p);
    put(room, n + 13, n);
    room[n] = 2;
}

// A pair, with its fingerprint from its parts' and itself as its same node.
fn append_pair(form: &[u8], room: &mut [u8], ch: Charges, l: usize, r: usize) -> Charges
    requires { Ready form.now room.old ch l × Ready form.now room.old ch r × Paid ch 15 }
    ensures { Put form.now room.old room.new ch result (pair (tree_in form.now room.old l) (tree_in form.now room.old r)) }
{
    let a = print_node(form, room, ch, l);
    let b = print_node(form, room, ch, r);
    put_pair(room, ch.end, l, r, mix(a, b));
    Charges {
        end: ch.end + 15,
        ..ch
    }
}

fn put_atom(room: &mut [u8], n: usize, k: u8, at: usize, len: usize)
    requires { Room room.old n × (at < 65536) × (len < 65536) }
    ensures { room.new ≡ atom_put room.old n k at len }
{
    put(room, n + 1, at);
    put(room, n + 3, len);
    room[n] = k;
}

// An atom whose bytes stand in the form.
fn append_form_atom(form: &[u8], room: &mut [u8], ch: Charges, at: usize, len: usize) -> Charges
    requires { Held form.now room.old ch × Paid ch 5 × (at < 65536) × (len ≤ atom_most) }
    ensures { Put form.now room.old room.new ch result (atom (take len (drop at form.now))) }
{
    put_atom(room, ch.end, 0, at, len);
    Charges {
        end: ch.end + 5,
        ..ch
    }
}

// An atom whose bytes are made: they go below the made bytes.
fn append_atom<'a>(form: &'a [u8], room: &mut [u8], ch: Charges, b: &'a [u8]) -> Charges
    requires { Held form.now room.old ch × Paid ch (5 + length b.now) × (length b.now ≤ atom_most) }
    ensures { Put form.now room.old room.new ch result (atom b.now) }
{
    let at = ch.top - b.len();
    room[at..ch.top].copy_from_slice(b);
    put_atom(room, ch.end, 1, at, b.len());
    Charges {
        end: ch.end + 5,
        top: at,
        ..ch
    }
}

// ---- makers that are charged

// The pair of l and r, for 8 units.
pub fn pair_node(
    form: &[u8],
    room: &mut [u8],
    ch: Charges,
    l: usize,
    r: usize,
) -> Result<Made, Refusal>
    requires { Ready form.now room.old ch l × Ready form.now room.old ch r }
    ensures { MadeOk form.now room.old room.new ch pair_cost (pair (tree_in form.now room.old l) (tree_in form.now room.old r)) result }
{
    let c = charge(ch, 8)?;
    Ok(Made {
        node: c.end,
        ch: append_pair(form, room, c, l, r),
    })
}

// An atom of these bytes, for 4 units and one a byte; the empty atom is node 0, and free.
pub fn atom_node<'a>(
    form: &'a [u8],
    room: &mut [u8],
    ch: Charges,
    b: &'a [u8],
) -> Result<Made, Refusal>
    requires { Held form.now room.old ch × (length b.now ≤ atom_most) }
    ensures { MadeOk form.now room.old room.new ch (atom_cost b.now) (atom b.now) result }
{
    if b.is_empty() {
        return Ok(Made { node: 0, ch });
    }
    let c = charge(ch, 4 + b.len())?;
    Ok(Made {
        node: c.end,
        ch: append_atom(form, room, c, b),
    })
}

// An atom of the form, of len bytes from at on; charged like any other.
pub fn form_atom_node(
    form: &[u8],
    room: &mut [u8],
    ch: Charges,
    at: usize,
    len: usize,
) -> Result<Made, Refusal>
    requires { Held form.now room.old ch × (at < 65536) × (at + len ≤ length form.now) × (len ≤ atom_most) }
    ensures { MadeOk form.now room.old room.new ch (atom_cost (take len (drop at form.now))) (atom (take len (drop at form.now))) result }
{
    if len == 0 {
        return Ok(Made { node: 0, ch });
    }
    let c = charge(ch, 4 + len)?;
    Ok(Made {
        node: c.end,
        ch: append_form_atom(form, room, c, at, len),
    })
}

// ---- makers that are free of units, for patterns

// The charges, with k bytes more laid free.
fn give_free(ch: Charges, k: usize) -> Charges
    requires { ch.free + k ≤ free_limit }
    ensures { result ≡ lend ch k }
{
    Charges {
        free: ch.free + k,
        ..ch
    }
}

pub fn lay_pair(form: &[u8], room: &mut [u8], ch: Charges, l: usize, r: usize) -> Made
    requires { Ready form.now room.old ch l × Ready form.now room.old ch r × (ch.free + 15 ≤ free_limit) }
    ensures { LaidOk form.now room.old room.new ch 15 (pair (tree_in form.now room.old l) (tree_in form.now room.old r)) result }
{
    let c = give_free(ch, 15);
    Made {
        node: c.end,
        ch: append_pair(form, room, c, l, r),
    }
}

pub fn lay_atom<'a>(form: &'a [u8], room: &mut [u8], ch: Charges, b: &'a [u8]) -> Made
    requires { Held form.now room.old ch × (length b.now ≤ atom_most) × (ch.free + (5 + length b.now) ≤ free_limit) }
    ensures { LaidOk form.now room.old room.new ch (5 + length b.now) (atom b.now) result }
{
    let c = give_free(ch, 5 + b.len());
    Made {
        node: c.end,
        ch: append_atom(form, room, c, b),
    }
}

// A store with nil at 0, and nothing else, whatever the room held.
pub fn start(form: &[u8], room: &mut [u8]) -> Charges
    requires { 65536 ≤ length room.old }
    ensures { Begun form.now room.new result }
{
    put_atom(room, 0, 0, 0, 0);
    Charges {
        units: 0,
        free: 5,
        end: 5,
        top: 65535,
    }
}

// ---- what the store remembers of a node

// Whether a node seems constant, and whether it does as a tail: below 2 not known, 2 no, 3 yes.
pub fn noted(room: &[u8], n: usize) -> u8
    requires { Room room.now n }
    ensures { result ≡ noted_at room.now n }
{
    room[n] / 4 % 4
}

pub fn noted_tail(room: &[u8], n: usize) -> u8
    requires { Room room.now n }
    ensures { result ≡ noted_tail_at room.now n }
{
    room[n] / 16 % 4
}

// The kind byte k with its base-4 digit at PLACE, 4 or 16, made that of b.
fn with_note<const PLACE: u8>(k: u8, b: bool) -> u8
    requires { (PLACE ≡ 4) ⊎ (PLACE ≡ 16) }
    ensures { result ≡ k % PLACE + digit b * PLACE + k / (PLACE * 4) * (PLACE * 4) }
{
    let d = if b { 3 } else { 2 };
    k % PLACE + d * PLACE + k / (PLACE * 4) * (PLACE * 4)
}

// Remembers an answer, and gives it.
pub fn remember(form: &[u8], room: &mut [u8], ch: Charges, n: usize, b: bool) -> bool
    requires { Ready form.now room.old ch n × (b ≡ seems_constant (tree_at form.now room.old n)) }
    ensures answered { Answered form.now room.old room.new ch result (seems_constant (tree_in form.now room.old n)) }
    ensures written { room.new ≡ note room.old n b }
{
    room[n] = with_note::<4>(room[n], b);
    b
}

pub fn remember_tail(form: &[u8], room: &mut [u8], ch: Charges, n: usize, b: bool) -> bool
    requires { Ready form.now room.old ch n × (b ≡ seems_constant_tail (tree_at form.now room.old n)) }
    ensures answered { Answered form.now room.old room.new ch result (seems_constant_tail (tree_in form.now room.old n)) }
    ensures written { room.new ≡ note_tail room.old n b }
{
    room[n] = with_note::<16>(room[n], b);
    b
}

// Remembers that the pair n stands for the same tree as m, which is below it.
pub fn join_node(form: &[u8], room: &mut [u8], ch: Charges, n: usize, m: usize)
    requires { Joins form.now room.old ch n m }
    ensures { Grown form.now room.old room.new ch ch }
{
    put(room, n + 13, m);
}

// ---- the end

// Every byte of the room becomes 0.
pub fn zero_room(room: &mut [u8])
    ensures { room.new ≡ zeroed room.old }
{
    room.fill(0);
}
