// The serialised form: reading it into the store, writing a node, and both on bytes alone.
#![tactic(auto)]

ghost use Rattle.std.specs.Prelude.{◌≡◌, [], ◌∷◌, ◌++◌, true, ◌+◌, ◌-◌, ◌≤◌, ◌<◌, length, take, drop, get_or};
ghost use Rattle.meaning.specs.Limits.{form_limit, room_least};
ghost use Rattle.meaning.specs.Form.{limits, more, length_from, needs_prefix, read_long, write_atom, write};
ghost use Rattle.meaning.specs.Outcome.{deliver_tree, Delivers, Settles};
ghost use Rattle.store.specs.Nodes.{tree_at, tree_in};
ghost use Rattle.store.specs.Store.{Held, Ready, atom_most};
ghost use Rattle.form.specs.Spans.{left_from, next_tree, LengthOk};
ghost use Rattle.form.specs.Reads.{Stretch, ReadOk, FormOk, WholeOk, reading_of};
ghost use Rattle.form.specs.Waits.{Waits, ClosedOk};
ghost use Rattle.form.specs.Writes.{Writable, Wrote, extent, stands, followed, Delivered};
ghost use Rattle.form.specs.Both.{read_both, Cut, TwoOk};
ghost use Rattle.form.specs.Bytes.{read_outcome, write_outcome, read_says, write_says};

use refusals::Refusal;
use store::{Cell, Charges, Made, ROOM};

// The node that was read, where the next byte stands, and the charges.
#[derive(Clone, Copy)]
pub struct Parsed {
    pub node: usize,
    pub next: usize,
    pub ch: Charges,
}

// The node that is whole, how many parts wait for it, and the charges.
#[derive(Clone, Copy)]
pub(crate) struct Closed {
    pub(crate) node: usize,
    pub(crate) left: usize,
    pub(crate) ch: Charges,
}

// The nodes of two forms, and the charges after both.
#[derive(Clone, Copy)]
pub struct Two {
    pub first: usize,
    pub second: usize,
    pub ch: Charges,
}

// What `write` answers: how many bytes it wrote, and the units that the form costs.
#[derive(Clone, Copy)]
pub struct Written {
    pub length: usize,
    pub units: usize,
}

const FORM: usize = 8192;

const ATOM: usize = 64;

// A short form's bytes, and so the pairs that may wait in it.
const FEW: usize = 512;

// A pair that waits for its left part: no node has this number.
const OPEN: u16 = 0xffff;

// ---- the prefix of an atom

// k bytes more of a length that begins with v, big-endian: the length, and where the body begins.
fn more(form: &[u8], stop: usize, at: usize, k: usize, v: usize) -> Result<(usize, usize), Refusal>
    requires { (at ≤ stop) × (stop ≤ length form.now) × (k ≤ 4) × (v < 64) }
    ensures { LengthOk form.now stop at (more k v) result }
{
    if stop - at < k {
        return Err(Refusal::EndsEarly);
    }
    let mut n = v;
    for b in &form[at..at + k] {
        n = n * 256 + *b as usize;
    }
    Ok((n, at + k))
}

// The length that the prefix p, from 80 on, says; the byte after it stands at at.
fn length_from(form: &[u8], stop: usize, at: usize, p: usize) -> Result<(usize, usize), Refusal>
    requires { (at ≤ stop) × (stop ≤ length form.now) × (128 ≤ p) × (p < 256) }
    ensures { LengthOk form.now stop at (length_from p) result }
{
    if p < 0xc0 {
        return Ok((p - 0x80, at));
    }
    if p < 0xe0 {
        return more(form, stop, at, 1, p - 0xc0);
    }
    if p < 0xf0 {
        return more(form, stop, at, 2, p - 0xe0);
    }
    if p < 0xf8 {
        return more(form, stop, at, 3, p - 0xf0);
    }
    if p < 0xfc {
        return more(form, stop, at, 4, p - 0xf8);
    }
    Err(Refusal::BadPrefix)
}

// ---- reading

// What was made, and where the next byte stands.
fn with_next(m: Result<Made, Refusal>, next: usize) -> Result<Parsed, Refusal>
    ensures { result ≡ reading_of m next }
{
    let Made { node, ch } = m?;
    Ok(Parsed { node, next, ch })
}

// An atom that begins with the prefix p, above 80, in any spelling; the byte after it stands at at. An empty one is nil.
fn read_long(
    form: &[u8],
    room: &mut [u8],
    stop: usize,
    at: usize,
    p: usize,
    ch: Charges,
) -> Result<Parsed, Refusal>
    requires { Held form.now room.old ch × Stretch form.now stop at × (128 ≤ p) × (p < 256) }
    ensures { ReadOk form.now room.old room.new stop at ch (read_long limits p (left_from form.now at stop ch.units)) result }
{
    let (n, from) = length_from(form, stop, at, p)?;
    if ATOM < n {
        return Err(Refusal::AtomLong);
    }
    if stop - from < n {
        return Err(Refusal::EndsEarly);
    }
    with_next(store::form_atom_node(form, room, ch, from, n), from + n)
}

// One atom, from at on: the byte there is not ff.
fn read_atom(
    form: &[u8],
    room: &mut [u8],
    stop: usize,
    at: usize,
    ch: Charges,
) -> Result<Parsed, Refusal>
    requires { Held form.now room.old ch × Stretch form.now stop at × (at < stop) × (get_or form.now at 0 ≡ 255 → ⊥) }
    ensures { ReadOk form.now room.old room.new stop (at + 1) ch (next_tree (left_from form.now at stop ch.units)) result }
{
    let p = form[at] as usize;
    if p < 0x80 {
        return with_next(store::form_atom_node(form, room, ch, at, 1), at + 1);
    }
    if p == 0x80 {
        return Ok(Parsed {
            node: 0,
            next: at + 1,
            ch,
        });
    }
    read_long(form, room, stop, at + 1, p, ch)
}

// The node q is whole. While the last of the k entries that wait is a left part, its pair is made, and is then the node that is whole.
fn close<'a>(
    form: &'a [u8],
    room: &mut [u8],
    wait: &'a [u16],
    k: usize,
    q: usize,
    ch: Charges,
) -> Result<Closed, Refusal>
    requires { Ready form.now room.old ch q × Waits form.now room.old wait.now ch k }
    ensures { ClosedOk form.now room.old room.new wait.now k q ch result }
{
    let mut node = q;
    let mut spent = ch;
    for i in (0..k).rev() {
        let v = wait[i];
        if v == OPEN {
            return Ok(Closed {
                node,
                left: i + 1,
                ch: spent,
            });
        }
        // Arms in place of `?`: the edit units_out_as_bytes_after changes what the second gives, and nothing else.
        match store::pair_node(form, room, spent, v as usize, node) {
            Ok(pair) => {
                node = pair.node;
                spent = pair.ch;
            }
            Err(over) => return Err(over),
        }
    }
    Ok(Closed {
        node,
        left: 0,
        ch: spent,
    })
}

// One tree, from at on. A pair waits as OPEN while its left part is read, and as that part's node while its right part is: an entry, and
// no frame. There are no more entries than bytes ff.
fn read_tree(
    form: &[u8],
    room: &mut [u8],
    wait: &mut [u16],
    stop: usize,
    at: usize,
    ch: Charges,
) -> Result<Parsed, Refusal>
    requires { Held form.now room.old ch × Stretch form.now stop at × (stop - at ≤ length wait.old) }
    ensures { ReadOk form.now room.old room.new stop at ch (next_tree (left_from form.now at stop ch.units)) result }
{
    let mut next = at;
    let mut k: usize = 0;
    let mut spent = ch;
    while next < stop {
        if form[next] == 0xff {
            wait[k] = OPEN;
            k += 1;
            next += 1;
        } else {
            let atom = read_atom(form, room, stop, next, spent)?;
            let whole = close(form, room, wait, k, atom.node, atom.ch)?;
            if whole.left == 0 {
                return Ok(Parsed {
                    node: whole.node,
                    next: atom.next,
                    ch: whole.ch,
                });
            }
            wait[whole.left - 1] = whole.node as u16;
            k = whole.left;
            next = atom.next;
            spent = whole.ch;
        }
    }
    Err(Refusal::EndsEarly)
}

// One tree, from at on, of at most 8,192 bytes. A short one is spared the clearing of many entries.
pub fn read_node(
    form: &[u8],
    room: &mut [u8],
    stop: usize,
    at: usize,
    ch: Charges,
) -> Result<Parsed, Refusal>
    requires { Held form.now room.old ch × Stretch form.now stop at × (stop - at ≤ form_limit) }
    ensures { ReadOk form.now room.old room.new stop at ch (next_tree (left_from form.now at stop ch.units)) result }
{
    if stop - at <= FEW {
        let mut few = [0u16; FEW];
        return read_tree(form, room, &mut few, stop, at, ch);
    }
    let mut wait = [0u16; FORM];
    read_tree(form, room, &mut wait, stop, at, ch)
}

// One tree and no more, of at most 8,192 bytes: form[from..stop].
pub fn read_form(
    form: &[u8],
    room: &mut [u8],
    from: usize,
    stop: usize,
    ch: Charges,
) -> Result<Made, Refusal>
    requires { Held form.now room.old ch × (from ≤ stop) × (stop ≤ length form.now) × (from ≤ form_limit) }
    ensures { FormOk form.now room.old room.new stop from ch result }
{
    if FORM < stop - from {
        return Err(Refusal::FormLong);
    }
    let Parsed { node, next, ch } = read_node(form, room, stop, from, ch)?;
    if next < stop {
        return Err(Refusal::BytesAfter);
    }
    Ok(Made { node, ch })
}

// ---- writing

// Whether an atom of these bytes is written behind its length: a byte below 80 is written alone.
fn needs_prefix(b: &[u8]) -> bool
    ensures { result ≡ needs_prefix b.now }
{
    match b {
        [] => false,
        [x] => 0x80 <= *x,
        _ => true,
    }
}

// How many bytes an atom of these is written in.
fn atom_length(b: &[u8]) -> usize
    requires { length b.now ≤ atom_most }
    ensures { result ≡ length (write_atom b.now) }
{
    if needs_prefix(b) {
        if b.len() < 64 {
            b.len() + 1
        } else {
            b.len() + 2
        }
    } else {
        1
    }
}

// How many bytes the tree of node n is written in, where that is at most limit. Parts may be shared, so
// a tree may be far larger than its store: every node looked at takes a byte of the limit.
pub fn length_node<'a>(form: &'a [u8], room: &'a [u8], n: usize, limit: usize) -> Option<usize>
    requires { Writable form.now room.now n }
    ensures { result ≡ extent limit (length (write (tree_in form.now room.now n))) }
{
    match store::look_node(room, n) {
        Cell::Pair(l, r) => {
            if limit == 0 {
                return None;
            }
            let k = 1 + length_node(form, room, l, limit - 1)?;
            Some(k + length_node(form, room, r, limit - k)?)
        }
        Cell::Atom => {
            let k = atom_length(store::atom_bytes(form, room, n));
            if limit < k { None } else { Some(k) }
        }
    }
}

// Copies src to the front of dst. By index: of the library's copy_from_slice the compiler makes a call of memmove here, and the archive for C
// needs no name from outside but memcpy and memset (bindings/test looks).
pub fn copy(src: &[u8], dst: &mut [u8])
    requires { length src.now ≤ length dst.old }
    ensures { dst.new ≡ src.now ++ drop (length src.now) dst.old }
{
    for i in 0..src.len() {
        dst[i] = src[i];
    }
}

// An atom's bytes after a prefix of one byte.
fn put_short(b: &[u8], out: &mut [u8]) -> usize
    requires { (needs_prefix b.now ≡ true) × (length b.now < 64) × (length b.now < length out.old) }
    ensures { Wrote (write_atom b.now) result out.old out.new }
{
    let n = b.len();
    out[0] = (0x80 + n) as u8;
    copy(b, &mut out[1..]);
    n + 1
}

// An atom's bytes after a prefix of two bytes.
fn put_long(b: &[u8], out: &mut [u8]) -> usize
    requires { (needs_prefix b.now ≡ true) × (64 ≤ length b.now) × (length b.now ≤ atom_most) × (length b.now + 1 < length out.old) }
    ensures { Wrote (write_atom b.now) result out.old out.new }
{
    let n = b.len();
    out[0] = (0xc0 + n / 256) as u8;
    out[1] = (n % 256) as u8;
    copy(b, &mut out[2..]);
    n + 2
}

// Writes the atom of these bytes to the front of out, which has room for it.
pub fn put_atom(b: &[u8], out: &mut [u8]) -> usize
    requires { (length b.now ≤ atom_most) × (length (write_atom b.now) ≤ length out.old) }
    ensures { Wrote (write_atom b.now) result out.old out.new }
{
    if needs_prefix(b) {
        return if b.len() < 64 {
            put_short(b, out)
        } else {
            put_long(b, out)
        };
    }
    if b.is_empty() {
        out[0] = 0x80;
        return 1;
    }
    out[0] = b[0];
    1
}

// Writes the tree of node n to the front of out, which has room for it. The right part is written into
// what remains of the output after the left.
pub fn write_node<'a>(form: &'a [u8], room: &'a [u8], n: usize, out: &mut [u8]) -> usize
    requires { Writable form.now room.now n × (length (write (tree_at form.now room.now n)) ≤ length out.old) }
    ensures { Wrote (write (tree_in form.now room.now n)) result out.old out.new }
{
    match store::look_node(room, n) {
        Cell::Pair(l, r) => {
            out[0] = 0xff;
            let k = write_node(form, room, l, &mut out[1..]);
            let at = 1 + k;
            let m = write_node(form, room, r, &mut out[at..]);
            at + m
        }
        Cell::Atom => put_atom(store::atom_bytes(form, room, n), out),
    }
}

// ---- comparing with bytes that were written before

// Whether b stands in form from at on.
pub fn stands_at<'a>(form: &'a [u8], at: usize, b: &'a [u8]) -> bool
    requires { at ≤ length form.now }
    ensures { result ≡ stands form.now at b.now }
{
    form[at..].starts_with(b)
}

// The place after the atom of these bytes, if it stands written in form from at on.
fn follow_atom<'a>(form: &'a [u8], b: &'a [u8], at: usize) -> Option<usize>
    requires { (length b.now ≤ atom_most) × (at ≤ length form.now) }
    ensures { result ≡ followed form.now at (write_atom b.now) }
{
    let mut written = [0u8; 258];
    let k = put_atom(b, &mut written);
    if stands_at(form, at, &written[..k]) {
        Some(at + k)
    } else {
        None
    }
}

// The place after the tree of node n, if it stands written in form from at on. Every node looked at takes a byte of form, or is the last.
pub fn follow_node<'a>(form: &'a [u8], room: &'a [u8], n: usize, at: usize) -> Option<usize>
    requires { Writable form.now room.now n × (at ≤ length form.now) }
    ensures { result ≡ followed form.now at (write (tree_in form.now room.now n)) }
{
    match store::look_node(room, n) {
        Cell::Pair(l, r) => {
            if form.len() <= at || form[at] != 0xff {
                return None;
            }
            let middle = follow_node(form, room, l, at + 1)?;
            follow_node(form, room, r, middle)
        }
        Cell::Atom => follow_atom(form, store::atom_bytes(form, room, n), at),
    }
}

// ---- delivering

// Writes the tree of node n to the front of out where it fits: measured first, so that refusal 14 leaves the output as it came in.
pub fn deliver_node<'a>(form: &'a [u8], room: &'a [u8], n: usize, out: &mut [u8]) -> Option<usize>
    requires { Writable form.now room.now n }
    ensures { Delivered (write (tree_in form.now room.now n)) out.old out.new result }
{
    length_node(form, room, n, out.len())?;
    Some(write_node(form, room, n, out))
}

// ---- two forms in one slice

// Where the first form, or the first text, ends: all bytes are its own where there are no more than first.
pub fn cut(forms: &[u8], first: usize) -> usize
    ensures { Cut forms.now first result }
{
    first.min(forms.len())
}

// Reads forms[..mid] and then the rest, on one budget of units, whatever the room held.
fn read_parts(forms: &[u8], room: &mut [u8], mid: usize) -> Result<Two, Refusal>
    requires { (room_least ≤ length room.old) × (mid ≤ length forms.now) }
    ensures { TwoOk forms.now room.new (read_both (take mid forms.now) (drop mid forms.now)) result }
{
    let ch = store::start(forms, room);
    let first = read_form(forms, room, 0, mid, ch)?;
    let second = read_form(forms, room, mid, forms.len(), first.ch)?;
    Ok(Two {
        first: first.node,
        second: second.node,
        ch: second.ch,
    })
}

// Reads the first bytes as one form, and what follows them as another.
pub fn read_two(forms: &[u8], room: &mut [u8], first: usize) -> Result<Two, Refusal>
    requires { room_least ≤ length room.old }
    ensures { TwoOk forms.now room.new (read_both (take first forms.now) (drop first forms.now)) result }
{
    let mid = cut(forms, first);
    read_parts(forms, room, mid)
}

// ---- on bytes alone

// Reads the form, in a room that has been started.
pub fn read_whole(form: &[u8], room: &mut [u8]) -> Result<Made, Refusal>
    requires { room_least ≤ length room.old }
    ensures { WholeOk form.now room.new result }
{
    let ch = store::start(form, room);
    read_form(form, room, 0, form.len(), ch)
}

// The units that the form costs. The room is all zero after, but for refusal 1.
pub fn read(form: &[u8], room: &mut [u8]) -> Result<usize, Refusal>
    ensures { Settles read_says (read_outcome form.now (length room.old)) room.old room.new [] [] result }
{
    if room.len() < ROOM {
        return Err(Refusal::RoomSmall);
    }
    let m = read_whole(form, room);
    store::zero_room(room);
    Ok(m?.ch.units)
}

// Writes the node, which stands for the form's tree, where it fits.
fn deliver<'a>(
    form: &'a [u8],
    room: &'a [u8],
    n: usize,
    units: usize,
    out: &mut [u8],
) -> Result<Written, Refusal>
    requires { Writable form.now room.now n }
    ensures { Delivers write_says (deliver_tree (length out.old) (tree_in form.now room.now n) (units ∷ [])) out.old out.new result }
{
    match deliver_node(form, room, n, out) {
        Some(length) => Ok(Written { length, units }),
        None => Err(Refusal::OutputShort),
    }
}

// Reads the form and writes its tree again. The room is all zero after, but for refusal 1.
pub fn write(form: &[u8], room: &mut [u8], out: &mut [u8]) -> Result<Written, Refusal>
    ensures { Settles write_says (write_outcome form.now (length room.old) (length out.old)) room.old room.new out.old out.new result }
{
    if room.len() < ROOM {
        return Err(Refusal::RoomSmall);
    }
    match read_whole(form, room) {
        Ok(Made { node, ch }) => {
            let a = deliver(form, room, node, ch.units, out);
            store::zero_room(room);
            a
        }
        Err(e) => {
            store::zero_room(room);
            Err(e)
        }
    }
}
