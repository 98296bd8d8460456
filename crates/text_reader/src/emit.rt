// The serialised form as it grows: up to 8,192 bytes of it.
ghost use Rattle.std.specs.Prelude.{◌≡◌, [], ◌∷◌, ◌++◌, ◌≤◌, ◌<◌, length};
ghost use Rattle.meaning.specs.Form.{write_length, write_atom};
ghost use Rattle.text_reader.specs.Forms.{Within, Emits, prefixed, pair_byte};

const FORM: usize = 8192;

// Each emits more after the bytes that stand in the form, which are so many, or none is said: more would have to stand than may.

// One byte more.
pub(crate) fn emit_byte(form: &mut [u8], g: Option<usize>, b: u8) -> Option<usize>
    requires { (8192 ≤ length form.old) × Within g }
    ensures { Emits (b ∷ []) form.old form.new g result }
{
    let at = g?;
    if FORM <= at {
        return None;
    }
    form[at] = b;
    Some(at + 1)
}

// These bytes more.
fn emit_bytes(form: &mut [u8], g: Option<usize>, b: &[u8]) -> Option<usize>
    requires { (8192 ≤ length form.old) × Within g }
    ensures { Emits b.now form.old form.new g result }
{
    let at = g?;
    if FORM - at < b.len() {
        return None;
    }
    let end = at + b.len();
    form::copy(b, &mut form[at..end]);
    Some(end)
}

// Whether a body needs a prefix.
#[tactic(auto, unfolding(crate::specs::Forms::prefixed, meaning::specs::Form::write_atom, meaning::specs::Form::write_length))]
fn needs_prefix(b: &[u8]) -> bool
    ensures { write_atom b.now ≡ prefixed result b.now }
{
    match b {
        [x] => 0x80 <= *x,
        _ => true,
    }
}

// The prefix of a body of n bytes.
#[tactic(auto, unfolding(meaning::specs::Form::write_length), using(crate::proofs::EmitLaws::then_emits))]
fn emit_length(form: &mut [u8], g: Option<usize>, n: usize) -> Option<usize>
    requires { (8192 ≤ length form.old) × Within g × (n < 8192) }
    ensures { Emits (write_length n) form.old form.new g result }
{
    if n < 64 {
        return emit_byte(form, g, (0x80 + n) as u8);
    }
    let h = emit_byte(form, g, (0xc0 + n / 256) as u8);
    emit_byte(form, h, (n % 256) as u8)
}

// An atom more: one of 8,192 bytes has no room in a form.
fn emit_atom(form: &mut [u8], g: Option<usize>, b: &[u8]) -> Option<usize>
    requires { (8192 ≤ length form.old) × Within g }
    ensures { Emits (write_atom b.now) form.old form.new g result }
{
    if FORM <= b.len() {
        return None;
    }
    if needs_prefix(b) {
        let h = emit_length(form, g, b.len());
        emit_bytes(form, h, b)
    } else {
        emit_bytes(form, g, b)
    }
}

// ff, where a pair begins.
pub(crate) fn emit_pair(form: &mut [u8], g: Option<usize>, pair: bool) -> Option<usize>
    requires { (8192 ≤ length form.old) × Within g }
    ensures { Emits (pair_byte pair) form.old form.new g result }
{
    if pair { emit_byte(form, g, 0xff) } else { g }
}

// A part of a list, or another atom: ff where it is the left part of a pair, and the atom.
pub(crate) fn emit_part(form: &mut [u8], g: Option<usize>, pair: bool, b: &[u8]) -> Option<usize>
    requires { (8192 ≤ length form.old) × Within g }
    ensures { Emits (pair_byte pair ++ write_atom b.now) form.old form.new g result }
{
    let h = emit_pair(form, g, pair);
    emit_atom(form, h, b)
}
