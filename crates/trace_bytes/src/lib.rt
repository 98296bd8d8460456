// The bytes of a trace: `CLT`, a version, the form behind its length, entries, and the counts.
#![tactic(auto)]

ghost use Rattle.std.specs.Prelude.{◌≡◌, ◌++◌, ◌+◌, ◌≤◌, ◌<◌, length, take, drop};
ghost use Rattle.meaning.specs.Tree.{same_bytes};
ghost use Rattle.meaning.specs.Trace.{two_bytes, four_bytes, trace_start};
ghost use Rattle.trace_bytes.specs.Bytes.{two_at, is_whole, TakenOk, put_at, counts_of};

use refusals::Refusal;

// Bytes of a trace, at most.
const TRACE: usize = 65536;

// Mark and version, which stand at the front.
const START: &[u8; 5] = b"CLT\0\x01";

// ---- reading

// The number that the two bytes from at on say.
pub fn two_at(trace: &[u8], at: usize) -> usize
    requires { at + 1 < length trace.now }
    ensures { (result ≡ two_at trace.now at) × (result < 65536) }
{
    let bytes: [u8; 2] = trace[at..at + 2].try_into().unwrap();
    usize::from(u16::from_be_bytes(bytes))
}

// Whether `CLT` and version 1 stand at the front.
fn starts(trace: &[u8]) -> bool
    ensures { result ≡ same_bytes (take 5 trace.now) trace_start }
{
    trace.starts_with(START)
}

// Whether the bytes from at on are entries and the counts, and no more.
fn whole_from(trace: &[u8], from: usize) -> bool
    requires { from ≤ length trace.now }
    ensures { result ≡ is_whole (drop from trace.now) }
{
    let mut at = from;
    while at < trace.len() {
        if trace[at] == 0 {
            return trace.len() - at == 9;
        }
        if trace.len() - at < 3 {
            return false;
        }
        let n = two_at(trace, at + 1);
        if trace.len() - at - 3 < n {
            return false;
        }
        at += 3 + n;
    }
    false
}

// Takes a trace apart: its form is trace[7..stop], where stop is the answer, and its entries follow.
pub fn take_trace(trace: &[u8]) -> Result<usize, Refusal>
    ensures { TakenOk trace.now result }
{
    if TRACE < trace.len() {
        return Err(Refusal::TraceLong);
    }
    if !starts(trace) {
        return Err(Refusal::NotATrace);
    }
    if trace.len() < 7 {
        return Err(Refusal::TraceCut);
    }
    let n = two_at(trace, 5);
    if trace.len() - 7 < n {
        return Err(Refusal::TraceCut);
    }
    if whole_from(trace, 7 + n) {
        Ok(7 + n)
    } else {
        Err(Refusal::TraceCut)
    }
}

// ---- writing

// A number as two bytes.
pub fn put_two(out: &mut [u8], at: usize, n: usize)
    requires { (at + 2 ≤ length out.old) × (n < 65536) }
    ensures { out.new ≡ put_at out.old at (two_bytes n) }
{
    out[at..at + 2].copy_from_slice(&(n as u16).to_be_bytes());
}

// A number as four bytes.
fn put_four(out: &mut [u8], at: usize, n: usize)
    requires { (at + 4 ≤ length out.old) × (n < 4294967296) }
    ensures { out.new ≡ put_at out.old at (four_bytes n) }
{
    out[at..at + 4].copy_from_slice(&(n as u32).to_be_bytes());
}

// Mark, version and the form's length.
pub fn put_start(out: &mut [u8], n: usize)
    requires { (7 ≤ length out.old) × (n < 65536) }
    ensures { out.new ≡ (trace_start ++ two_bytes n) ++ drop 7 out.old }
{
    out[..5].copy_from_slice(START);
    put_two(out, 5, n);
}

// The counts, from at on.
pub fn put_counts(out: &mut [u8], at: usize, passes: usize, units: usize)
    requires { (at + 9 ≤ length out.old) × (passes < 4294967296) × (units < 4294967296) }
    ensures { out.new ≡ put_at out.old at (counts_of passes units) }
{
    out[at] = 0;
    put_four(out, at + 1, passes);
    put_four(out, at + 5, units);
}
