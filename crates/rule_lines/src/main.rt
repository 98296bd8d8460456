// For every two lines of hex, a rule's number as one byte (01 to 08) and a form, one line: `same`, units and mark; `changed`, the new
// tree, units and mark; `no` and the refusal's number; or `no line` where the first is no rule's number or either is no line of hex.
#![tactic(auto)]

use serve::Program;

fn main(rt: HostRuntime) {
    serve::run(rt.stdin(), Program::Rule);
}
