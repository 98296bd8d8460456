// For every line of text one line: `ok`, the text of the optimised tree, passes, units and mark; or `no` and the refusal's number.
#![tactic(auto)]

use serve::Program;

fn main(rt: HostRuntime) {
    serve::run(rt.stdin(), Program::OptimiseText);
}
