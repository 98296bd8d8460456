// For every line of text one line: `at` and the place, in bytes from 0, at which it stops if it does not parse; `no fault` if it parses; or
// `no` and the refusal's number.
#![tactic(auto)]

use serve::Program;

fn main(rt: HostRuntime) {
    serve::run(rt.stdin(), Program::TextFault);
}
