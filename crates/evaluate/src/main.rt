// For every two lines of hex, a program and an environment, one line: `ok`, the value, steps and units; `no` and the refusal's number;
// or `no line` where either is not an even count of lower-case hex digits.
#![tactic(auto)]

use serve::Program;

fn main(rt: HostRuntime) {
    serve::run(rt.stdin(), Program::Evaluate);
}
