// For every two lines of text, a program and an environment, one line: `ok`, the text of the value, steps and units; `no` and the
// refusal's number; or `no line` where the second line is missing.
#![tactic(auto)]

use serve::Program;

fn main(rt: HostRuntime) {
    serve::run(rt.stdin(), Program::EvaluateText);
}
