// For every line of text one line: `ok`, the serialised form of its tree in hex and the units that the form costs; or `no` and the
// refusal's number.
#![tactic(auto)]

use serve::Program;

fn main(rt: HostRuntime) {
    serve::run(rt.stdin(), Program::ReadText);
}
