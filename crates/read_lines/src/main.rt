// For every line of hex one line: `ok`, the tree written again and the units that the form costs; `no` and the refusal's number; or
// `no line` where it is not an even count of lower-case hex digits.
#![tactic(auto)]

use serve::Program;

fn main(rt: HostRuntime) {
    serve::run(rt.stdin(), Program::Read);
}
