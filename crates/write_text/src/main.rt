// For every line of hex one line: `ok` and the text of the form's tree; `no` and the refusal's number; or `no line` where it is not an
// even count of lower-case hex digits.
#![tactic(auto)]

use serve::Program;

fn main(rt: HostRuntime) {
    serve::run(rt.stdin(), Program::WriteText);
}
