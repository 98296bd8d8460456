// For every two lines of hex, a pattern and an expression, one line: `ok` and each name's bytes, `=` and the tree that it is bound to;
// `no match`; `too many names`; `no` and the refusal's number; or `no line` where either is not an even count of lower-case hex digits.
#![tactic(auto)]

use serve::Program;

fn main(rt: HostRuntime) {
    serve::run(rt.stdin(), Program::Match);
}
