// Prints the listing for the files circuit, rules and sites of the current folder, or the line of the refusal (01, Marked examples, 1 and 2).
#![tactic(auto)]

use files::{Case, print_files};

fn main(rt: HostRuntime) {
    let names = Case {
        circuit: b"circuit".as_slice(),
        rules: b"rules".as_slice(),
        sites: b"sites".as_slice(),
    };
    print_files(&rt, names);
}
