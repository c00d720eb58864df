// The cases: R1 to R13 and the limits of document 01, and the requests' own of document 02, a command each in `stdin`, run through the
// public functions. Each line that is written has a case, the number given back, and how many nodes, rows, numbers or bytes, or the place.
// `stdout` was written from the documents: it is what must come out.
#![tactic(auto)]

use commands::run_standard_input;
use std::io;

fn main(rt: HostRuntime) -> io::Result<()> {
    run_standard_input(&rt)
}
