// Vectors: answers the commands of `stdin`. What is stored as expected in `stdout` comes from independent engines and an independent
// checker (tools/vectors).
#![tactic(auto)]

use commands::run_standard_input;
use std::io;

fn main(rt: HostRuntime) -> io::Result<()> {
    run_standard_input(&rt)
}
