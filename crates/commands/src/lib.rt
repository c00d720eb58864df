// Commands, a line each: they set a table, a path, literals and a file, and ask the library's public functions of them. The programs
// answer the commands of their standard input (tools/vectors/README.md has the format). Lines cost no proof, however many there are.
#![tactic(auto)]

mod answer;
mod command;
mod desk;
mod outcome;
mod reply;

use desk::Desk;
use reply::Reply;
use std::io;
use std::io::{Input, Read};

// Room for the text of all commands.
const MOST_TEXT: usize = 2097152;

// What a program does: it answers the commands of its standard input, and writes each reply as soon as it is known.
pub fn run_standard_input(rt: &(impl Input + Print + AllocGlobal)) -> io::Result<()> {
    let alloc = rt.alloc();
    let mut text = Vec::with_capacity(alloc, MOST_TEXT)?;
    rt.reader().take(MOST_TEXT as u64).read_to_end(&mut text)?;
    let mut desk = Desk::new(alloc)?;
    let mut reply = Reply::new(alloc)?;
    for line in text.split(|b| *b == b'\n') {
        desk.run_line(line, &mut reply)?;
        if !reply.line().is_empty() {
            rt.write_all(reply.line())?;
        }
    }
    Ok(())
}
