#![tactic(auto)]
// Reads a table file from standard input and prints what is in it, the earliest and the cheapest starts,
// or what is wrong with it and where.
mod input;
mod report;
mod starts;
mod wording;

use input::read_file;
use std::io;

fn main(rt: HostRuntime) -> io::Result<()> {
    let mut buffer = vec![in rt.alloc(); 0u8; 65_536]?;
    match read_file(&mut rt.stdin(), buffer.as_mut_slice())? {
        None => println!(rt; "The file is longer than 65535 bytes; no table file is."),
        Some(file) => report::print_file(&rt, file),
    }
}
