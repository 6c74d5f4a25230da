#![tactic(auto)]
// Runs the engine on textbook networks and on random ones, each against the least capacity of all cuts.
mod brute;
mod random;
mod table;
mod textbook;
mod trial;

use crate::random::{Generator, random_network};
use crate::textbook::EXAMPLES;
use crate::trial::{Verdict, tried};
use std::io;

const RANDOM: usize = 400;

fn main(rt: HostRuntime) -> io::Result<()> {
    for (number, example) in EXAMPLES.iter().enumerate() {
        match tried(&example.table()) {
            Verdict::Agrees(value) => println!(rt;
                "textbook {number}: value {value}, as the least cut"
            )?,
            Verdict::Refused => println!(rt; "textbook {number}: unbounded, as every cut")?,
            Verdict::Differs => println!(rt; "textbook {number}: DIFFERS")?,
        }
    }
    let mut generator = Generator::new();
    let mut agree = 0u32;
    let mut refused = 0u32;
    let mut differ = 0u32;
    for _ in 0..RANDOM {
        match tried(&random_network(&mut generator)) {
            Verdict::Agrees(_) => agree = agree.saturating_add(1),
            Verdict::Refused => refused = refused.saturating_add(1),
            Verdict::Differs => differ = differ.saturating_add(1),
        }
    }
    println!(rt; "random: {agree} values as the least cut, {refused} unbounded, {differ} differ")
}
