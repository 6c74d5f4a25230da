#![tactic(auto)]
// Tries the cheapest and the latest starts on some hundred small projects, bare and under layers, against
// those that trying every list gives; and the check, on what they find and on that damaged in many ways,
// against its definition. Prints what came out.
mod calls;
mod checker;
mod damage;
mod least;
mod network;
mod trials;

use std::io;
use trial_projects::drawn::Spread;
use trial_projects::stacks::try_projects;
use trials::{Seen, Tally};

fn main(rt: HostRuntime) -> io::Result<()> {
    let mut tally = Tally::fresh();
    try_projects::<Tally, 128>(&mut tally, Spread::Large);
    let Tally {
        plans,
        refused,
        passed,
        rejected,
        differ,
        ..
    } = tally;
    println!(rt; "cheapest and latest lists compared: {plans}")?;
    println!(rt; "refused, as no list meets: {refused}")?;
    println!(rt; "damaged plans that the check passes: {passed}")?;
    for Seen { fault, times } in rejected {
        println!(rt; "damaged plans refused {}: {times}", fault.number())?;
    }
    println!(rt; "differences: {differ}")
}
