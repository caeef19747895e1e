// Takes a bay map through sealing, cutting and a shelf, and prints each action.
#![tactic(auto)]

mod sealing;
mod shelving;

use aes128::Aes128;
use bay_map::report;
use speck128::Speck128;
use std::fs;

fn main(rt: HostRuntime) -> anyhow::Result<()> {
    let map = fs::read(&rt, "bay-map.txt")?;
    println!(rt; "The bay map: which sensor is in which bay")?;
    report(&rt, "read", "bay-map.txt", map.len())?;
    sealing::show::<Aes128>(&rt, "Sealed with AES-128", map.as_slice())?;
    sealing::show::<Speck128>(&rt, "Sealed with Speck128/128", map.as_slice())?;
    shelving::show(&rt, map)
}
