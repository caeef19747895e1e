// Keeps a bay map on a shelf of five cabinets, loses some of them, and restores it, and prints each action.
#![tactic(auto)]

mod restoring;
mod shelving;

use std::fs;

fn main(rt: HostRuntime) -> anyhow::Result<()> {
    let map = fs::read(&rt, "bay-map.txt")?;
    shelving::show(&rt, map)
}
