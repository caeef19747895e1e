// A sealed bay map cut for five cabinets, of which any three restore it, and kept on a shelf of them through losses.
use crate::restoring::{mend, restore};
use anyhow::Error;
use bay_map::{Garage, ROOM, SHELF};
use rows::row::Row;
use shelf::Shelf;

// Loses two cabinets' records, which the plan allows, and then a third.
fn lose<R: Row + Drop>(rt: &HostRuntime, garage: &mut Garage<R>) -> anyhow::Result<()> {
    garage.lose_two(rt)?;
    garage.print_table(rt)?;
    println!(rt; "\nThe bay map from the three that are left")?;
    restore(rt, garage)?;
    println!(rt; "\nCabinet 0 is pulled too: two are not enough")?;
    garage.cabinets.pull(0).map_err(Error::msg)?;
    restore(rt, garage)
}

// Rebuilds the record of cabinet 4, so that another cabinet may be lost.
fn repair<R: Row + Drop>(rt: &HostRuntime, garage: &mut Garage<R>) -> anyhow::Result<()> {
    println!(rt; "\nCabinet 0 is plugged in again, and the record of cabinet 4 is rebuilt")?;
    garage.cabinets.plug(0).map_err(Error::msg)?;
    mend(rt, garage, 4)?;
    println!(rt; "\nThe shelf again")?;
    garage.print_table(rt)?;
    println!(rt; "\nCabinet 0 is pulled once more: now three are left")?;
    garage.cabinets.pull(0).map_err(Error::msg)?;
    restore(rt, garage)
}

pub fn show(rt: &HostRuntime, file: Vec<u8>) -> anyhow::Result<()> {
    println!(rt; "Cut for 5 cabinets, any 3 of which restore it, over GF(256)")?;
    let mut memory = vec![in rt.alloc(); 0u8; SHELF]?;
    let shelf = Shelf::new(memory.as_mut_slice(), ROOM);
    let mut garage = Garage::stocked_past_refusals(rt, file, shelf)?;
    lose(rt, &mut garage)?;
    repair(rt, &mut garage)
}
