// A sealed bay map cut for five cabinets, of which any three are to restore it, and written to a shelf of them.
use bay_map::{Garage, ROOM, SHELF};
use shelf::Shelf;

pub fn show(rt: &HostRuntime, file: Vec<u8>) -> anyhow::Result<()> {
    println!(rt; "\nCut for 5 cabinets, any 3 of which restore it, over GF(256)")?;
    let mut memory = vec![in rt.alloc(); 0u8; SHELF]?;
    let shelf = Shelf::new(memory.as_mut_slice(), ROOM);
    let mut garage = Garage::stocked_past_refusals(rt, file, shelf)?;
    garage.lose_two(rt)?;
    println!(rt; "")?;
    garage.print_table(rt)?;
    Ok(())
}
