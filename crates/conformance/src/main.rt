// Packages and records of fixed files, for a second maker to make again.
#![tactic(auto)]

mod cases;
mod entry;
mod table;

use aes128::Aes128;
use cases::{CASES, LONGEST};
use gf256::Gf256;
use gf65537::Gf65537;
use speck128::Speck128;
use table::Table;

fn main(rt: HostRuntime) -> anyhow::Result<()> {
    let mut table = Table::new(&rt);
    table.entries::<Aes128, Gf256>(&CASES)?;
    table.entries::<Aes128, Gf65537>(&CASES)?;
    table.entries::<Speck128, Gf256>(&CASES)?;
    table.entries::<Speck128, Gf65537>(&CASES)?;
    table.entries::<Speck128, Gf65537>(&[LONGEST])
}
