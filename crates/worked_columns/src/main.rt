// The worked columns of docs/FORMATS.md: what a cabinet stores for each, by a cut of a package that begins with it.
#![tactic(auto)]

use algebra::Field;
use erasure::{Plan, SliceFault, cut};
use gf256::Gf256;
use gf65537::Gf65537;
use owned::Hex;
use std::{array, fmt, io};

// A column, its bytes in a package, and what a cabinet stores for it.
#[derive(Clone, Copy)]
struct Worked {
    k: usize,
    column: &'static str,
    bytes: &'static [u8],
    cabinet: usize,
    stored: &'static [u8],
}

// What the cabinet stores a number for.
impl fmt::Display for Worked {
    fn fmt<W: fmt::Write>(&self, f: &mut fmt::Formatter<W>) -> fmt::Result {
        let Worked {
            k,
            column,
            cabinet,
            ..
        } = *self;
        write!(f, "{k}  {column:7}  {cabinet:7}")
    }
}

const IN_GF256: [Worked; 2] = [
    Worked {
        k: 2,
        column: "128, 0",
        bytes: &[128, 0],
        cabinet: 2,
        stored: &[157],
    },
    Worked {
        k: 3,
        column: "1, 2, 3",
        bytes: &[1, 2, 3],
        cabinet: 3,
        stored: &[0],
    },
];

const IN_GF65537: [Worked; 2] = [
    Worked {
        k: 2,
        column: "1, 0",
        bytes: &[1, 0, 0, 0],
        cabinet: 2,
        stored: &[0, 0, 1],
    },
    Worked {
        k: 3,
        column: "1, 2, 3",
        bytes: &[1, 0, 2, 0, 3, 0],
        cabinet: 3,
        stored: &[4, 0, 0],
    },
];

fn refused(_fault: SliceFault) -> io::Error {
    io::Error::other("a package was not cut")
}

// Prints the first symbol of the cabinet's record, as it is stored, and whether it is what it ought to be.
fn stored<F: Field>(rt: &HostRuntime, name: &str, worked: &Worked) -> io::Result<()> {
    let plan = Plan::new(worked.k, 16).map_err(refused)?;
    // the shortest package that begins with these bytes and has zeros behind them
    let package: [u8; 48] = array::from_fn(|i| worked.bytes.get(i).copied().unwrap_or(0));
    let mut record = [0u8; 48];
    cut::<F>(&plan, &package, worked.cabinet, 1, &mut record).map_err(refused)?;
    let symbol = &record[6..6 + F::stored_width().min(3)];
    let shown = Hex(symbol);
    let verdict = if symbol == worked.stored {
        "ok"
    } else {
        "WRONG"
    };
    println!(rt; "  {name:9}  {worked}  {shown}  {verdict}")
}

fn all_stored<F: Field>(rt: &HostRuntime, name: &str, columns: &[Worked]) -> io::Result<()> {
    for worked in columns {
        stored::<F>(rt, name, worked)?;
    }
    Ok(())
}

fn main(rt: HostRuntime) -> io::Result<()> {
    println!(rt; "field        k  column   cabinet  stored")?;
    all_stored::<Gf256>(&rt, "GF(256)", &IN_GF256)?;
    all_stored::<Gf65537>(&rt, "GF(65537)", &IN_GF65537)
}
