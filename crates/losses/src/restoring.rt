// The bay map from the records that the cabinets still hold.
use aes128::Aes128;
use bay_map::{BAY_MAP, Garage, ROOM, report, try_unseal_anyhow};
use gf256::Gf256;
use owned::{Found, front};
use rows::row::{ReadRow, Row};

// Reads a cabinet's record, and says why where it has none that can be read.
fn read_record<R: ReadRow>(
    rt: &HostRuntime,
    cabinets: &R,
    position: u8,
    found: &mut Found,
) -> anyhow::Result<()> {
    let mut buffer = [0u8; ROOM];
    let answer = cabinets.read(usize::from(position), BAY_MAP, &mut buffer);
    match front(rt.alloc(), &buffer, answer)? {
        Ok(record) => {
            found.add(position, record.as_slice())?;
            let what = format!(in rt.alloc(); "the record of cabinet {position}")?;
            report(rt, "read", what.as_str(), record.len())?;
        }
        Err(fault) => println!(rt; "  read    {fault}")?,
    }
    Ok(())
}

// Reads the records of the first cabinets that have one, until there are as many as the plan needs.
fn read_records<R: Row + Drop>(rt: &HostRuntime, garage: &Garage<R>) -> anyhow::Result<Found> {
    let mut found = Found::new(rt.alloc(), garage.plan, garage.package.len());
    for position in 0..garage.plan.fitted().min(16) as u8 {
        if found.is_enough() {
            break;
        }
        read_record(rt, &garage.cabinets, position, &mut found)?;
    }
    Ok(found)
}

// Restores the bay map from the records that can be read.
pub fn restore<R: Row + Drop>(rt: &HostRuntime, garage: &Garage<R>) -> anyhow::Result<()> {
    let found = read_records(rt, garage)?;
    match found.join::<Gf256>(rt.alloc())? {
        Ok(package) => {
            report(rt, "join", "the package, from these records", package.len())?;
            let file = garage.file.as_slice();
            try_unseal_anyhow::<Aes128>(rt, "the joined package", package.as_slice(), file)?;
        }
        Err(fault) => println!(rt; "  join    {fault}")?,
    }
    Ok(())
}

// Rebuilds the record of a cabinet from those of others, and writes it back, or says why it cannot be rebuilt.
pub fn mend<R: Row + Drop>(
    rt: &HostRuntime,
    garage: &mut Garage<R>,
    cabinet: usize,
) -> anyhow::Result<()> {
    let found = read_records(rt, garage)?;
    match found.rebuild::<Gf256>(rt.alloc(), cabinet)? {
        Ok(record) => {
            let what = format!(in rt.alloc();
                "the record of cabinet {cabinet}, from these records"
            )?;
            report(rt, "rebuild", what.as_str(), record.len())?;
            garage.store(rt, cabinet, record.as_slice())?;
        }
        Err(fault) => println!(rt; "  rebuild {fault}")?,
    }
    Ok(())
}
