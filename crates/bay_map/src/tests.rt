use super::*;
use aes128::Aes128;
use rows::row::ReadRow;
use shelf::Shelf;
use std::test::Fail;

// With memory left a bay map is sealed, kept and stored again.
#[test]
fn keeps_a_bay_map(rt: HostRuntime) -> Result<(), Fail> {
    let file = vec![in rt.alloc(); 7u8; 12]?;
    let package = sealed::<Aes128>(&rt, file.as_slice())??;
    assert_eq!(rt; package.len(), 48);
    try_unseal_anyhow::<Aes128>(&rt, "the package", package.as_slice(), file.as_slice())?;
    let mut memory = vec![in rt.alloc(); 0u8; SHELF]?;
    let mut garage = Garage::stocked_past_refusals(
        &rt,
        file,
        Shelf::new(memory.as_mut_slice(), ROOM),
    )?;
    garage.lose_two(&rt)?;
    garage.store(&rt, 4, package.as_slice())?;
    garage.print_table(&rt)?;
    Ok(())
}

// With memory left it goes on past a record that is longer than the room and past a file that is too long to be sealed.
#[test]
fn goes_on_past_refusals(rt: HostRuntime) -> Result<(), Fail> {
    for (bytes, sealed) in [(300, 336), (301, 352), (4093, 4128)] {
        let file = vec![in rt.alloc(); 7u8; bytes]?;
        let mut memory = vec![in rt.alloc(); 0u8; SHELF]?;
        let garage = Garage::stocked_past_refusals(
            &rt,
            file,
            Shelf::new(memory.as_mut_slice(), ROOM),
        )?;
        assert_eq!(rt; garage.package.len(), sealed);
        let mut record = [0u8; ROOM];
        let answer = garage.cabinets.read(4, BAY_MAP, &mut record);
        assert_eq!(rt; answer.is_ok(), bytes == 300);
    }
    Ok(())
}

// With memory left a package is unsealed, what fits is stocked, and the first refusal ends a stocking.
#[test]
fn stops_at_a_refusal(rt: HostRuntime) -> Result<(), Fail> {
    let package = sealed::<Aes128>(&rt, b"a bay map")??;
    assert!(rt; try_unseal::<Aes128>(&rt, "the package", package.as_slice(), b"a bay map").is_ok());
    for (bytes, expected) in [
        (12, "a package of 48"),
        (300, "a package of 336"),
        (
            301,
            "refused 6, cabinet 0, file 0: there are no bytes to write, or more than the room",
        ),
        (4093, "refused 14: the file has more than 4092 bytes"),
    ] {
        let file = vec![in rt.alloc(); 7u8; bytes]?;
        let mut memory = vec![in rt.alloc(); 0u8; SHELF]?;
        let outcome = match Garage::stocked(&rt, file, Shelf::new(memory.as_mut_slice(), ROOM)) {
            Ok(mut garage) => {
                garage.lose_two(&rt)?;
                garage.store(&rt, 4, package.as_slice())?;
                garage.print_table(&rt)?;
                format!(in rt.alloc(); "a package of {}", garage.package.len())?
            }
            Err(fault) => format!(in rt.alloc(); "{fault}")?,
        };
        assert_eq!(rt; outcome.as_str(), expected);
    }
    Ok(())
}
