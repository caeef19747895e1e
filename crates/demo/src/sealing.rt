// A bay map sealed, unsealed, and found unreadable in any other state.
use bay_map::{blank_package, report, sealed, try_unseal_anyhow};
use cipher::Cipher;

pub fn show<C: Cipher>(rt: &HostRuntime, name: &str, file: &[u8]) -> anyhow::Result<()> {
    println!(rt; "\n{name}")?;
    let mut package = match sealed::<C>(rt, file)? {
        Ok(package) => {
            let what = "the bay map, under a key that nobody keeps";
            report(rt, "seal", what, package.len())?;
            package
        }
        Err(fault) => blank_package(rt, fault)?,
    };
    try_unseal_anyhow::<C>(rt, "the whole package", package.as_slice(), file)?;
    if let Some((front, _)) = package.as_slice().split_last_chunk::<16>() {
        try_unseal_anyhow::<C>(rt, "without its last block", front, file)?;
    }
    if let Some(byte) = package.as_mut_slice().get_mut(7) {
        *byte ^= 1;
    }
    let what = "with one bit of byte 7 turned";
    try_unseal_anyhow::<C>(rt, what, package.as_slice(), file)?;
    Ok(())
}
