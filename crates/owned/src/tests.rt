use super::*;
use aes128::Aes128;
use gf256::Gf256;
use std::test::Fail;

// With memory left each call succeeds: of five cabinets' records three restore the package, its file and a fourth record.
#[test]
fn gives_and_takes_back(rt: HostRuntime) -> Result<(), Fail> {
    let alloc = rt.alloc();
    let file = b"bay 7: signs";
    let package = seal::<Aes128>(alloc, b"a key drawn once", file)??;
    assert_eq!(rt; package.len(), 48);
    let plan = Plan::new(3, 5)?;
    let mut found = Found::new(alloc, plan, 48);
    for position in 0..3u8 {
        assert!(rt; !found.is_enough());
        let record = cut::<Gf256>(alloc, &plan, package.as_slice(), usize::from(position), 1)??;
        found.add(position, record.as_slice())?;
    }
    assert!(rt; found.is_enough());
    let joined = found.join::<Gf256>(alloc)??;
    assert_eq!(rt; joined.as_slice(), package.as_slice());
    let rebuilt = found.rebuild::<Gf256>(alloc, 4)??;
    let record = cut::<Gf256>(alloc, &plan, package.as_slice(), 4, 1)??;
    assert_eq!(rt; rebuilt.as_slice(), record.as_slice());
    let back = unseal::<Aes128>(alloc, joined.as_slice())??;
    assert_eq!(rt; back.as_slice(), file.as_slice());
    Ok(())
}
