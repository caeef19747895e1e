// A bay map sealed and unsealed, and the lines that say so.
ghost use Rattle.std.specs.Prelude.{◌≡◌, length, replicate, IfOk};
ghost use Rattle.aont.specs.Package.{sealed};
ghost use Rattle.aont.specs.Seals.{seal_answer};
ghost use Rattle.owned.specs.Fronts.{Gives, front_of_zeros};

use aont::SealFault;
use cipher::Cipher;
use owned::LONGEST_PACKAGE;
use std::alloc::AllocError;
use std::io;

// A demonstration's key is fixed, so that its output is; a controller draws a fresh one for each sealing.
pub const KEY: [u8; 16] = *b"a key drawn once";

// Prints what was done, to what, and how many bytes that is; it does nothing else.
pub fn report(rt: &impl Print, action: &str, what: &str, bytes: usize) -> io::Result<()> {
    println!(rt; "  {action:<7} {what:<44} {bytes:>5} bytes")
}

// The package of a bay map, under a key that nobody keeps, or why the file is not sealed.
pub fn sealed<C: Cipher>(
    rt: &impl AllocGlobal,
    file: &[u8],
) -> Result<Result<Vec<u8>, SealFault>, AllocError>
    ensures { IfOk result (Gives (front_of_zeros (seal_answer (length file.now) 16 4128) (sealed C.Cipher.encrypted C.Cipher.number KEY file.now) 4128)) }
{
    owned::seal::<C>(rt.alloc(), &KEY, file)
}

// Prints why a bay map was not sealed, and gives as many zeros as the longest package has bytes, to go on with.
pub fn blank_package(rt: &(impl Print + AllocGlobal), fault: SealFault) -> anyhow::Result<Vec<u8>>
    ensures { IfOk result (λ v. v.items ≡ replicate 4128 0) }
{
    let blank = vec![in rt.alloc(); 0u8; LONGEST_PACKAGE]?;
    println!(rt; "  seal    {fault}")?;
    Ok(blank)
}

// Unseals a package and prints what came of it: the file again, another one, or a refusal. It does nothing else.
pub fn try_unseal<C: Cipher>(
    rt: &(impl Print + AllocGlobal),
    what: &str,
    package: &[u8],
    file: &[u8],
) -> io::Result<()> {
    match owned::unseal::<C>(rt.alloc(), package)? {
        Ok(found) => {
            let bytes = found.len();
            let verdict = if found.as_slice() == file {
                "the bay map again"
            } else {
                "ANOTHER FILE"
            };
            println!(rt; "  unseal  {what:<44} {bytes:>5} bytes: {verdict}")
        }
        Err(fault) => println!(rt; "  unseal  {what:<44} {fault}"),
    }
}

// The same for a caller that answers an anyhow error: where memory runs out it says so in the allocator's words, not in those of an
// io error. The text stands twice: as one, generic in the error, it took the programs more instructions.
pub fn try_unseal_anyhow<C: Cipher>(
    rt: &(impl Print + AllocGlobal),
    what: &str,
    package: &[u8],
    file: &[u8],
) -> anyhow::Result<()> {
    match owned::unseal::<C>(rt.alloc(), package)? {
        Ok(found) => {
            let bytes = found.len();
            let verdict = if found.as_slice() == file {
                "the bay map again"
            } else {
                "ANOTHER FILE"
            };
            println!(rt; "  unseal  {what:<44} {bytes:>5} bytes: {verdict}")?;
        }
        Err(fault) => println!(rt; "  unseal  {what:<44} {fault}")?,
    }
    Ok(())
}
