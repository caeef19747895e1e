// Sealing: Rivest's package transform of a framed file, over any cipher. A sealed file, the package, can be read only
// whole: each of its bytes is needed to find the key, and the key is kept nowhere else.
#![tactic(auto)]

ghost use Rattle.std.specs.Prelude.{◌≡◌, ◌≤◌, length};
ghost use Rattle.base.specs.Answers.{leaves};
ghost use Rattle.base.specs.Bytes.{over};
ghost use Rattle.aont.specs.Package.{sealed, package_length};
ghost use Rattle.aont.specs.Seals.{seal_answer, unseal_answer, unsealed, Unseals};

use crate::blocks::{bind, block_at, mask_blocks, put};
pub use crate::fault::SealFault;
use crate::frame::lay_out;
pub use crate::lengths::{LONGEST_FILE, length_of_package, sealed_length};
use crate::opening::Opening;
use base::is_misfit;
use cipher::Cipher;

mod blocks;
pub mod fault;
mod frame;
mod lengths;
mod opening;

// Seals a file under a key that the caller draws, into the front of the output, and answers the package's length.
// The rest of the output stays as it was, and all of it on a refusal: the file is too long, the key has not sixteen
// bytes, or the output is too short, in that order.
pub fn seal<C: Cipher>(key: &[u8], file: &[u8], out: &mut [u8]) -> Result<usize, SealFault>
    ensures answers { result ≡ seal_answer (length file.now) (length key.now) (length out.old) }
    ensures fills { out.new ≡ leaves result out.old (over (sealed C.Cipher.encrypted C.Cipher.number key.now file.now) out.old) }
{
    let length = sealed_length(key, file)?;
    if out.len() < length {
        return Err(SealFault::OutputShort);
    }
    seal_into::<C>(key, file, out);
    Ok(length)
}

// Unseals a package into the front of the output, and answers the file's length. The rest of the output stays as it
// was, and all of it on a refusal: no package has that length, the canary is wrong, no file of this cipher has the
// frame, or the output is too short, in that order.
pub fn unseal<C: Cipher>(package: &[u8], out: &mut [u8]) -> Result<usize, SealFault>
    ensures answers { result ≡ unseal_answer C.Cipher.encrypted C.Cipher.number «package».now (length out.old) }
    ensures fills { out.new ≡ leaves result out.old (over (unsealed C.Cipher.encrypted C.Cipher.number «package».now) out.old) }
    ensures exact { Unseals C.Cipher.encrypted C.Cipher.number «package».now result out.old out.new }
{
    unseal_tested::<C>(package, out)
}

// Makes each test in its order, and writes after the last.
fn unseal_tested<C: Cipher>(package: &[u8], out: &mut [u8]) -> Result<usize, SealFault>
    ensures answers { result ≡ unseal_answer C.Cipher.encrypted C.Cipher.number «package».now (length out.old) }
    ensures fills { out.new ≡ leaves result out.old (over (unsealed C.Cipher.encrypted C.Cipher.number «package».now) out.old) }
{
    if is_misfit(package.len()) {
        return Err(SealFault::PackageMisfit);
    }
    let opening = Opening::<C>::of(package);
    if !opening.has_canary() {
        return Err(SealFault::CanaryWrong);
    }
    let Some(size) = opening.file_length() else {
        return Err(SealFault::NoSuchFile);
    };
    if out.len() < size {
        return Err(SealFault::OutputShort);
    }
    opening.write_file(size, out);
    Ok(size)
}

// Writes a package into the front of an output that is long enough.
fn seal_into<C: Cipher>(key: &[u8], file: &[u8], out: &mut [u8])
    requires short { length file.now ≤ 4092 }
    requires wide { length key.now ≡ 16 }
    requires room { package_length (length file.now) ≤ length out.old }
    ensures { out.new ≡ over (sealed C.Cipher.encrypted C.Cipher.number key.now file.now) out.old }
{
    let key = block_at(key, 0);
    let cipher = C::with_key(&key);
    let end = length_of_package(file.len() as u16) - 16;
    lay_out(C::cipher_number(), file, out);
    mask_blocks(&cipher, &mut out[0..end]);
    let last = bind::<C>(key, &out[0..end]);
    put(out, end, &last);
}
