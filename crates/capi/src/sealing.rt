// Sealing and unsealing for C.
ghost use Rattle.std.specs.Prelude.{◌≡◌, ◌^◌, ◌<◌, length, IfOk};
ghost use Rattle.capi.specs.Calls.{signed};
ghost use Rattle.capi.specs.Faults.{call_number};
ghost use Rattle.capi.specs.Sealing.{seal_call, seal_leaves, unseal_call, unseal_leaves, UnsealsExactly};

use crate::answers::{CallFault, CipherKind, in_one_number};
use aes128::Aes128;
use aont::{seal, unseal};
use speck128::Speck128;

// The match stands in each call: it names the call's own instance, and no closure is generic in a cipher.
fn seal_by(cipher: u32, key: &[u8], file: &[u8], out: &mut [u8]) -> Result<usize, CallFault>
    ensures answers { signed call_number result ≡ seal_call cipher (length key.now) (length file.now) (length out.old) }
    ensures fills { out.new ≡ seal_leaves cipher key.now file.now out.old }
    ensures small { IfOk result (λ n. n < 2 ^ 63) }
{
    let length = match CipherKind::try_from(cipher)? {
        CipherKind::Aes128 => seal::<Aes128>(key, file, out)?,
        CipherKind::Speck128 => seal::<Speck128>(key, file, out)?,
    };
    Ok(length)
}

// Seals a file under a key of sixteen bytes into the front of the output, and answers the package's length. The rest
// of the output stays as it was, and all of it on a refusal: the cipher is unknown, the file is too long, the key has
// not sixteen bytes, or the output is too short, in that order.
pub fn runnelpan_seal(cipher: u32, key: &[u8], file: &[u8], out: &mut [u8]) -> i64
    ensures answers { result ≡ seal_call cipher (length key.now) (length file.now) (length out.old) }
    ensures fills { out.new ≡ seal_leaves cipher key.now file.now out.old }
{
    in_one_number(seal_by(cipher, key, file, out))
}

fn unseal_by(cipher: u32, package: &[u8], out: &mut [u8]) -> Result<usize, CallFault>
    ensures answers { signed call_number result ≡ unseal_call cipher «package».now (length out.old) }
    ensures fills { out.new ≡ unseal_leaves cipher «package».now out.old }
    ensures exact { UnsealsExactly cipher «package».now out.old out.new }
    ensures small { IfOk result (λ n. n < 2 ^ 63) }
{
    let length = match CipherKind::try_from(cipher)? {
        CipherKind::Aes128 => unseal::<Aes128>(package, out)?,
        CipherKind::Speck128 => unseal::<Speck128>(package, out)?,
    };
    Ok(length)
}

// Unseals a package into the front of the output, and answers the file's length. The rest of the output stays as it
// was, and all of it on a refusal: the cipher is unknown, no package has that length, the canary is wrong, no file of
// this cipher has the frame, or the output is too short, in that order.
pub fn runnelpan_unseal(cipher: u32, package: &[u8], out: &mut [u8]) -> i64
    ensures answers { result ≡ unseal_call cipher «package».now (length out.old) }
    ensures fills { out.new ≡ unseal_leaves cipher «package».now out.old }
    ensures exact { UnsealsExactly cipher «package».now out.old out.new }
{
    in_one_number(unseal_by(cipher, package, out))
}
