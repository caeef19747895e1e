// For programs. Sealing, cutting and joining where there is a heap: what a call writes comes as a vector of its own, as long as it
// needs to be, beside the call's refusal, and a call fails besides only where memory does. And without a heap: bytes as hex text,
// and a file to try the calls on.
#![tactic(auto, using(crate::proofs::FrontsLemmas::front_written))]

ghost use Rattle.std.specs.Prelude.{◌≡◌, ℕ, ◌*◌, ◌%◌, ◌<◌, IfOk, length, slice_index};
ghost use Rattle.aont.specs.Package.{sealed};
ghost use Rattle.aont.specs.Seals.{seal_answer, unseal_answer, unsealed};
ghost use Rattle.erasure.specs.Formula.{record_of};
ghost use Rattle.erasure.specs.Whole.{coding_of};
ghost use Rattle.erasure.specs.Slices.{cut_answer};
ghost use Rattle.owned.specs.Fronts.{front, front_of_zeros, Gives};

mod found;
#[cfg(test)]
mod tests;

pub use crate::found::Found;
use algebra::Field;
pub use aont::LONGEST_FILE;
use aont::SealFault;
use cipher::Cipher;
use erasure::{Plan, SliceFault};
use std::alloc::{AllocError, Global};
use std::{array, fmt};

// No package is longer.
pub const LONGEST_PACKAGE: usize = 4128;

// No record is longer: that of the longest package whole, in GF(65537).
const LONGEST_RECORD: usize = 6198;

// As much of an output's front as a call answered that it wrote, or the call's refusal. It takes what the call left, and not the
// call as a closure, since then the call's own promises do not reach the proofs of those that pass it.
pub fn front<E>(
    alloc: Global,
    output: &[u8],
    answer: Result<usize, E>,
) -> Result<Result<Vec<u8>, E>, AllocError>
    ensures { IfOk result (Gives (front answer output.now)) }
{
    match answer {
        Ok(written) => Ok(Ok(output[..written.min(output.len())].to_vec(alloc)?)),
        Err(fault) => Ok(Err(fault)),
    }
}

// The package of a file under a key.
pub fn seal<C: Cipher>(
    alloc: Global,
    key: &[u8],
    file: &[u8],
) -> Result<Result<Vec<u8>, SealFault>, AllocError>
    ensures { IfOk result (Gives (front_of_zeros (seal_answer (length file.now) (length key.now) 4128) (sealed C.Cipher.encrypted C.Cipher.number key.now file.now) 4128)) }
{
    let mut output = [0u8; LONGEST_PACKAGE];
    let answer = aont::seal::<C>(key, file, &mut output);
    front(alloc, &output, answer)
}

// The file of a package.
pub fn unseal<C: Cipher>(
    alloc: Global,
    package: &[u8],
) -> Result<Result<Vec<u8>, SealFault>, AllocError>
    ensures { IfOk result (Gives (front_of_zeros (unseal_answer C.Cipher.encrypted C.Cipher.number «package».now 4128) (unsealed C.Cipher.encrypted C.Cipher.number «package».now) 4128)) }
{
    let mut output = [0u8; LONGEST_PACKAGE];
    let answer = aont::unseal::<C>(package, &mut output);
    front(alloc, &output, answer)
}

// The record that a cabinet keeps of a package.
pub fn cut<F: Field>(
    alloc: Global,
    plan: &Plan,
    package: &[u8],
    cabinet: usize,
    issue: u16,
) -> Result<Result<Vec<u8>, SliceFault>, AllocError>
    ensures { IfOk result (Gives (front_of_zeros (cut_answer (coding_of F.Field plan.now) plan.now.n (length «package».now) cabinet issue 6198) (record_of (coding_of F.Field plan.now) «package».now cabinet issue) 6198)) }
{
    let mut output = [0u8; LONGEST_RECORD];
    let answer = erasure::cut::<F>(plan, package, cabinet, issue, &mut output);
    front(alloc, &output, answer)
}

// Shows bytes as hex text, two digits to a byte, with no memory of its own.
#[derive(Clone, Copy)]
pub struct Hex<'a>(pub &'a [u8]);

impl fmt::Display for Hex<'_> {
    fn fmt<W: fmt::Write>(&self, f: &mut fmt::Formatter<W>) -> fmt::Result {
        for byte in self.0 {
            write!(f, "{byte:02x}")?;
        }
        Ok(())
    }
}

// A file to try the calls on: as long as a file can be, and its byte i is 7 i modulo 256.
pub fn counted_file() -> [u8; LONGEST_FILE]
    ensures { (i : ℕ) → i < 4092 → slice_index result i ≡ 7 * i % 256 }
{
    array::from_fn(|i| (7 * i % 256) as u8)
}
