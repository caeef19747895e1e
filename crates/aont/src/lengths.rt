// How long a package is, before it is made.
ghost use Rattle.std.specs.Prelude.{◌≡◌, length};
ghost use Rattle.aont.specs.Package.{package_length};
ghost use Rattle.aont.specs.Seals.{seal_answer};

use crate::fault::SealFault;

// Bytes that the longest file has.
pub const LONGEST_FILE: usize = 4092;

// The length of the package of a file of so many bytes.
pub fn length_of_package(size: u16) -> usize
    ensures { result ≡ package_length size }
{
    16 * ((usize::from(size) + 19) / 16) + 32
}

// The length of the package that a file would be sealed to under a key, or the refusal that sealing it would meet before it looks
// at the output: the file is too long, or the key has not sixteen bytes.
pub fn sealed_length(key: &[u8], file: &[u8]) -> Result<usize, SealFault>
    ensures { result ≡ seal_answer (length file.now) (length key.now) (package_length (length file.now)) }
{
    if file.len() > LONGEST_FILE {
        return Err(SealFault::FileTooLong);
    }
    if key.len() != 16 {
        return Err(SealFault::KeyNotSixteen);
    }
    Ok(length_of_package(file.len() as u16))
}
