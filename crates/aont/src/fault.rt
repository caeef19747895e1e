// The refusals of sealing and unsealing.
ghost use Rattle.std.specs.Prelude.{◌≡◌};
ghost use Rattle.aont.specs.Seals.{seal_number};

use std::fmt;

// Why a file is not sealed, or a package not unsealed, each cause with its number.
#[derive(Clone, Copy, PartialEq, Eq, Debug)]
pub enum SealFault {
    // the file has more than 4,092 bytes
    FileTooLong = 14,
    // the key has not sixteen bytes
    KeyNotSixteen = 15,
    // no package has that length: it is no multiple of 16, below 48 or above 4,128
    PackageMisfit = 16,
    // the last block under the mask is not the canary
    CanaryWrong = 17,
    // the blocks before the canary are no file's frame under this cipher
    NoSuchFile = 18,
    // the output is shorter than what is to be written
    OutputShort = 23,
}

impl SealFault {
    // The number of the refusal.
    pub fn number(self) -> u16
        ensures { result ≡ seal_number self }
    {
        self as u16
    }

    // The layer that refuses.
    pub fn layer(self) -> u8
        ensures { result ≡ 3 }
    {
        3
    }
}

// One sentence: the number and the reason.
impl fmt::Display for SealFault {
    fn fmt<W: fmt::Write>(&self, f: &mut fmt::Formatter<W>) -> fmt::Result {
        let number = self.number();
        let reason = match self {
            SealFault::FileTooLong => "the file has more than 4092 bytes",
            SealFault::KeyNotSixteen => "the key has not 16 bytes",
            SealFault::PackageMisfit => "no package has that length",
            SealFault::CanaryWrong => "the canary is wrong",
            SealFault::NoSuchFile => "the frame is no file's under this cipher",
            SealFault::OutputShort => "the output is too short",
        };
        write!(f, "refused {number}: {reason}")
    }
}
