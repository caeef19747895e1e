// The refusals of this layer.
ghost use Rattle.std.specs.Prelude.{◌≡◌, Err};
ghost use Rattle.erasure.specs.Slices.{slice_number, fault_of};

use std::fmt;

// Why a package is not cut, or records are not joined, each cause with its number.
#[derive(Clone, Copy, PartialEq, Eq, Debug)]
pub enum SliceCause {
    // the cabinet is not below the number of cabinets fitted
    NoCabinet = 9,
    // there are not k differing positions of fitted cabinets, with a record each of the due length, number and one issue
    RecordsMisfit = 11,
    // a stored number is no code, or what is joined is no package
    SymbolMisfit = 12,
    // no plan: not 1 ≤ k ≤ n ≤ 16
    PlanMisfit = 13,
    // no package has that length: it is no multiple of 16, below 48 or above 4,128
    PackageMisfit = 16,
    // issue 0 is none
    IssueZero = 20,
    // the output is shorter than what is to be written
    OutputShort = 23,
}

// A refusal: why, and the cabinet that the call named, if any.
#[derive(Clone, Copy, PartialEq, Eq, Debug)]
pub struct SliceFault {
    pub cause: SliceCause,
    pub cabinet: Option<usize>,
}

impl SliceFault {
    // The number of the refusal.
    pub fn number(self) -> u16
        ensures { result ≡ slice_number self.cause }
    {
        self.cause as u16
    }

    // The layer that refuses.
    pub fn layer(self) -> u8
        ensures { result ≡ 2 }
    {
        2
    }
}

// A call's refusal for a cause, with the cabinet that the call named.
pub fn refused<T>(cause: SliceCause, cabinet: Option<usize>) -> Result<T, SliceFault>
    ensures { result ≡ Err (fault_of cabinet cause) }
{
    Err(SliceFault { cause, cabinet })
}

impl fmt::Display for SliceCause {
    fn fmt<W: fmt::Write>(&self, f: &mut fmt::Formatter<W>) -> fmt::Result {
        f.write_str(match self {
            SliceCause::NoCabinet => "no such cabinet is fitted",
            SliceCause::RecordsMisfit => "these are not k records of one package",
            SliceCause::SymbolMisfit => "a stored number is no symbol of a package",
            SliceCause::PlanMisfit => "no plan: not 1 <= k <= n <= 16",
            SliceCause::PackageMisfit => "no package has that length",
            SliceCause::IssueZero => "issue 0 is none",
            SliceCause::OutputShort => "the output is too short",
        })
    }
}

// One sentence: the number, the cabinet that the call named, and the reason.
impl fmt::Display for SliceFault {
    fn fmt<W: fmt::Write>(&self, f: &mut fmt::Formatter<W>) -> fmt::Result {
        let number = self.number();
        let cause = self.cause;
        match self.cabinet {
            Some(cabinet) => write!(f, "refused {number}, cabinet {cabinet}: {cause}"),
            None => write!(f, "refused {number}: {cause}"),
        }
    }
}
