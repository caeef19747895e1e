ghost use Rattle.std.specs.Prelude.{◌≡◌};
ghost use Rattle.site.specs.declared.fault.SiteCause.TheVariants.{Row, Slice, Seal};
ghost use Rattle.site.specs.Faults.{site_layer, site_number};

use aont::SealFault;
use erasure::SliceFault;
use rows::fault::{Cause, Fault, RowFault};
use standing::Absent;

// Why a site refuses a call. A fault of a lower layer is inside, whole.
#[derive(Clone, Copy, PartialEq, Eq, Debug)]
pub enum SiteCause {
    Row(RowFault),
    Slice(SliceFault),
    Seal(SealFault),
    // fewer than k cabinets are in reach, or stand for the file: the others, each in the set of its cause
    TooFew(Absent),
    // no such cabinet is fitted
    NoCabinet,
    // a record of the file is longer than the room
    RoomShort,
    // the files are 0 to 7
    NoFile,
    // the issue is not above the last, which is told
    IssueOld(u16),
    NotCurrent,
    // a buffer of the working memory has fewer than 6,400 bytes
    MemoryShort,
    // the output is shorter than the file
    OutputShort,
    // the cabinet's mark is not open
    MarkClosed,
}

// A refusal of a site.
pub type SiteFault = Fault<SiteCause>;

impl From<RowFault> for SiteCause {
    ghost from_gives = { λ f s. s ≡ Row f };

    fn from(fault: RowFault) -> SiteCause {
        SiteCause::Row(fault)
    }
}

impl From<SliceFault> for SiteCause {
    ghost from_gives = { λ f s. s ≡ Slice f };

    fn from(fault: SliceFault) -> SiteCause {
        SiteCause::Slice(fault)
    }
}

impl From<SealFault> for SiteCause {
    ghost from_gives = { λ f s. s ≡ Seal f };

    fn from(fault: SealFault) -> SiteCause {
        SiteCause::Seal(fault)
    }
}

// A fault of a lower layer keeps its own number and layer: 1 rows, 2 slices, 3 sealing, 4 the site.
impl Cause for SiteCause {
    ghost number_of = { site_number };

    ghost layer_of = { site_layer };

    fn number(self) -> u16 {
        match self {
            SiteCause::Row(fault) => fault.number(),
            SiteCause::Slice(fault) => fault.number(),
            SiteCause::Seal(fault) => fault.number(),
            SiteCause::TooFew(_) => 8,
            SiteCause::NoCabinet => 9,
            SiteCause::RoomShort => 10,
            SiteCause::NoFile => 19,
            SiteCause::IssueOld(_) => 20,
            SiteCause::NotCurrent => 21,
            SiteCause::MemoryShort => 22,
            SiteCause::OutputShort => 23,
            SiteCause::MarkClosed => 24,
        }
    }

    fn layer(self) -> u8 {
        match self {
            SiteCause::Row(fault) => fault.layer(),
            SiteCause::Slice(fault) => fault.layer(),
            SiteCause::Seal(fault) => fault.layer(),
            _ => 4,
        }
    }
}
