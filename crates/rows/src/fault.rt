ghost use Rattle.std.specs.Prelude.{◌≡◌, ℕ};
ghost use Rattle.rows.specs.Faults.{cabinet_fault, row_number, slot_fault};

use std::fmt;

// Why a row refuses a call, each cause with its number.
#[derive(Clone, Copy, PartialEq, Eq, Debug)]
pub enum RowCause {
    // the row has no such cabinet
    NoCabinet = 1,
    // the files are 0 to 7
    NoFile = 2,
    OutOfReach = 3,
    Condemned = 4,
    Empty = 5,
    // no bytes to write, or more than the room
    SizeMisfit = 6,
    // the buffer is shorter than what the slot holds
    BufferShort = 7,
}

// Why a layer refuses a call.
pub trait Cause: Copy {
    // the number of the cause
    ghost number_of: { Self → ℕ };

    // the layer that refused
    ghost layer_of: { Self → ℕ };

    // The number of the cause.
    fn number(self) -> u16
        ensures { result ≡ number_of self };

    // The layer that refused: 1 rows, 2 slices, 3 sealing, 4 the site.
    fn layer(self) -> u8
        ensures { result ≡ layer_of self };
}

// A refusal: its cause, and the cabinet and the file that the call named, if it named any. Slices and sealing know no rows and name
// less: their refusals are types of their own.
#[derive(Clone, Copy, PartialEq, Eq, Debug)]
pub struct Fault<C> {
    pub cause: C,
    pub cabinet: Option<usize>,
    pub file: Option<usize>,
}

// A refusal of a row.
pub type RowFault = Fault<RowCause>;

// Rows are layer 1.
impl Cause for RowCause {
    ghost number_of = { row_number };

    ghost layer_of = { λ c. 1 };

    fn number(self) -> u16 {
        self as u16
    }

    fn layer(self) -> u8 {
        1
    }
}

impl<C> Fault<C> {
    // A refusal of a call that names a cabinet.
    pub fn of_cabinet(cause: C, cabinet: usize) -> Self
        ensures { result ≡ cabinet_fault cause cabinet }
    {
        Fault {
            cause,
            cabinet: Some(cabinet),
            file: None,
        }
    }

    // A refusal of a call that names a cabinet and a file.
    pub fn of_slot(cause: C, cabinet: usize, file: usize) -> Self
        ensures { result ≡ slot_fault cause cabinet file }
    {
        Fault {
            cause,
            cabinet: Some(cabinet),
            file: Some(file),
        }
    }
}

impl<C: Cause> Fault<C> {
    // The number of the refusal, that of its cause.
    pub fn number(self) -> u16
        ensures { result ≡ C.number_of self.cause }
    {
        self.cause.number()
    }

    // The layer that refused.
    pub fn layer(self) -> u8
        ensures { result ≡ C.layer_of self.cause }
    {
        self.cause.layer()
    }
}

impl fmt::Display for RowCause {
    fn fmt<W: fmt::Write>(&self, f: &mut fmt::Formatter<W>) -> fmt::Result {
        f.write_str(match self {
            RowCause::NoCabinet => "the row has no such cabinet",
            RowCause::NoFile => "there is no such file",
            RowCause::OutOfReach => "the cabinet is out of reach",
            RowCause::Condemned => "the slot is condemned",
            RowCause::Empty => "the slot is empty",
            RowCause::SizeMisfit => "there are no bytes to write, or more than the room",
            RowCause::BufferShort => "the buffer is shorter than what the slot holds",
        })
    }
}

impl<C: Cause + fmt::Display> fmt::Display for Fault<C> {
    fn fmt<W: fmt::Write>(&self, f: &mut fmt::Formatter<W>) -> fmt::Result {
        let number = self.number();
        let cause = self.cause;
        write!(f, "refused {number}")?;
        if let Some(cabinet) = self.cabinet {
            write!(f, ", cabinet {cabinet}")?;
        }
        if let Some(file) = self.file {
            write!(f, ", file {file}")?;
        }
        write!(f, ": {cause}")
    }
}
