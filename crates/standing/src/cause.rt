ghost use Rattle.std.specs.Prelude.{◌≡◌, true};
ghost use Rattle.standing.specs.Unread.{unread_cause};
ghost use Rattle.standing.specs.Standing.{cause_of, is_due, slot_cause};

use erasure::Head;
use rows::fault::{RowCause, RowFault};
use rows::row::ReadRow;

// Why a cabinet does not stand for a file.
#[derive(Clone, Copy, PartialEq, Eq, Debug)]
pub enum Cause {
    // out of reach, or the row lacks it
    Away,
    Condemned,
    Empty,
    // the slot holds another record than the one that is due
    Old,
}

// Whether a record is the one that is due: its length is, and its head.
fn is_due(due: Head, bytes: &[u8]) -> bool
    ensures { result ≡ is_due due bytes.now }
{
    bytes.len() == usize::from(due.whole) && Head::read(bytes) == due
}

// Whether a cabinet is in reach; one that the row lacks never is.
pub fn in_reach<R: ReadRow>(row: &R, cabinet: usize) -> bool
    ensures { result ≡ (R.ReadRow.model row.now).reach cabinet }
{
    row.reach(cabinet).unwrap_or(false)
}

// Why a slot that could not be read does not make its cabinet stand.
impl From<RowFault> for Cause {
    ghost from_gives = { λ fault cause. cause ≡ unread_cause fault.cause };

    fn from(fault: RowFault) -> Cause {
        match fault.cause {
            RowCause::Condemned => Cause::Condemned,
            _ => Cause::Empty,
        }
    }
}

// The same of any slot of a cabinet in reach. No slot holds more bytes than there are here to read it.
fn slot_cause<R: ReadRow>(row: &R, cabinet: usize, file: usize, due: Head) -> Option<Cause>
    requires { (R.ReadRow.model row.now).reach cabinet ≡ true }
    ensures { result ≡ slot_cause due ((R.ReadRow.model row.now).slot cabinet file) }
{
    let mut bytes = [0u8; 6400];
    match row.read(cabinet, file, &mut bytes) {
        Ok(n) => {
            if is_due(due, &bytes[0..n]) {
                None
            } else {
                Some(Cause::Old)
            }
        }
        Err(fault) => Some(Cause::from(fault)),
    }
}

// Why a cabinet does not stand for a file whose record is due, or nothing where it stands.
pub fn cause_at<R: ReadRow>(row: &R, cabinet: usize, file: usize, due: Head) -> Option<Cause>
    ensures { result ≡ cause_of (R.ReadRow.model row.now) due file cabinet }
{
    if !in_reach(row, cabinet) {
        return Some(Cause::Away);
    }
    slot_cause(row, cabinet, file, due)
}
