ghost use Rattle.std.specs.Prelude.{◌≡◌};
ghost use Rattle.rows.specs.Seen.{cell_of, seen};

use crate::fault::{RowCause, RowFault};
use crate::row::ReadRow;
use std::fmt;

// What can be seen of a slot.
#[derive(Clone, Copy, PartialEq, Eq, Debug)]
pub enum Cell {
    // out of reach, or not there
    Hidden,
    Empty,
    Condemned,
    // so many bytes
    Holds(usize),
}

// What a read into a buffer that is long enough tells of a slot.
impl From<Result<usize, RowFault>> for Cell {
    ghost from_gives = { λ answer cell. cell ≡ cell_of answer };

    fn from(answer: Result<usize, RowFault>) -> Cell {
        match answer {
            Ok(n) => Cell::Holds(n),
            Err(fault) => match fault.cause {
                RowCause::Condemned => Cell::Condemned,
                RowCause::Empty => Cell::Empty,
                _ => Cell::Hidden,
            },
        }
    }
}

// `-` where the slot is empty, nothing where it cannot be seen, `condemned`, or how many bytes it holds.
impl fmt::Display for Cell {
    fn fmt<W: fmt::Write>(&self, f: &mut fmt::Formatter<W>) -> fmt::Result {
        match *self {
            Cell::Hidden => f.pad(""),
            Cell::Empty => f.pad("-"),
            Cell::Condemned => f.pad("condemned"),
            Cell::Holds(n) => n.fmt(f),
        }
    }
}

// What can be seen of a slot; changes nothing and refuses nothing.
pub fn seen_at<R: ReadRow>(row: &R, cabinet: usize, file: usize) -> Cell
    ensures { result ≡ seen (R.ReadRow.model row.now) cabinet file }
{
    let mut buffer = [0u8; 6400];
    Cell::from(row.read(cabinet, file, &mut buffer))
}

// A table of a row, cabinets against files. `{table}` writes a line for each cabinet: whether it is in reach, and if it is,
// for each file `-` where the slot is empty, `condemned`, or how many bytes it holds.
#[derive(Drop)]
pub struct Table<'a, R> {
    row: &'a R,
}

impl<'a, R: ReadRow> Table<'a, R> {
    // A table of the row, which it reads as often as it is written out.
    pub fn new(row: &'a R) -> Self
        ensures { result.row.now ≡ row.now }
    {
        Table { row }
    }
}

fn write_line<R: ReadRow, W: fmt::Write>(
    row: &R,
    cabinet: usize,
    f: &mut fmt::Formatter<W>,
) -> fmt::Result {
    write!(f, "{cabinet:>7}")?;
    match row.reach(cabinet) {
        Ok(true) => write!(f, "  in reach")?,
        _ => return writeln!(f, "  away"),
    }
    for file in 0..8usize {
        let cell = seen_at(row, cabinet, file);
        write!(f, "{cell:>10}")?;
    }
    writeln!(f)
}

impl<R: ReadRow> fmt::Display for Table<'_, R> {
    fn fmt<W: fmt::Write>(&self, f: &mut fmt::Formatter<W>) -> fmt::Result {
        write!(f, "cabinet  reach   ")?;
        for file in 0..8usize {
            write!(f, "    file {file}")?;
        }
        writeln!(f)?;
        for cabinet in 0..self.row.count() {
            write_line(self.row, cabinet, f)?;
        }
        Ok(())
    }
}
