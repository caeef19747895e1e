ghost use Rattle.std.specs.Prelude.{◌≡◌, ◌+◌, ◌^◌, ◌<◌, min, if◌then◌else◌};
ghost use Rattle.standing.specs.Sets.{away_of, count_of, survey_of};

use crate::cause::{Cause, cause_at, in_reach};
use erasure::Head;
use rows::row::ReadRow;

// The cabinets that do not stand for a file, each in the set of its cause. A set is a number in which member c adds 2^c.
#[derive(Clone, Copy, PartialEq, Eq, Debug)]
pub struct Absent {
    pub away: u16,
    pub condemned: u16,
    pub empty: u16,
    pub old: u16,
}

// All fitted cabinets: those that stand for a file, and the others.
#[derive(Clone, Copy, PartialEq, Eq, Debug)]
pub struct Survey {
    pub standing: u16,
    pub absent: Absent,
}

// The survey of no cabinets.
const NONE: Survey = Survey {
    standing: 0,
    absent: Absent {
        away: 0,
        condemned: 0,
        empty: 0,
        old: 0,
    },
};

// A set of numbers below this one, with this one too or without it; 16 and above are in no set.
pub fn with_member(set: u16, member: usize, is_in: bool) -> u16
    ensures { member < 16 → set < 2 ^ member → result ≡ set + (if is_in then 2 ^ member else 0) }
{
    if is_in && member < 16 {
        set | 1 << member
    } else {
        set
    }
}

// A survey of the cabinets below this one, with this one too.
fn with_cabinet<R: ReadRow>(
    survey: Survey,
    row: &R,
    cabinet: usize,
    file: usize,
    due: Head,
) -> Survey
    requires few { cabinet < 16 }
    requires below { survey ≡ survey_of (R.ReadRow.model row.now) due file cabinet }
    ensures { result ≡ survey_of (R.ReadRow.model row.now) due file (cabinet + 1) }
{
    let cause = cause_at(row, cabinet, file, due);
    let absent = survey.absent;
    Survey {
        standing: with_member(survey.standing, cabinet, cause.is_none()),
        absent: Absent {
            away: with_member(absent.away, cabinet, cause == Some(Cause::Away)),
            condemned: with_member(absent.condemned, cabinet, cause == Some(Cause::Condemned)),
            empty: with_member(absent.empty, cabinet, cause == Some(Cause::Empty)),
            old: with_member(absent.old, cabinet, cause == Some(Cause::Old)),
        },
    }
}

// Which of the first n cabinets stand for a file whose record is due, and which do not, each under its one cause; of more
// than 16 the first 16.
pub fn survey_of<R: ReadRow>(row: &R, n: usize, file: usize, due: Head) -> Survey
    ensures { result ≡ survey_of (R.ReadRow.model row.now) due file (min n 16) }
{
    let mut survey = NONE;
    for c in 0..n.min(16) {
        survey = with_cabinet(survey, row, c, file, due);
    }
    survey
}

// Which of the first n cabinets are out of reach; of more than 16 the first 16.
pub fn away<R: ReadRow>(row: &R, n: usize) -> u16
    ensures { result ≡ away_of (R.ReadRow.model row.now) (min n 16) }
{
    // a loop as survey_of has, and no fold: a fold's closure would have to say of each set that it is below the cabinet
    let mut set = 0;
    for c in 0..n.min(16) {
        set = with_member(set, c, !in_reach(row, c));
    }
    set
}

// How many of the first n cabinets are in reach; of more than 16 the first 16.
pub fn reached<R: ReadRow>(row: &R, n: usize) -> usize
    ensures { result ≡ count_of (R.ReadRow.model row.now).reach (min n 16) }
{
    (0..n.min(16)).filter(|&c| in_reach(row, c)).count()
}
