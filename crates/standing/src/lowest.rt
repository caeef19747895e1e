ghost use Rattle.std.specs.Prelude.{◌≡◌, ◌<◌, [], ◌∷◌, ◌++◌, length, min};
ghost use Rattle.standing.specs.Standing.{stands};
ghost use Rattle.standing.specs.Sets.{lowest};

use crate::cause::cause_at;
use erasure::Head;
use rows::row::ReadRow;
use std::marker::Model;

// The lowest cabinets that stand for a file, in order: a list of 16 numbers at most, in an array, since there is no heap here. Past
// those that were found the array is zero, so that the list says all of it and the type can be copied.
#[derive(Clone, Copy)]
pub struct Lowest {
    found: usize,
    positions: [u8; 16],
}

impl Model for Lowest {
    ghost use Rattle.std.specs.Prelude.{◌≡◌, ℕ, ◌-◌, ◌≤◌, List, ◌++◌, length, take, drop, replicate};
    ghost use Rattle.standing.specs.Found.{length_back, places_back};

    ghost Value = { List ℕ };

    ghost view = { λ s. take s.found s.positions };

    ghost invariant = { λ s. (s.found ≤ 16) × (length s.positions ≡ 16) × (drop s.found s.positions ≡ replicate (16 - s.found) 0) };

    ghost inverse = { λ xs. record { found = length xs; positions = xs ++ replicate (16 - length xs) 0 } };

    ghost inverse_ok = { λ s h i. record {
      found = length_back s.found s.positions h.0 h.1 i;
      positions = places_back s.found s.positions h.0 h.1 h.2 i;
    } };
}

impl Lowest {
    fn new() -> Lowest
        ensures { result ≡ [] }
    {
        Lowest {
            found: 0,
            positions: [0; 16],
        }
    }

    // Their numbers.
    pub fn positions(&self) -> &[u8]
        ensures { result.now ≡ self.now }
    {
        &self.positions[..self.found]
    }

    fn push(&mut self, cabinet: u8)
        requires { length self.old < 16 }
        ensures { self.new ≡ self.old ++ cabinet ∷ [] }
    {
        self.positions[self.found] = cabinet;
        self.found += 1;
    }
}

// The k lowest of the first n cabinets that stand for a file whose record is due, or fewer where fewer stand; of more than 16
// cabinets the first 16.
pub fn lowest_standing<R: ReadRow>(row: &R, k: usize, n: usize, file: usize, due: Head) -> Lowest
    ensures { result ≡ lowest k (stands (R.ReadRow.model row.now) due file) (min n 16) }
{
    let mut lowest = Lowest::new();
    for c in 0..n.min(16) {
        if lowest.positions().len() < k && cause_at(row, c, file, due).is_none() {
            lowest.push(c as u8);
        }
    }
    lowest
}
