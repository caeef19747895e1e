// A record's head: six bytes, laid out and read here.
ghost use Rattle.std.specs.Prelude.{◌≡◌};
ghost use Rattle.base.specs.Bytes.{le_value, part};
ghost use Rattle.erasure.specs.Records.{head};

use base::u16_at;

pub const HEAD_LENGTH: usize = 6;

#[derive(Clone, Copy, PartialEq, Eq, Debug)]
pub struct Head {
    // the record's whole length, this head included
    pub whole: u16,
    // the field's number
    pub number: u16,
    // which put of its file the record belongs to
    pub issue: u16,
}

// A method each way, as u16 has to_le_bytes, and no From, which would not say how the numbers are laid out.
impl Head {
    pub fn to_bytes(self) -> [u8; 6]
        ensures { result ≡ head self.whole self.number self.issue }
    {
        let [a, b] = self.whole.to_le_bytes();
        let [c, d] = self.number.to_le_bytes();
        let [e, f] = self.issue.to_le_bytes();
        [a, b, c, d, e, f]
    }

    // The head of a record; a byte that it lacks counts as 0.
    pub fn read(record: &[u8]) -> Head
        ensures whole { result.whole ≡ le_value (part «record».now 0 2) }
        ensures number { result.number ≡ le_value (part «record».now 2 2) }
        ensures issue { result.issue ≡ le_value (part «record».now 4 2) }
    {
        Head {
            whole: u16_at(record, 0),
            number: u16_at(record, 2),
            issue: u16_at(record, 4),
        }
    }
}
