// A state as four words, one for each column, with row 0 in the lowest byte.
ghost use Rattle.std.specs.Prelude.{◌≡◌, ◌<◌, ◌≤◌, map, slice_index};
ghost use Rattle.std.specs.List.{range_with_len};
ghost use Rattle.cipher.specs.Blocks.{xor};
ghost use Rattle.aes128.specs.Aes.{round, last_round, next_key};
ghost use Rattle.aes128.specs.Columns.{byte_in, state_of, shifted, word_at};

use crate::tables::{mixed_column, substituted};
use std::array;

#[derive(Clone, Copy)]
pub struct Columns([u32; 4]);

// The word of the four bytes from a place on.
fn word_at(bytes: &[u8; 16], at: usize) -> u32
    requires { at ≤ 12 }
    ensures { result ≡ word_at bytes.now at }
{
    u32::from_le_bytes(array::from_fn(|row| bytes[at + row]))
}

impl From<&[u8; 16]> for Columns {
    ghost from_gives = { λ bytes columns. state_of columns ≡ bytes.now };

    fn from(bytes: &[u8; 16]) -> Columns {
        Columns(array::from_fn(|c| word_at(bytes, 4 * c)))
    }
}

// The sixteen bytes, column by column.
impl From<Columns> for [u8; 16] {
    ghost from_gives = { λ columns bytes. bytes ≡ state_of columns };

    fn from(columns: Columns) -> [u8; 16] {
        array::from_fn(|i| columns.at(i % 4, i / 4))
    }
}

impl Columns {
    // The byte in a row and a column.
    fn at(&self, row: usize, column: usize) -> u8
        requires row { row < 4 }
        requires column { column < 4 }
        ensures { result ≡ byte_in (slice_index self.now.0 column) row }
    {
        self.0[column].to_le_bytes()[row]
    }

    // The bytes that ShiftRows puts into a column.
    fn shifted(&self, column: usize) -> [u8; 4]
        requires { column < 4 }
        ensures { result ≡ map (shifted self.now.0 column) (range_with_len 0 4) }
    {
        array::from_fn(|row| self.at(row, (column + row) % 4))
    }

    // AddRoundKey.
    pub fn with_round_key(&self, key: &Columns) -> Columns
        ensures { state_of result ≡ xor (state_of self.now) (state_of key.now) }
    {
        Columns(array::from_fn(|c| self.0[c] ^ key.0[c]))
    }

    pub fn after_round(&self, key: &Columns) -> Columns
        ensures { state_of result ≡ round (state_of key.now) (state_of self.now) }
    {
        Columns(array::from_fn(|c| mixed_column(self.shifted(c), key.0[c])))
    }

    pub fn after_last_round(&self, key: &Columns) -> Columns
        ensures { state_of result ≡ last_round (state_of key.now) (state_of self.now) }
    {
        Columns(array::from_fn(|c| substituted(self.shifted(c)) ^ key.0[c]))
    }

    // The round key after this one, with its round constant.
    pub fn next_key(&self, constant: u8) -> Columns
        ensures { state_of result ≡ next_key constant (state_of self.now) }
    {
        let [a, b, c, d] = self.0[3].to_le_bytes();
        let mut before = substituted([b, c, d, a]) ^ u32::from(constant);
        let mut words = self.0;
        for word in words.iter_mut() {
            *word = *word ^ before;
            before = *word;
        }
        Columns(words)
    }
}
