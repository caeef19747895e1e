// Speck128/128 behind the cipher interface. The round keys are worked out once for each key.
#![tactic(auto)]

ghost use Rattle.std.specs.Prelude.{◌≡◌, ◌+◌, ◌%◌, ◌^◌, bit_xor};
ghost use Rattle.base.specs.Bytes.{le_value, part};
ghost use Rattle.speck128.specs.Schedule.{RoundKeys};
ghost use Rattle.speck128.specs.Speck.{ror, rol, rounds, start, joined, speck};
ghost use Rattle.speck128.specs.Rounds.{speck_laws};

use cipher::Cipher;
use std::array;

// A key with its 32 round keys.
#[derive(Drop)]
pub struct Speck128 {
    key: [u8; 16],
    round_keys: [u64; 32],
    ghost scheduled: { RoundKeys key round_keys },
}

// The two words that a round turns: x and y of a block, or l and k of a key.
#[derive(Clone, Copy)]
struct Pair {
    x: u64,
    y: u64,
}

// The words of a block or of a key: y and then x.
impl From<&[u8; 16]> for Pair {
    ghost from_gives = { λ bytes pair. (pair.x ≡ le_value (part bytes.now 8 8)) × (pair.y ≡ le_value (part bytes.now 0 8)) };

    fn from(bytes: &[u8; 16]) -> Pair {
        let (words, _) = bytes.as_chunks::<8>();
        Pair {
            x: u64::from_le_bytes(words[1]),
            y: u64::from_le_bytes(words[0]),
        }
    }
}

// The bytes of a block: y and then x.
impl From<Pair> for [u8; 16] {
    ghost from_gives = { λ pair bytes. bytes ≡ joined pair.y pair.x };

    fn from(pair: Pair) -> [u8; 16] {
        let words = [pair.y.to_le_bytes(), pair.x.to_le_bytes()];
        array::from_fn(|i| words[i / 8][i % 8])
    }
}

impl Pair {
    // One round with its round key. A key's words go through the same round, with the round's number.
    fn turned(self, k: u64) -> Pair
        ensures x { result.x ≡ bit_xor ((ror self.x 8 + self.y) % 2 ^ 64) k }
        ensures y { result.y ≡ bit_xor (rol self.y 3) result.x }
    {
        let x = self.x.rotate_right(8).wrapping_add(self.y) ^ k;
        let y = self.y.rotate_left(3) ^ x;
        Pair { x, y }
    }
}

// The round keys of a key.
fn schedule(key: &[u8; 16]) -> [u64; 32]
    ensures { RoundKeys key.now result }
{
    let mut words = Pair::from(key);
    let mut round_keys = [0u64; 32];
    for (i, round_key) in round_keys.iter_mut().enumerate() {
        *round_key = words.y;
        words = words.turned(i as u64);
    }
    round_keys
}

impl Speck128 {
    // A block's words after all rounds.
    fn run(&self, block: &[u8; 16]) -> Pair
        ensures x { result.x ≡ (rounds 32 (start self.now.key block.now)).x }
        ensures y { result.y ≡ (rounds 32 (start self.now.key block.now)).y }
    {
        let mut words = Pair::from(block);
        for k in &self.round_keys {
            words = words.turned(*k);
        }
        words
    }
}

impl Cipher for Speck128 {
    const NUMBER: u16 = 12;

    ghost number = { 12 };

    ghost encrypted = { speck };

    ghost key = { λ s. s.key };

    ghost lawful = { speck_laws };

    fn cipher_number() -> u16 {
        Self::NUMBER
    }

    fn with_key(bytes: &[u8; 16]) -> Self {
        Speck128 {
            key: *bytes,
            round_keys: schedule(bytes),
        }
    }

    fn encrypt(&self, block: &[u8; 16]) -> [u8; 16] {
        self.run(block).into()
    }
}
