// AES-128 behind the cipher interface. The round keys are worked out once for each key.
#![tactic(auto)]

ghost use Rattle.std.specs.Prelude.{◌≡◌, min};
ghost use Rattle.aes128.specs.Aes.{xtime, round_key, aes};
ghost use Rattle.aes128.specs.Columns.{state_of, RoundKeys};
ghost use Rattle.aes128.specs.Sizes.{aes_laws};

use cipher::Cipher;
use columns::Columns;

mod columns;
mod tables;

// A key with its eleven round keys.
#[derive(Drop)]
pub struct Aes128 {
    key: [u8; 16],
    round_keys: [Columns; 11],
    ghost scheduled: { RoundKeys key round_keys },
}

// The product by {02}.
fn double(b: u8) -> u8
    ensures { result ≡ xtime b }
{
    if b < 128 { b * 2 } else { (b - 128) * 2 ^ 0x1b }
}

// The round keys of a key.
fn schedule(key: &[u8; 16]) -> [Columns; 11]
    ensures { RoundKeys key.now result }
{
    let mut round_key = Columns::from(key);
    let mut constant = 1u8;
    let mut round_keys = [round_key; 11];
    for slot in round_keys.iter_mut() {
        *slot = round_key;
        round_key = round_key.next_key(constant);
        constant = double(constant);
    }
    round_keys
}

impl Aes128 {
    // The key of a round, where round 0 is the step before the first round. A number past 10 gets the last round's key.
    pub fn round_key(&self, round: usize) -> [u8; 16]
        ensures { result ≡ round_key self.now.key (min round 10) }
    {
        self.round_keys[round.min(10)].into()
    }

    // The state after all rounds on a block.
    fn run(&self, block: &[u8; 16]) -> Columns
        ensures { state_of result ≡ aes self.now.key block.now }
    {
        let mut state = Columns::from(block).with_round_key(&self.round_keys[0]);
        for key in &self.round_keys[1..10] {
            state = state.after_round(key);
        }
        state.after_last_round(&self.round_keys[10])
    }
}

impl Cipher for Aes128 {
    const NUMBER: u16 = 11;

    ghost number = { 11 };

    ghost encrypted = { aes };

    ghost key = { λ a. a.key };

    ghost lawful = { aes_laws };

    fn cipher_number() -> u16 {
        Self::NUMBER
    }

    fn with_key(bytes: &[u8; 16]) -> Self {
        Aes128 {
            key: *bytes,
            round_keys: schedule(bytes),
        }
    }

    fn encrypt(&self, block: &[u8; 16]) -> [u8; 16] {
        self.run(block).into()
    }
}
