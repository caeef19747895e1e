// A block cipher behind one interface. Its meaning, and its answer, is a function E from a 16-byte key and a 16-byte
// block to a 16-byte block. A value of the type is a key whose schedule has been worked out, once for many blocks.
#![tactic(auto)]

ghost use Rattle.std.specs.Prelude.{◌≡◌, ℕ, List};
ghost use Rattle.cipher.specs.Blocks.{CipherLaws, xor};

use std::array;

pub trait Cipher: Sized + Drop {
    // the number that a sealed file carries; clauses know it as `number`
    const NUMBER: u16;

    ghost number: { ℕ };

    // E, from key and block to block
    ghost encrypted: { List ℕ → List ℕ → List ℕ };

    // the key that a schedule was worked out from
    ghost key: { Self → List ℕ };

    fn cipher_number() -> u16
        ensures { result ≡ number };

    // Works the key's schedule out.
    fn with_key(bytes: &[u8; 16]) -> Self
        ensures { key result ≡ bytes.now };

    // E of this key and the block.
    fn encrypt(&self, block: &[u8; 16]) -> [u8; 16]
        ensures { result ≡ encrypted (key self.now) block.now };

    ghost lawful: { CipherLaws number encrypted };
}

// The exclusive or of two blocks.
pub fn xor16(a: &[u8; 16], b: &[u8; 16]) -> [u8; 16]
    ensures { result ≡ xor a.now b.now }
{
    array::from_fn(|i| a[i] ^ b[i])
}
