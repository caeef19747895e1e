// The transform of blocks. Blocks are numbered from 1, and i is the place of block i + 1 among them.
ghost use Rattle.std.specs.Prelude.{◌≡◌, ◌+◌, ◌*◌, ◌%◌, ◌≤◌, ◌++◌, length, take, drop};
ghost use Rattle.cipher.specs.Blocks.{xor};
ghost use Rattle.aont.specs.Package.{block, number_block, masked, bound};

use cipher::{Cipher, xor16};

// The key that the masked blocks are hashed under, which is no secret
const FIRST_KEY: [u8; 16] = [0, 1, 2, 3, 4, 5, 6, 7, 8, 9, 10, 11, 12, 13, 14, 15];

// A block's number, as a block.
fn number_block(number: usize) -> [u8; 16]
    ensures { result ≡ number_block number }
{
    (number as u128).to_le_bytes()
}

pub(crate) fn block_at(bytes: &[u8], i: usize) -> [u8; 16]
    requires { 16 * i + 16 ≤ length bytes.now }
    ensures { result ≡ block (i + 1) bytes.now }
{
    let mut r = [0u8; 16];
    r.copy_from_slice(&bytes[16 * i..16 * i + 16]);
    r
}

// Overwrites the bytes from a place on.
pub(crate) fn put(bytes: &mut [u8], at: usize, new: &[u8])
    requires { at + length new.now ≤ length bytes.old }
    ensures { bytes.new ≡ take at bytes.old ++ (new.now ++ drop (at + length new.now) bytes.old) }
{
    bytes[at..at + new.len()].copy_from_slice(new);
}

// A block with its mask put on or, since that is the same, taken off.
pub(crate) fn masked_block<C: Cipher>(cipher: &C, block: &[u8; 16], number: usize) -> [u8; 16]
    ensures { result ≡ xor block.now (C.Cipher.encrypted (C.Cipher.key cipher.now) (number_block number)) }
{
    xor16(block, &cipher.encrypt(&number_block(number)))
}

// The hash of a masked block with its number, under the first key's schedule.
fn hashed_block<C: Cipher>(cipher: &C, block: &[u8; 16], number: usize) -> [u8; 16]
    ensures { result ≡ C.Cipher.encrypted (C.Cipher.key cipher.now) (xor block.now (number_block number)) }
{
    cipher.encrypt(&xor16(block, &number_block(number)))
}

// Masks each block in place, under the cipher's key.
pub(crate) fn mask_blocks<C: Cipher>(cipher: &C, blocks: &mut [u8])
    requires { length blocks.old % 16 ≡ 0 }
    ensures { blocks.new ≡ masked C.Cipher.encrypted (C.Cipher.key cipher.now) blocks.old }
{
    // by index: of what is written through as_chunks_mut a proof knows only how long it is
    for i in 0..blocks.len() / 16 {
        let new = masked_block(cipher, &block_at(blocks, i), i + 1);
        put(blocks, 16 * i, &new);
    }
}

// Binds a key to masked blocks or, since that is the same, finds the key that was bound to them.
pub(crate) fn bind<C: Cipher>(key: [u8; 16], blocks: &[u8]) -> [u8; 16]
    ensures { result ≡ bound C.Cipher.encrypted key blocks.now }
{
    let cipher = C::with_key(&FIRST_KEY);
    let mut sum = key;
    let (chunks, _) = blocks.as_chunks::<16>();
    for (i, block) in chunks.iter().enumerate() {
        sum = xor16(&sum, &hashed_block(&cipher, block, i + 1));
    }
    sum
}
