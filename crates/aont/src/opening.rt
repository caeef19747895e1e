// What unsealing reads from a package: the key, and then one block after another under the mask.
ghost use Rattle.std.specs.Prelude.{◌≡◌, ◌+◌, ◌*◌, ◌≤◌, false, length, if◌then◌else◌, Some, None};
ghost use Rattle.std.specs.Str.{bytes_eq};
ghost use Rattle.base.specs.Bytes.{Bytes, over};
ghost use Rattle.base.specs.Sizes.{misfit};
ghost use Rattle.aont.specs.Package.{block, canary, canary_in, key_in, message_in};
ghost use Rattle.aont.specs.Seals.{framed, unsealed};

use crate::blocks::{bind, block_at, masked_block, put};
use crate::frame::{header_fits, is_canary, is_padded};
use base::u16_at;
use cipher::Cipher;

// The key that a package's last block binds.
pub(crate) fn key_in<C: Cipher>(package: &[u8]) -> [u8; 16]
    requires { misfit (length «package».now) ≡ false }
    ensures { result ≡ key_in C.Cipher.encrypted «package».now }
{
    let end = package.len() - 16;
    bind::<C>(block_at(package, end / 16), &package[0..end])
}

// A package that is being opened, beside the cipher of the key that it binds.
#[derive(Drop)]
pub(crate) struct Opening<'a, C: Cipher> {
    cipher: C,
    bytes: &'a [u8],
    ghost fit: { misfit (length bytes.now) ≡ false },
    ghost held: { Bytes bytes.now },
    ghost keyed: { C.Cipher.key cipher ≡ key_in C.Cipher.encrypted bytes.now },
}

impl<'a, C: Cipher> Opening<'a, C> {
    pub(crate) fn of(package: &'a [u8]) -> Self
        requires { misfit (length «package».now) ≡ false }
        ensures { result.bytes.now ≡ «package».now }
    {
        Opening {
            cipher: C::with_key(&key_in::<C>(package)),
            bytes: package,
        }
    }

    // A block of the message, which is the package's block with its mask taken off.
    fn plain_block(&self, i: usize) -> [u8; 16]
        requires { 16 * i + 32 ≤ length self.now.bytes.now }
        ensures { result ≡ block (i + 1) (message_in C.Cipher.encrypted self.now.bytes.now) }
    {
        masked_block(&self.cipher, &block_at(self.bytes, i), i + 1)
    }

    // Whether the message ends in the canary.
    pub(crate) fn has_canary(&self) -> bool
        ensures { result ≡ bytes_eq (canary_in C.Cipher.encrypted self.now.bytes.now) canary }
    {
        is_canary(&self.plain_block(self.bytes.len() / 16 - 2))
    }

    // The length of the file whose frame stands under the mask, if one does.
    pub(crate) fn file_length(&self) -> Option<usize>
        ensures { result ≡ (if framed C.Cipher.encrypted C.Cipher.number self.now.bytes.now then Some (length (unsealed C.Cipher.encrypted C.Cipher.number self.now.bytes.now)) else None) }
    {
        let frame = self.bytes.len() - 32;
        let first = self.plain_block(0);
        if !header_fits(&first, C::cipher_number(), frame) {
            return None;
        }
        let size = usize::from(u16_at(&first, 0));
        let last = self.plain_block(frame / 16 - 1);
        if !is_padded(&last, size + 20 - frame) {
            return None;
        }
        Some(size)
    }

    // Writes the file that the package names into the front of an output that is long enough.
    pub(crate) fn write_file(&self, size: usize, out: &mut [u8])
        requires whole { size ≡ length (unsealed C.Cipher.encrypted C.Cipher.number self.now.bytes.now) }
        requires room { size ≤ length out.old }
        ensures { out.new ≡ over (unsealed C.Cipher.encrypted C.Cipher.number self.now.bytes.now) out.old }
    {
        // by number, which the mask needs: block i + 1 holds the frame from byte 16 i on, and the file begins at the frame's byte 4
        for i in 0..(size + 19) / 16 {
            let plain = self.plain_block(i);
            let at = (16 * i).saturating_sub(4);
            let from = 4usize.saturating_sub(16 * i);
            let end = size.min(16 * i + 12);
            put(out, at, &plain[from..from + (end - at)]);
        }
    }
}
