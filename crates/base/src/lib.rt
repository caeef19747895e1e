// The words that every layer's contract uses: byte lists and little-endian numbers, refusals in the order of their
// checks, and what a call leaves in an output. They stand in specs/.
#![tactic(auto)]

ghost use Rattle.std.specs.Prelude.{◌≡◌, ◌+◌, min, length, if◌then◌else◌, nat_le, slice_index};
ghost use Rattle.base.specs.Sizes.{misfit};
ghost use Rattle.base.specs.Bytes.{Bytes, le_bytes, le_value, part, written};

use std::array;

// Tells a caller's proof that a slice holds bytes; it does nothing else.
pub fn holds_bytes(bytes: &[u8])
    ensures { Bytes bytes.now }
{
    if bytes.len() > 0 {
        let _first = bytes[0];
    }
}

// Whether no package has that length: it is no multiple of 16, below 48 or above 4,128.
pub fn is_misfit(length: usize) -> bool
    ensures { result ≡ misfit length }
{
    length % 16 != 0 || length < 48 || length > 4128
}

// The byte at a place, 0 past the end.
pub fn byte_at(bytes: &[u8], at: usize) -> u8
    ensures { result ≡ slice_index bytes.now at }
{
    bytes.get(at).copied().unwrap_or(0)
}

fn byte_of_part(bytes: &[u8], at: usize, width: usize, i: usize) -> u8
    ensures { result ≡ slice_index (part bytes.now at width) i }
{
    if i < width {
        byte_at(bytes, at.saturating_add(i))
    } else {
        0
    }
}

// The little-endian number in the two bytes at a place; a byte past the end counts as 0.
pub fn u16_at(bytes: &[u8], at: usize) -> u16
    ensures { result ≡ le_value (part bytes.now at 2) }
{
    u16::from_le_bytes(array::from_fn(|i| byte_of_part(bytes, at, 2, i)))
}

// The little-endian number in so many bytes from a place on, four at most; a byte past the end counts as 0.
pub fn le_at(bytes: &[u8], at: usize, width: usize) -> u32
    ensures { result ≡ le_value (part bytes.now at (min width 4)) }
{
    let width = width.min(4);
    u32::from_le_bytes(array::from_fn(|i| byte_of_part(bytes, at, width, i)))
}

// Writes a number little-endian into so many bytes from a place on, or nothing where they do not all lie in the buffer.
pub fn put_le(out: &mut [u8], at: usize, width: usize, value: u32)
    ensures { out.new ≡ (if nat_le (at + width) (length out.old) then written out.old at (le_bytes width value) else out.old) }
{
    if at > out.len() || width > out.len() - at {
        return;
    }
    let mut rest = value;
    for byte in out[at..at + width].iter_mut() {
        *byte = (rest % 256) as u8;
        rest /= 256;
    }
}
