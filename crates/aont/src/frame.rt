// The frame of a file: its length and the cipher's number in two bytes each, the file, and zeros up to a whole block.
ghost use Rattle.std.specs.Prelude.{◌≡◌, ◌+◌, ◌*◌, ◌/◌, ◌<◌, ◌≤◌, length, take, Decides, EachIndex, drop, slice_index};
ghost use Rattle.std.specs.Str.{bytes_eq};
ghost use Rattle.base.specs.Bytes.{le_value, over, part};
ghost use Rattle.aont.specs.Package.{canary, message};

use crate::blocks::put;
use base::u16_at;

const CANARY: [u8; 16] = *b"BAYMAP+SIGNTABLE";

const ZEROS: [u8; 16] = [0; 16];

// Writes a file's frame and the canary into the front of the output.
pub(crate) fn lay_out(number: u16, file: &[u8], out: &mut [u8])
    requires { (length file.now ≤ 4092) × (16 * ((length file.now + 19) / 16) + 16 ≤ length out.old) }
    ensures { out.new ≡ over (message number file.now) out.old }
{
    let end = 4 + file.len();
    let frame = 16 * ((file.len() + 19) / 16);
    put(out, 0, &(file.len() as u16).to_le_bytes());
    put(out, 2, &number.to_le_bytes());
    put(out, 4, file);
    put(out, end, &ZEROS[0..frame - end]);
    put(out, frame, &CANARY);
}

pub(crate) fn is_canary(plain: &[u8; 16]) -> bool
    ensures { result ≡ bytes_eq plain.now canary }
{
    *plain == CANARY
}

// Whether a frame's first block names this cipher, and a file that ends in the frame's last block.
pub(crate) fn header_fits(first: &[u8; 16], number: u16, frame: usize) -> bool
    ensures { Decides result ((le_value (part first.now 2 2) ≡ number) × (4 + le_value (take 2 first.now) ≤ frame) × (frame < 20 + le_value (take 2 first.now))) }
{
    let end = 4 + usize::from(u16_at(first, 0));
    u16_at(first, 2) == number && end <= frame && frame < end + 16
}

// Whether a frame's last block has zeros from a place on.
pub(crate) fn is_padded(last: &[u8; 16], from: usize) -> bool
    requires { from ≤ 16 }
    ensures { Decides result (EachIndex (drop from last.now) (λ k. slice_index (drop from last.now) k ≡ 0)) }
{
    last[from..].iter().all(|byte| *byte == 0)
}
