ghost use Rattle.std.specs.Prelude.{◌≡◌, ◌*◌, ◌≤◌, length, nat_le};
ghost use Rattle.std.specs.List.{flat_map, AllByRecursion};
ghost use Rattle.base.specs.Bytes.{over};
ghost use Rattle.rows.specs.Model.{held};
ghost use Rattle.standing.specs.Gather.{Holds};

use rows::row::ReadRow;

// Whether so many pieces of one width fit into the room.
fn fits(count: usize, width: usize, room: usize) -> bool
    ensures { result ≡ nat_le (count * width) room }
{
    count.checked_mul(width).is_some_and(|whole| whole <= room)
}

// Reads the records of these cabinets end to end into the front of `out`, record i at i × stride, and leaves the rest of it.
// Where one of them has no record of `stride` bytes, or `out` no room for all, what `out` then has is not said.
pub fn gather<R: ReadRow>(row: &R, file: usize, positions: &[u8], stride: usize, out: &mut [u8])
    ensures long { length out.new ≡ length out.old }
    ensures records { AllByRecursion (Holds (R.ReadRow.model row.now) file stride) positions.now → length positions.now * stride ≤ length out.old → out.new ≡ over (flat_map (λ c. held ((R.ReadRow.model row.now).slot c file)) positions.now) out.old }
{
    if !fits(positions.len(), stride, out.len()) {
        return;
    }
    for (i, position) in positions.iter().enumerate() {
        // by places: after a loop over chunks_exact_mut a proof knows nothing of what stands in the chunks
        let at = i * stride;
        let _ = row.read(usize::from(*position), file, &mut out[at..at + stride]);
    }
}
