//! The spots of chunks, by the lengths of the chunks.
ghost use Rattle.std.specs.Prelude.{◌≡◌, ◌≤◌, ℕ, List, length, map, All, IfOk};
ghost use Rattle.sd_base.specs.Packing.{packing};
ghost use Rattle.container_pack.specs.Spots.{spots_of, LieAt};

use crate::Spot;
use crate::fill::Fill;
use sd_base::{MAX_CHUNK_LEN, MAX_CHUNKS, OutOfMemory};
use std::alloc::Global;

/// The spot of each chunk, by the lengths of the chunks in bytes. Fails only if memory runs out.
pub fn places(alloc: Global, lengths: &[u32]) -> Result<Vec<Spot>, OutOfMemory>
    requires none_empty { All (λ n. 1 ≤ n) lengths.now }
    requires bounded { All (λ n. n ≤ MAX_CHUNK_LEN) lengths.now }
    requires within_limit { length lengths.now ≤ MAX_CHUNKS }

    ensures spots { IfOk result (λ spots. spots.items ≡ spots_of lengths.now) }
    ensures in_packing { (chunks : List (List ℕ)) → map length chunks ≡ lengths.now
        → IfOk result (λ spots. LieAt (packing chunks) spots.items chunks) }
{
    let mut spots = Vec::with_capacity(alloc, lengths.len())?;
    let mut fill = Fill::nothing();
    for length in lengths {
        fill = fill.with_chunk(*length);
        spots.push(fill.last_spot(*length))?;
    }
    Ok(spots)
}
