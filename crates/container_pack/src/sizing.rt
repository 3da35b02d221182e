//! The sizes of containers, by the lengths of the chunks.
ghost use Rattle.std.specs.Prelude.{◌≡◌, ◌≤◌, length, vec_len, IfOk, All};
ghost use Rattle.sd_base.specs.Packing.{container_sizes};

use crate::fill::Fill;
use sd_base::{CONTAINER_HEADER, MAX_CHUNK_LEN, MAX_CHUNKS, MAX_CONTAINER, OutOfMemory};
use std::alloc::Global;

/// The size of each container of chunks of these lengths, in bytes: its header and its chunks.
/// Fails only if memory runs out.
pub fn container_sizes(alloc: Global, lengths: &[u32]) -> Result<Vec<u64>, OutOfMemory>
    ensures sizes { IfOk result (λ sizes. sizes.items ≡ container_sizes lengths.now) }
    ensures count { IfOk result (λ sizes. vec_len sizes ≤ length lengths.now) }
{
    let mut sizes = Vec::new(alloc);
    let mut open = None;
    for length in lengths {
        let length = u64::from(*length);
        match open {
            Some(size) if size + length <= u64::from(MAX_CONTAINER) => open = Some(size + length),
            Some(size) => {
                sizes.push(size)?;
                open = Some(u64::from(CONTAINER_HEADER) + length);
            }
            None => open = Some(u64::from(CONTAINER_HEADER) + length),
        }
    }
    if let Some(size) = open {
        sizes.push(size)?;
    }
    Ok(sizes)
}

/// The number of containers of chunks of these lengths. It takes no memory.
pub fn container_count(lengths: &[u32]) -> u32
    requires none_empty { All (λ n. 1 ≤ n) lengths.now }
    requires bounded { All (λ n. n ≤ MAX_CHUNK_LEN) lengths.now }
    requires within_limit { length lengths.now ≤ MAX_CHUNKS }
    ensures count { result ≡ length (container_sizes lengths.now) }
{
    let mut fill = Fill::nothing();
    for length in lengths {
        fill = fill.with_chunk(*length);
    }
    fill.containers
}
