//! How far the containers of chunks are filled.
ghost use Rattle.std.specs.Prelude.{◌≡◌, ◌+◌, ◌-◌, ◌<◌, ◌≤◌, ◌^◌};
ghost use Rattle.container_pack.specs.Spots.{nothing_filled, filled_by, last_spot, IsSound};

use crate::Spot;
use sd_base::{CONTAINER_HEADER, MAX_CHUNK_LEN, MAX_CONTAINER};

/// How many containers there are, and the bytes of the last of them. If there is none, the next
/// chunk opens one, as after a full one.
#[derive(Clone, Copy)]
pub(crate) struct Fill {
    pub(crate) containers: u32,
    pub(crate) used: u32,
}

impl Fill {
    pub(crate) fn nothing() -> Self
        ensures nothing { result ≡ nothing_filled }
        ensures sound { IsSound result }
    {
        Fill {
            containers: 0,
            used: MAX_CONTAINER,
        }
    }

    /// The fill after one more chunk, of this length.
    pub(crate) fn with_chunk(self, length: u32) -> Self
        requires sound { IsSound self }
        requires not_empty { 1 ≤ length }
        requires bounded { length ≤ MAX_CHUNK_LEN }
        requires countable { self.containers < 2 ^ 32 - 1 }

        ensures filled { result ≡ filled_by self length }
        ensures sound { IsSound result }
        ensures not_empty { 0 < result.containers }
        ensures holds_chunk { length ≤ result.used }
        ensures at_most_one_more { result.containers ≤ self.containers + 1 }
    {
        if self.used + length <= MAX_CONTAINER {
            Fill {
                containers: self.containers,
                used: self.used + length,
            }
        } else {
            Fill {
                containers: self.containers + 1,
                used: CONTAINER_HEADER + length,
            }
        }
    }

    /// The spot of the last chunk, whose length this is.
    pub(crate) fn last_spot(self, length: u32) -> Spot
        requires not_empty { 0 < self.containers }
        requires holds_chunk { length ≤ self.used }
        ensures { result ≡ last_spot self length }
    {
        Spot {
            container: self.containers - 1,
            offset: self.used - length,
        }
    }
}
