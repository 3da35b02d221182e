//! Laws of the packing of chunks. Each is the contract of a function that does nothing.

ghost use Rattle.container_pack.specs.Laws.{ChunksLieAtTheirSpots, LongerListsOnlyExtend, PackingIsByGroups};

/// The containers of a list of chunks are prefixes of the containers of every longer list that
/// begins with it.
pub fn containers_only_grow()
    ensures { LongerListsOnlyExtend }
{}

/// Each chunk lies in the containers at its spot, however many chunks there are. The spots follow
/// from the lengths of the chunks alone.
pub fn chunks_lie_at_their_spots()
    ensures { ChunksLieAtTheirSpots }
{}

/// The containers of chunks are a container for each of some groups of the chunks, in order. None
/// of them is too long, and none has room for the first chunk of the next group.
pub fn packing_is_by_groups()
    ensures { PackingIsByGroups }
{}
