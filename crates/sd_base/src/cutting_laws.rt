//! Laws of cuttings, chunk by chunk. Each is the contract of a function that does nothing.

ghost use Rattle.sd_base.specs.CuttingLaws.{CuttingsFollowTheRule, TheFirstToBreakTheRuleDiffers, CandidatesAreOfTheChunk};

/// Whether chunks are the cutting of their bytes can be told from each chunk by itself, and from
/// whether another follows it. The first chunk that breaks the rule is the first at which the chunks
/// and the cutting differ.
pub fn cuttings_are_by_chunks()
    ensures whole { CuttingsFollowTheRule }
    ensures first { TheFirstToBreakTheRuleDiffers }
{}

/// A position of a chunk with a whole window before it is a candidate of the chunk if and only if it
/// is one of each input that the chunk is a part of.
pub fn candidates_are_of_their_chunk()
    ensures { CandidatesAreOfTheChunk }
{}
