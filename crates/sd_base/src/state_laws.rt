//! Laws of states and of the files that hold them. Each is the contract of a function that does
//! nothing.

ghost use Rattle.sd_base.specs.StateLaws.{DistinctChunksAreThoseOfTheList, DistinctChunksDiffer, DistinctChunksOnlyGrow, StoredChunksOnlyGrow, RecordsOnlyGrow, RecipesNameTheirChunks, SizesFollowFromLengths, EachStateHasItsFiles, HeldStatesOpen, RowsAreThoseOfTheBook, ReferencesAreThoseOfTheBook, ReferenceRowsAreThoseOfTheBook, RunsKeepStatesLawful, RefusalsLeaveTheState, InputsAreGivenBack};

/// The distinct chunks of a list are those of the list, each once, in order of first occurrence.
pub fn distinct_chunks_are_each_once()
    ensures those { DistinctChunksAreThoseOfTheList }
    ensures different { DistinctChunksDiffer }
    ensures in_order { DistinctChunksOnlyGrow }
{}

/// A store only grows: one more event leaves the stored chunks and the records as they are, and
/// adds after them.
pub fn stores_only_grow()
    ensures chunks { StoredChunksOnlyGrow }
    ensures records { RecordsOnlyGrow }
{}

/// The stored chunks that the recipe of a session names, in order, are the session's chunks.
pub fn recipes_name_their_chunks()
    ensures { RecipesNameTheirChunks }
{}

/// The sizes of containers follow from the lengths of the chunks.
pub fn container_sizes_are_by_lengths()
    ensures { SizesFollowFromLengths }
{}

/// Each state is held by files that have nothing else.
pub fn each_state_has_its_files()
    ensures { EachStateHasItsFiles }
{}

/// Files that hold a lawful state open as the book of its events. `list` and `refs` show of that
/// book what they show of the state.
pub fn held_states_open()
    ensures opened { HeldStatesOpen }
    ensures rows { RowsAreThoseOfTheBook }
    ensures references { ReferencesAreThoseOfTheBook }
    ensures reference_rows { ReferenceRowsAreThoseOfTheBook }
{}

/// A run leads from a lawful state to a lawful state. If it is not done, it prints nothing and
/// leaves the state as it is.
pub fn runs_keep_states_lawful()
    ensures lawful { RunsKeepStatesLawful }
    ensures refused { RefusalsLeaveTheState }
{}

/// An input that was taken in under a name is what `restore` of this name gives back.
pub fn inputs_are_given_back()
    ensures { InputsAreGivenBack }
{}
