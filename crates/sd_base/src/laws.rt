//! Laws of the definitions in `specs/`. Each is the contract of a function that does nothing, and
//! holds for all parameters and inputs that it names.

ghost use Rattle.sd_base.specs.Laws.{OnePositionIsTheNextCut, AnEmptyInputHasNoChunks, TheTailIsCutAlone, ChunksJoinToTheInput, ChunksAreFilledAndBounded, ChunksReachTheMinimum, RangesAreTheRefusals, NamesAreTheRefusals, WordsGiveNumbersInRange, WordsGiveNames, WordsGiveRawParams, BulkInputsHaveTheirLength, BulkInputsAreNotTooLong};

/// The next cut by search is the next cut by the relation that has no search in it.
pub fn next_cut_is_the_least()
    ensures { OnePositionIsTheNextCut }
{}

/// Cutting can be done a chunk at a time: what is left after a cut is cut as if it stood alone. The
/// reason is that the least minimum is a whole window, so that the window that decides a cut lies
/// in the chunk that it ends.
pub fn chunks_go_on_in_the_tail()
    ensures empty { AnEmptyInputHasNoChunks }
    ensures tail { TheTailIsCutAlone }
{}

/// Cutting loses nothing of an input and doubles nothing, and the sizes are those that the
/// parameters ask for.
pub fn chunks_cover_the_input()
    ensures joined { ChunksJoinToTheInput }
    ensures sizes { ChunksAreFilledAndBounded }
    ensures long_enough { ChunksReachTheMinimum }
{}

/// `Params::new` refuses numbers if and only if one of them is out of its range.
pub fn ranges_are_the_refusals()
    ensures { RangesAreTheRefusals }
{}

/// `Name::read` refuses bytes if and only if they are no name of a session.
pub fn names_are_the_refusals()
    ensures { NamesAreTheRefusals }
{}

/// The input of `bulk` is as long as its blocks: with the most blocks, as long as the longest input.
pub fn bulk_inputs_have_their_length()
    ensures length { BulkInputsHaveTheirLength }
    ensures fits { BulkInputsAreNotTooLong }
{}

/// What words give a command is in its range, so that a run of words needs no condition on them.
pub fn words_give_fields_in_range()
    ensures numbers { WordsGiveNumbersInRange }
    ensures names { WordsGiveNames }
    ensures parameters { WordsGiveRawParams }
{}
