//! Laws of what an audit finds in the files of a store. Each is the contract of a function that does
//! nothing.

ghost use Rattle.sd_base.specs.FlawLaws.{FlawlessFilesAreThoseOfLawfulStates, HeldStatesHaveNoFlaw, FlawlessFilesHoldAState, FilesThatOpenHaveAFlawOrNone, FilesHaveOneFirstFlaw, CountsAreThoseOfTheBook};

/// Files open and have no flaw if and only if they hold a lawful state.
pub fn flawless_files_are_those_of_lawful_states()
    ensures exactly { FlawlessFilesAreThoseOfLawfulStates }
    ensures flawless { HeldStatesHaveNoFlaw }
    ensures held { FlawlessFilesHoldAState }
{}

/// Files that open have one first flaw, or none.
pub fn files_have_one_first_flaw()
    ensures some { FilesThatOpenHaveAFlawOrNone }
    ensures one { FilesHaveOneFirstFlaw }
{}

/// `audit` shows of the book of a state what it shows of the state.
pub fn counts_are_those_of_the_book()
    ensures { CountsAreThoseOfTheBook }
{}
