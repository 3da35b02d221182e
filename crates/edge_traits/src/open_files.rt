//! The files of a folder that are open, so that a read or an append needs no other system call.
ghost use Rattle.std.specs.Prelude.{◌≡◌, ◌<◌, vec_len};
ghost use Rattle.edge_traits.specs.declared.open_files.TheConstants.{PLACES};

use crate::File;
use std::alloc::{AllocError, Global};

/// The containers of one parity of generations share this many places in the table.
const CONTAINERS: usize = 64;

/// The head, and a seal, a book and the containers for even and for odd generations.
const PLACES: usize = 1 + 2 * (2 + CONTAINERS);

/// A file that is open.
#[derive(Drop)]
pub(crate) struct OpenFile<F> {
    pub(crate) file: File,
    pub(crate) handle: F,
    /// The number of bytes of the file.
    pub(crate) len: u64,
    /// Whether it is open for appending and not for reading alone.
    pub(crate) is_writable: bool,
    /// Whether this run has flushed it since it opened or changed it last.
    pub(crate) is_flushed: bool,
}

/// The open files, in a table in which each file has one place. A file is closed if another takes
/// its place. Two generations that follow each other do not share places, so that one can be read
/// while the next is written.
#[derive(Drop)]
pub(crate) struct OpenFiles<F> {
    places: Vec<Option<OpenFile<F>>>,
    ghost complete: { vec_len places ≡ PLACES },
}

impl<F: Drop> OpenFiles<F> {
    /// No file is open.
    pub(crate) fn new(alloc: Global) -> Result<Self, AllocError> {
        let mut places = Vec::with_capacity(alloc, PLACES)?;
        for _ in 0..PLACES {
            places.push(None)?;
        }
        Ok(OpenFiles { places })
    }

    /// The number of bytes of a file, if it is open.
    pub(crate) fn len_of(&self, file: File) -> Option<u64> {
        self.find(file).map(|open| open.len)
    }

    /// Whether a flush of this file has nothing to do. A file that is not open may have changes that
    /// were not flushed, of this run or of one before it.
    pub(crate) fn is_flushed(&self, file: File) -> bool {
        self.find(file).is_some_and(|open| open.is_flushed)
    }

    /// Takes a file out of the table, if it is open.
    pub(crate) fn take(&mut self, file: File) -> Option<OpenFile<F>> {
        let place = &mut self.places[place_of(file)];
        if place.as_ref().is_some_and(|open| open.file == file) {
            place.take()
        } else {
            None
        }
    }

    /// Puts a file into the table. The one that had its place is closed.
    pub(crate) fn put(&mut self, open: OpenFile<F>) {
        let place = place_of(open.file);
        self.places[place] = Some(open);
    }

    fn find(&self, file: File) -> Option<&OpenFile<F>> {
        self.places[place_of(file)]
            .as_ref()
            .filter(|open| open.file == file)
    }
}

/// Where a file is in the table.
fn place_of(file: File) -> usize
    ensures { result < PLACES }
{
    let parity = |generation: u32| generation as usize % 2;
    match file {
        File::Head => 0,
        File::Seal(generation) => 1 + parity(generation),
        File::Book(generation) => 3 + parity(generation),
        File::Container(generation, number) => {
            5 + CONTAINERS * parity(generation) + number as usize % CONTAINERS
        }
    }
}
