//! The files of a shelf in memory, one entry for each file. A file that has no entry counts as
//! empty, and it is not loose.
ghost use Rattle.std.specs.Prelude.{◌≡◌, ◌≢◌, ◌<◌, ◌++◌, [], ℕ, true, false, length, take, All, IsTrue, ◌↔◌, IfSome, IfNone, IfOk, OnOk, OnErr};
ghost use Rattle.sd_base.specs.declared.file.File.{File};
ghost use Rattle.edge_traits.specs.Entries.{bytes_of_file, is_loose_file, IsIndexOf, SameEntries, ChangesEntry};

use crate::File;
use sd_base::OutOfMemory;
use std::alloc::Global;

/// A file of a shelf in memory.
#[derive(Drop)]
pub(crate) struct Entry {
    pub(crate) file: File,
    pub(crate) bytes: Vec<u8>,
    pub(crate) is_loose: bool,
}

/// The bytes of a file.
pub(crate) fn bytes_of(entries: &[Entry], file: File) -> &[u8]
    ensures { result.now ≡ bytes_of_file entries.now file }
{
    match index_of(entries, file) {
        Some(index) => &entries[index].bytes,
        None => &[],
    }
}

/// Whether a file is loose.
pub(crate) fn is_loose(entries: &[Entry], file: File) -> bool
    ensures { result ≡ is_loose_file entries.now file }
{
    match index_of(entries, file) {
        Some(index) => entries[index].is_loose,
        None => false,
    }
}

/// Appends a piece to a file, which is then loose.
pub(crate) fn append(
    alloc: Global,
    entries: &mut Vec<Entry>,
    file: File,
    piece: &[u8],
) -> Result<(), OutOfMemory>
    ensures bytes { OnOk result
        (bytes_of_file entries.new.items file ≡ bytes_of_file entries.old.items file ++ piece.now) }
    ensures loose { OnOk result (is_loose_file entries.new.items file ≡ true) }
    ensures others { OnOk result (ChangesEntry file entries.old.items entries.new.items) }
    ensures refused { OnErr result (SameEntries entries.old.items entries.new.items) }
{
    let index = add_if_absent(alloc, entries, file)?;
    let entry = &mut entries[index];
    entry.bytes.extend_from_slice(piece)?;
    entry.is_loose = true;
    Ok(())
}

/// Cuts a file to its first `size` bytes. The file is then loose. Memory is needed only if the file
/// has no entry.
pub(crate) fn cut(
    alloc: Global,
    entries: &mut Vec<Entry>,
    file: File,
    size: usize,
) -> Result<(), OutOfMemory>
    ensures bytes { OnOk result
        (bytes_of_file entries.new.items file ≡ take size (bytes_of_file entries.old.items file)) }
    ensures loose { OnOk result (is_loose_file entries.new.items file ≡ true) }
    ensures others { OnOk result (ChangesEntry file entries.old.items entries.new.items) }
    ensures refused { OnErr result (SameEntries entries.old.items entries.new.items) }
    ensures needs_no_memory { OnErr result (bytes_of_file entries.old.items file ≡ []) }
{
    let index = add_if_absent(alloc, entries, file)?;
    let entry = &mut entries[index];
    entry.bytes.truncate(size);
    entry.is_loose = true;
    Ok(())
}

/// Makes these the bytes of a file, which is then not loose.
pub(crate) fn set_bytes(
    alloc: Global,
    entries: &mut Vec<Entry>,
    file: File,
    bytes: &[u8],
) -> Result<(), OutOfMemory>
    ensures bytes { OnOk result (bytes_of_file entries.new.items file ≡ bytes.now) }
    ensures loose { OnOk result (is_loose_file entries.new.items file ≡ false) }
    ensures others { OnOk result (ChangesEntry file entries.old.items entries.new.items) }
    ensures refused { OnErr result (SameEntries entries.old.items entries.new.items) }
{
    let bytes = Vec::from_slice(alloc, bytes)?;
    let index = add_if_absent(alloc, entries, file)?;
    let entry = &mut entries[index];
    entry.bytes = bytes;
    entry.is_loose = false;
    Ok(())
}

/// Makes a file not loose, and changes no bytes.
pub(crate) fn flush(entries: &mut [Entry], file: File)
    ensures bytes { (f : File) → bytes_of_file entries.new f ≡ bytes_of_file entries.old f }
    ensures loose { is_loose_file entries.new file ≡ false }
    ensures other_loose { (f : File) → f ≢ file → is_loose_file entries.new f ≡ is_loose_file entries.old f }
{
    if let Some(index) = index_of(entries, file) {
        entries[index].is_loose = false;
    }
}

/// Returns the index of a file's entry, and adds an empty entry if the file has none.
fn add_if_absent(alloc: Global, entries: &mut Vec<Entry>, file: File) -> Result<usize, OutOfMemory>
    ensures index { IfOk result (IsIndexOf entries.new.items file) }
    ensures same { SameEntries entries.old.items entries.new.items }
    ensures needs_no_memory { OnErr result (bytes_of_file entries.old.items file ≡ []) }
{
    if let Some(index) = index_of(entries, file) {
        return Ok(index);
    }
    let index = entries.len();
    entries.push(Entry {
        file,
        bytes: Vec::new(alloc),
        is_loose: false,
    })?;
    Ok(index)
}

/// The index of a file's entry.
fn index_of(entries: &[Entry], file: File) -> Option<usize>
    ensures found { IfSome result (IsIndexOf entries.now file) }
    ensures none { IfNone result (All (λ entry. entry.file ≢ file) entries.now) }
{
    for (index, entry) in entries.iter().enumerate() {
        if is_same(entry.file, file) {
            return Some(index);
        }
    }
    None
}

fn is_same(a: File, b: File) -> bool
    ensures { IsTrue result ↔ (a ≡ b) }
{
    a == b
}
