//! A shelf in memory, which fails at planned calls.
ghost use Rattle.std.specs.Prelude.{◌≡◌, ◌≢◌, ◌≤◌, ◌++◌, ℕ, [], length, take, drop, true, false, Some, IfOk, IfSome, OnOk, OnErr, IsErrOf, IfNone, IsNone, if◌then◌else◌, ◌==◌};
ghost use Rattle.sd_base.specs.declared.file.File.{File};
ghost use Rattle.edge_traits.specs.Entries.{SameEntries, ChangesEntry};

use crate::copy::copy_front;
use crate::entries::{self, Entry};
use crate::shelf_plan::ShelfPlan;
use crate::{EdgeFault, File, Shelf, ShelfFail};
use sd_base::OutOfMemory;
use std::alloc::Global;

/// A shelf in memory. It is observable. All calls of `Shelf` on it are numbered together, from 0. A
/// call that is to fail, and has no memory for what it keeps, returns `OutOfMemory` and counts no
/// fault.
#[derive(Drop)]
pub struct MemShelf {
    alloc: Global,
    entries: Vec<Entry>,
    plan: ShelfPlan,
}

impl MemShelf {
    ghost use Rattle.edge_traits.specs.MemShelf.{files_of_shelf, loose_of_shelf, failing_calls, shelf_calls, shelf_faults, IsFaultlessShelf};

    /// A shelf with no files. The calls whose numbers are in `failing` fail. If a number is there
    /// more than once, the first decides.
    pub fn new(alloc: Global, failing: Vec<ShelfFail>) -> Self
        ensures files { (f : File) → files_of_shelf result f ≡ [] }
        ensures loose { (f : File) → loose_of_shelf result f ≡ false }
        ensures failing { failing_calls result ≡ failing.items }
        ensures calls { shelf_calls result ≡ 0 }
        ensures faults { shelf_faults result ≡ 0 }
        ensures faultless { failing.items ≡ [] → IsFaultlessShelf result }
    {
        MemShelf {
            alloc,
            entries: Vec::new(alloc),
            plan: ShelfPlan::new(failing),
        }
    }

    /// The bytes of a file. This is no call of `Shelf`, so it is not counted.
    pub fn file(&self, file: File) -> &[u8]
        ensures { result.now ≡ files_of_shelf self.now file }
    {
        entries::bytes_of(&self.entries, file)
    }

    /// Whether a file was appended to or cut since it was last flushed or put. Not counted.
    pub fn is_loose(&self, file: File) -> bool
        ensures { result ≡ loose_of_shelf self.now file }
    {
        entries::is_loose(&self.entries, file)
    }

    /// Makes these the bytes of a file, which is then not loose. Not counted. It fails only if
    /// memory runs out, and then nothing has changed.
    pub fn put_file(&mut self, file: File, bytes: &[u8]) -> Result<(), OutOfMemory>
        ensures put { OnOk result (files_of_shelf self.new file ≡ bytes.now) }
        ensures not_loose { OnOk result (loose_of_shelf self.new file ≡ false) }

        ensures other_files { (f : File) → f ≢ file → files_of_shelf self.new f ≡ files_of_shelf self.old f }
        ensures other_loose { (f : File) → f ≢ file → loose_of_shelf self.new f ≡ loose_of_shelf self.old f }
        ensures refused_files { OnErr result
            ((f : File) → files_of_shelf self.new f ≡ files_of_shelf self.old f) }
        ensures refused_loose { OnErr result
            ((f : File) → loose_of_shelf self.new f ≡ loose_of_shelf self.old f) }

        ensures failing { failing_calls self.new ≡ failing_calls self.old }
        ensures calls { shelf_calls self.new ≡ shelf_calls self.old }
        ensures faults { shelf_faults self.new ≡ shelf_faults self.old }
        ensures stays_faultless { IsFaultlessShelf self.old → IsFaultlessShelf self.new }
    {
        entries::set_bytes(self.alloc, &mut self.entries, file, bytes)
    }
}

impl Shelf for MemShelf {
    ghost use Rattle.edge_traits.specs.MemShelf.{files_of_shelf, loose_of_shelf, shelf_faults, kept_next, IsCounted, IsUntouched, IsFaultlessShelf};

    ghost files = { λ shelf. Some (files_of_shelf shelf) };

    ghost loose = { loose_of_shelf };

    ghost faults = { shelf_faults };

    ghost faultless = { IsFaultlessShelf };

    fn len(&mut self, file: File) -> Result<u64, EdgeFault>
        ensures length { IfOk result (λ n. n ≡ length (files_of_shelf self.old file)) }
        ensures untouched { IsUntouched self.old self.new }
        ensures counted { IsCounted result self.old self.new }
        ensures only_error { OnErr result (IsErrOf result EdgeFault.Failed) }
    {
        self.plan.count_call()?;
        Ok(entries::bytes_of(&self.entries, file).len() as u64)
    }

    fn read_at(&mut self, file: File, at: u64, into: &mut [u8]) -> Result<usize, EdgeFault>
        ensures bound { IfOk result (λ k. k ≤ length into.new) }
        ensures given { IfOk result (λ k. take k into.new
            ≡ take (length into.new) (drop at (files_of_shelf self.old file))) }
        ensures untouched { IsUntouched self.old self.new }
        ensures counted { IsCounted result self.old self.new }
        ensures only_error { OnErr result (IsErrOf result EdgeFault.Failed) }
    {
        self.plan.count_call()?;
        let bytes = entries::bytes_of(&self.entries, file);
        let room = into.len();
        Ok(copy_front(&bytes[bytes.len().min(at as usize)..], into, room))
    }

    fn append(&mut self, file: File, bytes: &[u8]) -> Result<(), EdgeFault>
        ensures appended { OnOk result
            (files_of_shelf self.new file ≡ files_of_shelf self.old file ++ bytes.now) }
        ensures kept { IsErrOf result EdgeFault.Failed → IfSome (kept_next self.old) (λ kept.
            files_of_shelf self.new file ≡ files_of_shelf self.old file ++ take kept bytes.now) }
        ensures loose { result ≢ Err EdgeFault.OutOfMemory → loose_of_shelf self.new file ≡ true }

        ensures other_files { (f : File) → f ≢ file → files_of_shelf self.new f ≡ files_of_shelf self.old f }
        ensures other_loose { (f : File) → f ≢ file → loose_of_shelf self.new f ≡ loose_of_shelf self.old f }
        ensures out_of_memory { IsErrOf result EdgeFault.OutOfMemory → IsUntouched self.old self.new }
        ensures counted { IsCounted result self.old self.new }
    {
        let kept = self.plan.kept();
        let piece = kept_piece(bytes, kept);
        let done = entries::append(self.alloc, &mut self.entries, file, piece);
        self.plan.count_result(kept, done)
    }

    fn cut(&mut self, file: File, length: u64) -> Result<(), EdgeFault>
        ensures cut { OnOk result
            (files_of_shelf self.new file ≡ take length (files_of_shelf self.old file)) }
        ensures kept { IsErrOf result EdgeFault.Failed → IfSome (kept_next self.old) (λ kept.
            files_of_shelf self.new file
            ≡ (if kept == 0
            then files_of_shelf self.old file
            else take length (files_of_shelf self.old file))) }
        ensures loose { result ≢ Err EdgeFault.OutOfMemory → loose_of_shelf self.new file ≡ true }

        ensures other_files { (f : File) → f ≢ file → files_of_shelf self.new f ≡ files_of_shelf self.old f }
        ensures other_loose { (f : File) → f ≢ file → loose_of_shelf self.new f ≡ loose_of_shelf self.old f }
        ensures out_of_memory { IsErrOf result EdgeFault.OutOfMemory → IsUntouched self.old self.new }
        ensures needs_no_memory { files_of_shelf self.old file ≢ [] → result ≢ Err EdgeFault.OutOfMemory }
        ensures counted { IsCounted result self.old self.new }
    {
        let kept = self.plan.kept();
        let size = kept_size(entries::bytes_of(&self.entries, file), length, kept);
        let done = entries::cut(self.alloc, &mut self.entries, file, size);
        self.plan.count_result(kept, done)
    }

    fn flush(&mut self, file: File) -> Result<(), EdgeFault>
        ensures flushed { OnOk result (loose_of_shelf self.new file ≡ false) }
        ensures same_files { (f : File) → files_of_shelf self.new f ≡ files_of_shelf self.old f }
        ensures other_loose { (f : File) → f ≢ file → loose_of_shelf self.new f ≡ loose_of_shelf self.old f }
        ensures untouched { OnErr result (IsUntouched self.old self.new) }
        ensures counted { IsCounted result self.old self.new }
        ensures only_error { OnErr result (IsErrOf result EdgeFault.Failed) }
    {
        self.plan.count_call()?;
        entries::flush(&mut self.entries, file);
        Ok(())
    }
}

/// What an append appends: the whole piece, or its first `kept` bytes if it is to fail.
fn kept_piece(bytes: &[u8], kept: Option<u32>) -> &[u8]
    ensures whole { IfNone kept (result.now ≡ bytes.now) }
    ensures front { IfSome kept (λ kept. result.now ≡ take kept bytes.now) }
{
    match kept {
        Some(kept) => &bytes[..bytes.len().min(kept as usize)],
        None => bytes,
    }
}

/// The size to which a file is cut: its own if the cut is to fail and to keep nothing.
fn kept_size(bytes: &[u8], length: u64, kept: Option<u32>) -> usize
    ensures whole { IfNone kept (result ≡ length) }
    ensures front { IfSome kept (λ kept. take result bytes.now
        ≡ (if kept == 0 then bytes.now else take length bytes.now)) }
{
    if kept == Some(0) {
        return bytes.len();
    }
    length as usize
}
