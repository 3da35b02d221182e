//! Where the files of a store lie.
ghost use Rattle.std.specs.Prelude.{◌≡◌, ◌≤◌, ℕ, List, Bool, Option, length, take, IfOk, OnOk, OnErr, IsErrOf};
ghost use Rattle.sd_base.specs.declared.file.File.{File};
ghost use Rattle.edge_traits.specs.Faults.{Rose};
ghost use Rattle.edge_traits.specs.Shelf.{content, SameFiles, ChangesOnly, Appended, AppendedPrefix, CutTo, CutOrSame, HasLength, IsReadAt, SameLoose, MayLoosen, Flushed};

use crate::{EdgeFault, File};

/// A finite map from `File` to bytes, in which a file that does not exist counts as empty. Files
/// grow at the end and are cut there, and a flush makes a file durable. A shelf is observable if
/// the bytes of its files are known to the contract.
pub trait Shelf: Send {
    /// The bytes of each file, if the shelf is observable.
    ghost files: { Self → Option (File → List ℕ) };

    /// Whether a file is loose: it may have been appended to or cut since its last flush. This has
    /// a meaning only if the shelf is observable; no file of another shelf is loose.
    ghost loose: { Self → File → Bool };

    /// How often the shelf has failed. The count never falls.
    ghost faults: { Self → ℕ };

    /// The device will never fail again.
    ghost faultless: { Self → Type 0 };

    /// The number of bytes of a file, 0 if it does not exist. Changes nothing.
    fn len(&mut self, file: File) -> Result<u64, EdgeFault>
        ensures length { IfOk result (HasLength (content (files self.old) file)) }

        ensures same_files { SameFiles (files self.old) (files self.new) }
        ensures same_loose { SameLoose (loose self.old) (loose self.new) }

        ensures failed { IsErrOf result EdgeFault.Failed → Rose (faults self.old) (faults self.new) }
        ensures never_falls { faults self.old ≤ faults self.new }

        ensures faultless_serves { faultless self.old → IsErrOf result EdgeFault.Failed → ⊥ }
        ensures faultless_counts_none { faultless self.old → faults self.new ≡ faults self.old }
        ensures stays_faultless { faultless self.old → faultless self.new };

    /// Reads a file from offset `at` on into the front of `into`: as many bytes as the file has
    /// there and as fit. Returns how many: 0 if `at` is at or past the end. Changes nothing.
    fn read_at(&mut self, file: File, at: u64, into: &mut [u8]) -> Result<usize, EdgeFault>
        ensures bound { IfOk result (λ k. k ≤ length into.new) }
        ensures given { IfOk result (λ k.
            IsReadAt (content (files self.old) file) at (length into.new) (take k into.new)) }

        ensures same_files { SameFiles (files self.old) (files self.new) }
        ensures same_loose { SameLoose (loose self.old) (loose self.new) }

        ensures failed { IsErrOf result EdgeFault.Failed → Rose (faults self.old) (faults self.new) }
        ensures never_falls { faults self.old ≤ faults self.new }

        ensures faultless_serves { faultless self.old → IsErrOf result EdgeFault.Failed → ⊥ }
        ensures faultless_counts_none { faultless self.old → faults self.new ≡ faults self.old }
        ensures stays_faultless { faultless self.old → faultless self.new };

    /// Appends the whole piece to a file. After `Failed` a prefix of the piece was appended. After
    /// `OutOfMemory` no file has changed.
    fn append(&mut self, file: File, bytes: &[u8]) -> Result<(), EdgeFault>
        ensures appended { OnOk result (Appended file bytes.now (files self.old) (files self.new)) }
        ensures prefix { IsErrOf result EdgeFault.Failed →
            AppendedPrefix file bytes.now (files self.old) (files self.new) }
        ensures out_of_memory { IsErrOf result EdgeFault.OutOfMemory →
            SameFiles (files self.old) (files self.new) }

        ensures other_files { ChangesOnly file (files self.old) (files self.new) }
        ensures may_loosen { MayLoosen file (loose self.old) (loose self.new) }

        ensures failed { IsErrOf result EdgeFault.Failed → Rose (faults self.old) (faults self.new) }
        ensures never_falls { faults self.old ≤ faults self.new }

        ensures faultless_serves { faultless self.old → IsErrOf result EdgeFault.Failed → ⊥ }
        ensures faultless_counts_none { faultless self.old → faults self.new ≡ faults self.old }
        ensures stays_faultless { faultless self.old → faultless self.new };

    /// Cuts a file to its first `length` bytes, or leaves the whole file if it is shorter. After
    /// `Failed` the file is cut or as it was. After `OutOfMemory` no file has changed.
    fn cut(&mut self, file: File, length: u64) -> Result<(), EdgeFault>
        ensures cut { OnOk result (CutTo file length (files self.old) (files self.new)) }
        ensures cut_or_same { IsErrOf result EdgeFault.Failed →
            CutOrSame file length (files self.old) (files self.new) }
        ensures out_of_memory { IsErrOf result EdgeFault.OutOfMemory →
            SameFiles (files self.old) (files self.new) }

        ensures other_files { ChangesOnly file (files self.old) (files self.new) }
        ensures may_loosen { MayLoosen file (loose self.old) (loose self.new) }

        ensures failed { IsErrOf result EdgeFault.Failed → Rose (faults self.old) (faults self.new) }
        ensures never_falls { faults self.old ≤ faults self.new }

        ensures faultless_serves { faultless self.old → IsErrOf result EdgeFault.Failed → ⊥ }
        ensures faultless_counts_none { faultless self.old → faults self.new ≡ faults self.old }
        ensures stays_faultless { faultless self.old → faultless self.new };

    /// Makes what was done to a file durable, so that the file is no longer loose. Changes no
    /// bytes. After a refusal the same files are loose.
    fn flush(&mut self, file: File) -> Result<(), EdgeFault>
        ensures flushed { OnOk result (Flushed file (loose self.old) (loose self.new)) }
        ensures same_files { SameFiles (files self.old) (files self.new) }
        ensures unchanged { OnErr result (SameLoose (loose self.old) (loose self.new)) }

        ensures failed { IsErrOf result EdgeFault.Failed → Rose (faults self.old) (faults self.new) }
        ensures never_falls { faults self.old ≤ faults self.new }

        ensures faultless_serves { faultless self.old → IsErrOf result EdgeFault.Failed → ⊥ }
        ensures faultless_counts_none { faultless self.old → faults self.new ≡ faults self.old }
        ensures stays_faultless { faultless self.old → faultless self.new };
}
