//! The byte that commits what was written before it.
ghost use Rattle.std.specs.Prelude.{◌≡◌, ◌≢◌, ◌⊎◌, ◌∷◌, [], false, OnOk, OnErr, IsErrOf};
ghost use Rattle.edge_traits.specs.Shelf.{content, Appended, ChangesOnly};
ghost use Rattle.sd_base.specs.declared.file.File.{File};
ghost use Rattle.sd_base.specs.declared.limits.TheConstants.{COMMIT_BYTE};
ghost use Rattle.store_core.specs.Shelves.{CountsFaults};

use edge_traits::{EdgeFault, File, Shelf};
use sd_base::COMMIT_BYTE;

/// Appends the byte that commits to a file, and flushes it. After a refusal the byte was appended or
/// the file is as it was.
pub(crate) fn append_commit_byte<F: Shelf>(shelf: &mut F, file: File) -> Result<(), EdgeFault>
    ensures appended { OnOk result
        (Appended file (COMMIT_BYTE ∷ []) (F.files shelf.old) (F.files shelf.new)) }
    ensures flushed { OnOk result (F.loose shelf.new file ≡ false) }
    ensures refused { OnErr result ((content (F.files shelf.new) file ≡ content (F.files shelf.old) file)
        ⊎ Appended file (COMMIT_BYTE ∷ []) (F.files shelf.old) (F.files shelf.new)) }
    ensures other_files { ChangesOnly file (F.files shelf.old) (F.files shelf.new) }
    ensures other_loose { (f : File) → f ≢ file → F.loose shelf.new f ≡ F.loose shelf.old f }

    ensures counts { CountsFaults (IsErrOf result EdgeFault.Failed) F.faults F.faultless shelf.old shelf.new }
{
    shelf.append(file, &[COMMIT_BYTE])?;
    shelf.flush(file)
}
