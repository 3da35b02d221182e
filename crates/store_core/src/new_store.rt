//! A store is made.
ghost use Rattle.std.specs.Prelude.{◌≡◌, ◌≢◌, ◌≤◌, ◌∷◌, [], ◌++◌, ℕ, List, length, None, Some, IfSome, OnOk, OnErr, IsErrOf, false};
ghost use Rattle.container_pack.specs.Containers.{HasOnly};
ghost use Rattle.edge_traits.specs.Shelf.{content, SameFiles, SameLoose};
ghost use Rattle.sd_base.specs.Params.{numbers_of};
ghost use Rattle.sd_base.specs.Settings.{settings_of};
ghost use Rattle.sd_base.specs.States.{new_state};
ghost use Rattle.sd_base.specs.Stores.{AreClean, HoldNoStore, HoldState};
ghost use Rattle.sd_base.specs.declared.file.File.{File};
ghost use Rattle.sd_base.specs.declared.file.File.TheVariants.{Head, Seal};
ghost use Rattle.sd_base.specs.declared.limits.TheConstants.{COMMIT_BYTE, OPEN_HEAD_LEN};
ghost use Rattle.store_core.specs.Stores.{LeavesNone, LeavesNoneOrNew, OnlyMakes};
ghost use Rattle.store_core.specs.Shelves.{CountsFaults};

use crate::StoreFault;
use crate::commit_byte::append_commit_byte;
use crate::settings::settings_of;
use edge_traits::{EdgeFault, File, Shelf};
use sd_base::{OPEN_HEAD_LEN, Params};
use std::alloc::Global;

/// Makes a store with these parameters on a shelf that has none. After Ok the head is the settings
/// and one byte, the seal of generation 0 is empty, and no other file has changed. So nothing of an
/// older store counts.
///
/// If the head has at least 33 bytes, no file changes, and only then `StoreThere` is returned.
/// `ShelfFault` is returned only if the shelf's count of faults rose. After it, and if memory runs
/// out, there is no store or the whole new one.
pub fn init<F: Shelf>(_alloc: Global, shelf: &mut F, params: &Params) -> Result<(), StoreFault>
    ensures held { OnOk result (IfSome (F.files shelf.new) (λ files.
        (name_of : List ℕ → List ℕ) → HoldState name_of files (new_state (numbers_of params.now)))) }
    ensures head { OnOk result (HasOnly (content (F.files shelf.new) Head)
        (settings_of (numbers_of params.now) ++ COMMIT_BYTE ∷ [])) }
    ensures seal { OnOk result (HasOnly (content (F.files shelf.new) (Seal 0)) []) }
    ensures absent { OnOk result (IfSome (F.files shelf.old) HoldNoStore) }
    ensures clean { (name_of : List ℕ → List ℕ) → IfSome (F.files shelf.old) (λ before. AreClean name_of before None
        → OnOk result (IfSome (F.files shelf.new) (λ after.
        AreClean name_of after (Some (new_state (numbers_of params.now)))))) }
    ensures there { result ≡ Err StoreFault.StoreThere
        → IfSome (F.files shelf.old) (λ files. OPEN_HEAD_LEN ≤ length (files Head)) }
    ensures unchanged { result ≡ Err StoreFault.StoreThere
        → SameFiles (F.files shelf.old) (F.files shelf.new)
        × SameLoose (F.loose shelf.old) (F.loose shelf.new) }
    ensures kept { IfSome (F.files shelf.old) (λ files. OPEN_HEAD_LEN ≤ length (files Head)
        → SameFiles (F.files shelf.old) (F.files shelf.new)
        × SameLoose (F.loose shelf.old) (F.loose shelf.new)) }
    ensures refused { OnErr result (OnlyMakes result) }
    ensures not_made { OnErr result (LeavesNoneOrNew (numbers_of params.now)
        (F.files shelf.old) (F.files shelf.new)) }
    ensures other_files { (f : File) → f ≢ Head → f ≢ Seal 0
        → content (F.files shelf.new) f ≡ content (F.files shelf.old) f }
    ensures other_loose { (f : File) → f ≢ Head → f ≢ Seal 0 → F.loose shelf.new f ≡ F.loose shelf.old f }
    ensures flushed { OnOk result ((F.loose shelf.new Head ≡ false) × (F.loose shelf.new (Seal 0) ≡ false)) }

    ensures counts { CountsFaults (result ≡ Err StoreFault.ShelfFault) F.faults F.faultless
        shelf.old shelf.new }
{
    if shelf.len(File::Head)? >= u64::from(OPEN_HEAD_LEN) {
        return Err(StoreFault::StoreThere);
    }
    Ok(write_head(shelf, params)?)
}

// Writes the head of a store, and leaves no seal. The seal and the settings are flushed before the
// byte that opens the store is appended.
fn write_head<F: Shelf>(shelf: &mut F, params: &Params) -> Result<(), EdgeFault>
    ensures seal { OnOk result (HasOnly (content (F.files shelf.new) (Seal 0)) []) }
    ensures head { OnOk result (HasOnly (content (F.files shelf.new) Head)
        (settings_of (numbers_of params.now) ++ COMMIT_BYTE ∷ [])) }
    ensures refused { OnErr result (LeavesNoneOrNew (numbers_of params.now)
        (F.files shelf.old) (F.files shelf.new)) }
    ensures other_files { (f : File) → f ≢ Head → f ≢ Seal 0
        → content (F.files shelf.new) f ≡ content (F.files shelf.old) f }
    ensures other_loose { (f : File) → f ≢ Head → f ≢ Seal 0 → F.loose shelf.new f ≡ F.loose shelf.old f }
    ensures flushed { OnOk result ((F.loose shelf.new Head ≡ false) × (F.loose shelf.new (Seal 0) ≡ false)) }

    ensures counts { CountsFaults (IsErrOf result EdgeFault.Failed) F.faults F.faultless shelf.old shelf.new }
{
    write_settings(shelf, params)?;
    append_commit_byte(shelf, File::Head)
}

// Leaves no seal, and the settings alone in the head.
fn write_settings<F: Shelf>(shelf: &mut F, params: &Params) -> Result<(), EdgeFault>
    ensures seal { OnOk result (HasOnly (content (F.files shelf.new) (Seal 0)) []) }
    ensures head { OnOk result (HasOnly (content (F.files shelf.new) Head) (settings_of (numbers_of params.now))) }
    ensures refused { OnErr result (LeavesNone (F.files shelf.old) (F.files shelf.new)) }
    ensures other_files { (f : File) → f ≢ Head → f ≢ Seal 0
        → content (F.files shelf.new) f ≡ content (F.files shelf.old) f }
    ensures other_loose { (f : File) → f ≢ Head → f ≢ Seal 0 → F.loose shelf.new f ≡ F.loose shelf.old f }
    ensures flushed { OnOk result ((F.loose shelf.new Head ≡ false) × (F.loose shelf.new (Seal 0) ≡ false)) }

    ensures counts { CountsFaults (IsErrOf result EdgeFault.Failed) F.faults F.faultless shelf.old shelf.new }
{
    shelf.cut(File::Seal(0), 0)?;
    shelf.flush(File::Seal(0))?;
    shelf.cut(File::Head, 0)?;
    shelf.append(File::Head, &settings_of(params))?;
    shelf.flush(File::Head)
}
