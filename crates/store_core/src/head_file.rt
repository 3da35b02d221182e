//! The head of a store: its settings and its generation.
ghost use Rattle.std.specs.Prelude.{◌≡◌, ◌≤◌, length, take, MatchOption, IfOk, IfSome, OnErr, IsErrOf};
ghost use Rattle.edge_traits.specs.Shelf.{content};
ghost use Rattle.sd_base.specs.Opening.{HasHead, IsHeadDamage};
ghost use Rattle.sd_base.specs.Params.{numbers_of};
ghost use Rattle.sd_base.specs.Settings.{settings_of};
ghost use Rattle.sd_base.specs.Stores.{HoldNoStore};
ghost use Rattle.sd_base.specs.declared.damage.Damage.{Damage};
ghost use Rattle.sd_base.specs.declared.file.File.TheVariants.{Head};
ghost use Rattle.sd_base.specs.declared.limits.TheConstants.{SETTINGS_LEN};
ghost use Rattle.store_core.specs.Faults.{IsOfOpening};
ghost use Rattle.store_core.specs.Heads.{AreNoSettings, head_state, OnlyOpens};
ghost use Rattle.store_core.specs.Shelves.{OnlyReads};

use crate::StoreFault;
use crate::settings::{SETTINGS_SIZE, read_settings};
use edge_traits::{EdgeFault, File, Shelf};
use sd_base::{Damage, MAX_GENERATION, OPEN_HEAD_LEN, Params};

/// What the head of a store says.
#[derive(Drop)]
pub(crate) struct StoreHead {
    pub(crate) params: Params,
    pub(crate) generation: u32,
}

/// Reads the head. What it finds is the first part of the verdict of opening.
pub(crate) fn read_head<F: Shelf>(shelf: &mut F) -> Result<StoreHead, StoreFault>
    ensures head { IfOk result (λ head.
        IfSome (F.files shelf.old) (λ files. HasHead files (head_state head))) }
    ensures no_store { result ≡ Err StoreFault.NoStore → IfSome (F.files shelf.old) HoldNoStore }
    ensures damaged { (damage : Damage) → result ≡ Err (StoreFault.Damaged damage)
        → IfSome (F.files shelf.old) (λ files. IsHeadDamage files damage) }
    ensures kind { (damage : Damage) → result ≡ Err (StoreFault.Damaged damage) → IsOfOpening damage }
    ensures refused { OnErr result (OnlyOpens result) }

    ensures reads { OnlyReads (result ≡ Err StoreFault.ShelfFault) F.files F.loose F.faults F.faultless
        shelf.old shelf.new }
{
    let size = shelf.len(File::Head)?;
    if size < u64::from(OPEN_HEAD_LEN) {
        return Err(StoreFault::NoStore);
    }
    let generation = size - u64::from(OPEN_HEAD_LEN);
    match read_params(shelf)? {
        Some(params) if generation <= u64::from(MAX_GENERATION) => Ok(StoreHead {
            params,
            generation: generation as u32,
        }),
        _ => Err(StoreFault::Damaged(Damage::Head)),
    }
}

// The parameters that the settings at the front of the head have.
fn read_params<F: Shelf>(shelf: &mut F) -> Result<Option<Params>, EdgeFault>
    ensures read { IfOk result (λ params. IfSome (content (F.files shelf.old) Head) (λ bytes.
        SETTINGS_LEN ≤ length bytes → MatchOption params (AreNoSettings (take SETTINGS_LEN bytes))
        (λ params. take SETTINGS_LEN bytes ≡ settings_of (numbers_of params)))) }

    ensures reads { OnlyReads (IsErrOf result EdgeFault.Failed) F.files F.loose F.faults F.faultless
        shelf.old shelf.new }
{
    let mut settings = [0; SETTINGS_SIZE];
    let count = shelf.read_at(File::Head, 0, &mut settings)?;
    if count < SETTINGS_SIZE {
        return Ok(None);
    }
    Ok(read_settings(&settings))
}
