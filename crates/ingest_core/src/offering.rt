//! The chunks of an input are offered to a store.
ghost use Rattle.std.specs.Prelude.{◌≡◌, [], IsTrue, IfOk, IfSome, OnErr, OnOk, map};
ghost use Rattle.edge_traits.specs.Shelf.{content};
ghost use Rattle.ingest_core.specs.Offering.{AreOffered, AreRefused, OnlyRefuses, StandsWith};
ghost use Rattle.sd_base.specs.Cutting.{chunks_of, cuts_of};
ghost use Rattle.sd_base.specs.Parameters.{IsValid};
ghost use Rattle.sd_base.specs.States.{State};
ghost use Rattle.sd_base.specs.declared.file.File.TheVariants.{Head};
ghost use Rattle.shard_plan.specs.Leaders.{leaders_of};
ghost use Rattle.store_core.specs.Shelves.{CountsFaults};
ghost use Rattle.store_core.specs.StoreStates.{StandsFor};

use chunk_names::Namer;
use edge_traits::Shelf;
use std::alloc::Global;
use store_core::{Store, StoreFault};

/// Offers the distinct chunks of an input in order, each with its name, and returns the recipe that
/// has the numbers of all chunks. A chunk with the bytes of an earlier one is not offered: it has the
/// number of its leader. Nothing was offered to the store before.
pub(crate) fn offer_all<F: Shelf, N: Namer>(
    alloc: Global,
    store: &mut Store<&N>,
    shelf: &mut F,
    names: &[[u8; 32]],
    input: &[u8],
    cuts: &[u32],
    leaders: &[u32],
) -> Result<Vec<u32>, StoreFault>
    requires sound { IsTrue store.old.sound }
    requires none { store.old.offered ≡ [] }
    requires valid { IsValid store.old.opened.head.params }
    requires cuts { cuts.now ≡ cuts_of store.old.opened.head.params input.now }
    requires names { names.now ≡ map N.name_of (chunks_of store.old.opened.head.params input.now) }
    requires leaders { leaders.now ≡ leaders_of (chunks_of store.old.opened.head.params input.now) }

    ensures offered { IfOk result (λ recipe.
        AreOffered store.old (chunks_of store.old.opened.head.params input.now) recipe.items store.new) }
    ensures refused { OnErr result (OnlyRefuses result) }
    ensures head { OnOk result (content (F.files shelf.new) Head ≡ content (F.files shelf.old) Head) }
    ensures stands { (state : State) → IfSome (F.files shelf.old) (λ before.
        StandsFor N.name_of store.old before state []
        → IfOk result (λ recipe. IfSome (F.files shelf.new) (λ after.
        StandsWith N.name_of before store.new after state
        (chunks_of store.old.opened.head.params input.now) recipe.items))) }
    ensures stands_refused { (state : State) → IfSome (F.files shelf.old) (λ before.
        StandsFor N.name_of store.old before state []
        → OnErr result (AreRefused N.name_of state (chunks_of store.old.opened.head.params input.now)
        (F.files shelf.new) result)) }
    ensures counts { CountsFaults (result ≡ Err StoreFault.ShelfFault) F.faults F.faultless
        shelf.old shelf.new }
{
    let mut recipe = Vec::with_capacity(alloc, cuts.len())?;
    let mut start = 0u32;
    for cut in cuts {
        let place = recipe.len();
        let leader = leaders[place] as usize;
        let number = if leader < place {
            recipe[leader]
        } else {
            let chunk = &input[start as usize..*cut as usize];
            store.offer(shelf, chunk, &names[place])?
        };
        recipe.push(number)?;
        start = *cut;
    }
    Ok(recipe)
}
