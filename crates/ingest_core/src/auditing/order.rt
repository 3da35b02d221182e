//! The look for chunks that are out of the order in which they first occur.
ghost use Rattle.std.specs.Prelude.{◌≡◌, ◌<◌, ◌≤◌, ◌^◌, suc, [], length, IfSome, None};
ghost use Rattle.std.specs.List.{All};
ghost use Rattle.ingest_core.specs.AuditOrder.{IsFirstOutOfOrder, IsPlaceInOrder};
ghost use Rattle.sd_base.specs.Books.{recipe_damage};
ghost use Rattle.sd_base.specs.Firsts.{HoldsBelow, IsFirstFailing};
ghost use Rattle.sd_base.specs.Flaws.{AreInOrder};

use sd_base::Damage;
use session_book::Book;

/// The first place of a session, live or dropped, that is out of order: its entry is above the
/// number of chunks that have occurred before it. If the place is the number of places, then a new
/// chunk of the session occurs nowhere in its recipe.
pub(crate) fn order_flaw(book: &Book) -> Option<Damage>
    requires recipes { recipe_damage [] 0 book.now.sessions ≡ None }
    ensures none { result ≡ None → AreInOrder book.now }
    ensures first { IfSome result (λ damage. IsFirstOutOfOrder book.now damage) }
{
    let mut known = 0u32;
    for session in 0..book.sessions() {
        let entry = book.session(session)?;
        let recipe = entry.recipe.as_slice();
        let fresh = entry.fresh.as_slice().len();
        prove!(recipe.len() <= book.places() as usize);
        prove!(known as usize + fresh <= book.chunk_count() as usize);
        let total = known + fresh as u32;
        if let Some(place) = place_out_of_order(recipe, known, total) {
            return Some(Damage::Order { session, place });
        }
        known = total;
    }
    None
}

// The first place of a recipe whose entry is above the number of chunks that have occurred before
// it: at first those of earlier sessions. The end counts as one place more: there all chunks up to
// and with the session must have occurred.
fn place_out_of_order(recipe: &[u32], known: u32, total: u32) -> Option<u32>
    requires fits { length recipe.now < 2 ^ 32 }
    requires named { All (λ n. n < total) recipe.now }
    requires grows { known ≤ total }
    ensures none { result ≡ None
        → HoldsBelow (suc (length recipe.now)) (IsPlaceInOrder known recipe.now total) }
    ensures first { IfSome result (λ place.
        IsFirstFailing (suc (length recipe.now)) (IsPlaceInOrder known recipe.now total) place) }
{
    let mut occurred = known;
    for (place, entry) in recipe.iter().enumerate() {
        if *entry > occurred {
            return Some(place as u32);
        }
        if *entry == occurred {
            occurred += 1;
        }
    }
    if occurred == total {
        None
    } else {
        Some(recipe.len() as u32)
    }
}
