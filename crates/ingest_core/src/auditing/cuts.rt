//! Whether the sessions of a book are cut by the parameters.
ghost use Rattle.std.specs.Prelude.{◌≡◌, ◌<◌, ◌^◌, ℕ, IfSome, List, None, [], length};
ghost use Rattle.std.specs.List.{All};
ghost use Rattle.ingest_core.specs.AuditCuts.{AllPass, AreCutsOfAll, IsFirstNotCut, IsFirstNotPassed, PassesAt, PassesIn};
ghost use Rattle.sd_base.specs.Books.{chunks_in, recipe_damage};
ghost use Rattle.sd_base.specs.CuttingLaws.{AreFilled};
ghost use Rattle.sd_base.specs.Firsts.{HoldsBelow, IsFirstFailing};
ghost use Rattle.sd_base.specs.Flaws.{AreCut, places_of_session};
ghost use Rattle.sd_base.specs.Parameters.{IsValid};
ghost use Rattle.sd_base.specs.declared.raw_params.RawParams.{RawParams};

use crate::auditing::chunk_cuts::ChunkCuts;
use sd_base::Damage;
use session_book::Book;

/// The first place of the sessions of a book, dropped ones too, whose chunk is not the one that the
/// cutting of the session's bytes has there. It takes no memory.
pub(crate) fn cut_flaw(book: &Book, cuts: &[ChunkCuts]) -> Option<Damage>
    requires recipes { recipe_damage [] 0 book.now.sessions ≡ None }
    requires one_each { length cuts.now ≡ length (chunks_in book.now.sessions) }
    ensures { (params : RawParams) (chunks : List (List ℕ)) → IsValid params → AreFilled chunks
        → AreCutsOfAll params chunks cuts.now
        → (result ≡ None → AreCut params book.now chunks)
        × IfSome result (λ damage. IsFirstNotCut params book.now chunks damage) }
{
    first_not_passed(book, cuts)
}

// The first place that does not pass.
fn first_not_passed(book: &Book, cuts: &[ChunkCuts]) -> Option<Damage>
    requires recipes { recipe_damage [] 0 book.now.sessions ≡ None }
    requires one_each { length cuts.now ≡ length (chunks_in book.now.sessions) }
    ensures all { result ≡ None → AllPass cuts.now book.now }
    ensures first { IfSome result (λ damage. IsFirstNotPassed cuts.now book.now damage) }
{
    for session in 0..book.sessions() {
        if let Some(place) = place_of_session(book, cuts, session) {
            return Some(Damage::Cut { session, place });
        }
    }
    None
}

// The first place of a session that does not pass.
fn place_of_session(book: &Book, cuts: &[ChunkCuts], session: u32) -> Option<u32>
    requires recipes { recipe_damage [] 0 book.now.sessions ≡ None }
    requires one_each { length cuts.now ≡ length (chunks_in book.now.sessions) }
    ensures all { result ≡ None
        → HoldsBelow (places_of_session book.now session) (PassesIn cuts.now book.now session) }
    ensures first { IfSome result (λ place.
        IsFirstFailing (places_of_session book.now session) (PassesIn cuts.now book.now session) place) }
{
    let Some(entry) = book.session(session) else {
        return None;
    };
    let recipe = entry.recipe.as_slice();
    prove!(recipe.len() <= book.places() as usize);
    place_not_cut(recipe, cuts)
}

// The first place of a recipe that does not pass: its chunk has a cut inside, or another place
// follows though no chunk may follow.
fn place_not_cut(recipe: &[u32], cuts: &[ChunkCuts]) -> Option<u32>
    requires named { All (λ n. n < length cuts.now) recipe.now }
    requires places { length recipe.now < 2 ^ 32 }
    ensures all { result ≡ None → HoldsBelow (length recipe.now) (PassesAt cuts.now recipe.now) }
    ensures first { IfSome result (λ place.
        IsFirstFailing (length recipe.now) (PassesAt cuts.now recipe.now) place) }
{
    for place in 0..recipe.len() {
        let chunk = cuts[recipe[place] as usize];
        let is_last = place + 1 == recipe.len();
        if !chunk.is_uncut || !(is_last || chunk.may_be_followed) {
            return Some(place as u32);
        }
    }
    None
}
