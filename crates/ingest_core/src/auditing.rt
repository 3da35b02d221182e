//! The audit of a store: whether its files hold a lawful state, or what is first wrong with them.
ghost use Rattle.std.specs.Prelude.{◌≡◌, ◌≤◌, [], length, Err, IfErr, IfOk, IfSome, None, OnErr, OnOk, Some};
ghost use Rattle.std.specs.List.{All, count_by};
ghost use Rattle.ingest_core.specs.Auditing.{AuditsFiles, IsOfAudit, counts_of};
ghost use Rattle.sd_base.specs.Audits.{counts_of_book};
ghost use Rattle.sd_base.specs.Books.{recipe_damage};
ghost use Rattle.sd_base.specs.Flaws.{IsFlawOf};
ghost use Rattle.sd_base.specs.Opening.{OpenAs, chunk_lengths, needed_sizes};
ghost use Rattle.sd_base.specs.declared.damage.Damage.{Damage};
ghost use Rattle.sd_base.specs.declared.limits.TheConstants.{MAX_CHUNK_LEN};
ghost use Rattle.store_core.specs.Containers.{OnlyFinds};
ghost use Rattle.store_core.specs.Shelves.{OnlyReads};

mod batch_cuts;
mod batch_names;
mod chunk_cuts;
mod chunks;
mod contents;
mod cuts;
mod marks;
mod order;
mod rules;
mod twins;

use chunk_names::Namer;
use chunks::lengths_of;
use container_pack::container_count;
use contents::check_contents;
use edge_traits::Shelf;
use marks::check_marks;
use session_book::Book;
use std::alloc::Global;
use std::thread::Threads;
use store_core::{Store, StoreFault};

/// What an audit counted in a store without a flaw.
#[derive(Clone, Copy, Debug, PartialEq, Eq)]
pub struct Audited {
    /// The number of live sessions.
    pub live: u32,
    /// The number of sessions that were taken in, dropped ones too.
    pub ingested: u32,
    /// The number of stored chunks.
    pub chunks: u32,
    /// The number of containers.
    pub containers: u32,
}

/// Looks whether the files on a shelf hold a lawful state, and writes nothing. If they do, the
/// result has the counts of that state. If not, there is no store, or the first damage is returned:
/// that of opening, or else of the marks of containers, the names of chunks, equal chunks, the order
/// of chunks, and the cuts of sessions. Dropped sessions are looked at too. `namer` names the chunks.
/// All this holds unless the shelf fails or memory runs out.
///
/// `ShelfFault` is returned only if the shelf's count of faults rose. No `ensures` clause speaks of
/// the threads of `rt`.
pub fn audit<H: Threads + Sync, F: Shelf, N: Namer>(
    rt: &H,
    alloc: Global,
    shelf: &mut F,
    namer: &N,
) -> Result<Audited, StoreFault>
    ensures audits { IfSome (F.files shelf.old) (λ files. AuditsFiles N.name_of files result) }
    ensures refused { IfErr result IsOfAudit }

    ensures reads { OnlyReads (result ≡ Err StoreFault.ShelfFault) F.files F.loose F.faults F.faultless
        shelf.old shelf.new }
{
    let store = Store::open(alloc, shelf, namer)?;
    audit_store(rt, alloc, shelf, namer, &store)
}

// Looks for the first flaw of a store that was opened, and counts what it has if there is none.
fn audit_store<H: Threads + Sync, F: Shelf, N: Namer>(
    rt: &H,
    alloc: Global,
    shelf: &mut F,
    namer: &N,
    store: &Store<&N>,
) -> Result<Audited, StoreFault>
    requires none_empty { All (λ n. 1 ≤ n) (chunk_lengths store.now.opened.book) }
    requires bounded { All (λ n. n ≤ MAX_CHUNK_LEN) (chunk_lengths store.now.opened.book) }
    requires recipes { recipe_damage [] 0 store.now.opened.book.sessions ≡ None }

    ensures flawless { OnOk result (IfSome (F.files shelf.old) (λ files.
        OpenAs files store.now.opened → IsFlawOf N.name_of files store.now.opened None)) }
    ensures counts { IfOk result (λ audited. counts_of audited ≡ counts_of_book store.now.opened.book) }
    ensures damaged { (damage : Damage) → result ≡ Err (StoreFault.Damaged damage)
        → IfSome (F.files shelf.old) (λ files.
        OpenAs files store.now.opened → IsFlawOf N.name_of files store.now.opened (Some damage)) }
    ensures refused { OnErr result (OnlyFinds result) }

    ensures reads { OnlyReads (result ≡ Err StoreFault.ShelfFault) F.files F.loose F.faults F.faultless
        shelf.old shelf.new }
{
    let book = store.book();
    let lengths = lengths_of(alloc, book.chunks())?;
    let containers = container_count(&lengths);
    check_marks(shelf, store.generation(), containers)?;
    check_contents(rt, alloc, namer, shelf, store, &lengths)?;
    Ok(counts(book, containers))
}

// What an audit counts in a book that needs so many containers.
fn counts(book: &Book, containers: u32) -> Audited
    requires containers { containers ≡ length (needed_sizes book.now) }
    ensures counts { counts_of result ≡ counts_of_book book.now }
{
    Audited {
        live: live_sessions(book),
        ingested: book.sessions(),
        chunks: book.chunk_count(),
        containers,
    }
}

// The number of live sessions of a book.
fn live_sessions(book: &Book) -> u32
    ensures live { result ≡ count_by (λ session. session.live) book.now.sessions }
{
    let mut live = 0u32;
    for session in 0..book.sessions() {
        if book.live(session) {
            live += 1;
        }
    }
    live
}
