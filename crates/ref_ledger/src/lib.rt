//! Reference counts: how often the places of the live sessions name each chunk of a store. The
//! counts are those of lists of places that were added, less those that were dropped. The crate uses
//! `sd_base`. All rules here are this project's own.
#![tactic(auto)]

mod ledger;

pub use ledger::Ledger;
