//! Tests of the store of `store_core`, and of taking in and audits by `ingest_core`, by their public
//! calls. They are in a crate of their own, so that neither crate is proved again for them.
#![tactic(auto)]

#[cfg(test)]
mod audits;
#[cfg(test)]
mod ingest;
#[cfg(test)]
mod opening;
#[cfg(test)]
mod steps;
#[cfg(test)]
mod store;
