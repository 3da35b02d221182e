//! Tests of the top of the tool: rows of whole runs by `run` of `backup_top` over devices in
//! memory. They are in a crate of their own, so that `backup_top` is not proved again for them.
#![tactic(auto)]

#[cfg(test)]
mod audits;
#[cfg(test)]
mod bulks;
#[cfg(test)]
mod changes;
#[cfg(test)]
mod crafted_stores;
#[cfg(test)]
mod drops;
#[cfg(test)]
mod full_stores;
#[cfg(test)]
mod notes;
#[cfg(test)]
mod plans;
#[cfg(test)]
mod runs;
#[cfg(test)]
mod shrunk_shelf;
#[cfg(test)]
mod steps;
#[cfg(test)]
mod stores;
#[cfg(test)]
mod words;
