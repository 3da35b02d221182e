//! Tests of the crates that cut, name, compare, count and record chunks, by their public calls.
//! They are in a crate of their own, so that none of these crates is proved again for them.
#![tactic(auto)]

#[cfg(test)]
mod bit_map;
#[cfg(test)]
mod book;
#[cfg(test)]
mod cuts;
#[cfg(test)]
mod drawn;
#[cfg(test)]
mod gates;
#[cfg(test)]
mod leaders;
#[cfg(test)]
mod ledger;
#[cfg(test)]
mod maps;
#[cfg(test)]
mod naming;
#[cfg(test)]
mod params;
#[cfg(test)]
mod records;
#[cfg(test)]
mod scan;
#[cfg(test)]
mod scan_workers;
#[cfg(test)]
mod session_names;
#[cfg(test)]
mod window;
