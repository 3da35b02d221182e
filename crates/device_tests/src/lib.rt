//! Tests of the devices of `edge_traits` and of the containers of `container_pack`, by their public
//! calls. They are in a crate of their own, so that neither crate is proved again for them.
#![tactic(auto)]

#[cfg(test)]
mod containers;
#[cfg(test)]
mod faulty_files;
#[cfg(test)]
mod folder;
#[cfg(test)]
mod generated;
#[cfg(test)]
mod packer_steps;
#[cfg(test)]
mod shelf_steps;
#[cfg(test)]
mod shelves;
#[cfg(test)]
mod standard_streams;
#[cfg(test)]
mod streams;
