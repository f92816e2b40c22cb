//! Tests of what stands on files: ports, disks, the folder of the system, containers, the base file's copies and blocks that are
//! written, kept and read again.
//!
//! The crate has no function of its own. Its tests make public calls alone, so no crate below is proved a second time for them.
#![tactic(auto)]

#[cfg(test)]
mod buffers;
#[cfg(test)]
mod container;
#[cfg(test)]
mod disk;
#[cfg(test)]
mod files;
#[cfg(test)]
mod folder;
#[cfg(test)]
mod paths;
#[cfg(test)]
mod physical;
#[cfg(test)]
mod ports;
#[cfg(test)]
mod recover;
#[cfg(test)]
mod watched;
