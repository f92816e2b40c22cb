//! Tests of the whole log by scripts through the program's commands.
//!
//! The crate has no function of its own. Its tests make public calls alone, so the commands aren't proved a second time for
//! them. `runs` makes one run of the program, and `watched` is a disk that counts its calls. Scripts and their replies are in `engine`,
//! those at the limits of a log and over disks that fail in `worked`, clients at the same time in `race`, and over a disk that stops in `stopped`, generated lines in `trial`,
//! threads with permits in `crew`, threads that share flushes in `crowd`, and what is left after a crash in `crashes`. `damage` judges
//! logs whose files were changed, `dump` prints logs, `txn` serves tables, `archive` archives and restores logs, `share` lets several clients have one, and `door` programs that come and go; `faults` lets each call of the disk, the source and the sink fail in turn.
#![tactic(auto)]

#[cfg(test)]
mod archive;
#[cfg(test)]
mod crashes;
#[cfg(test)]
mod crew;
#[cfg(test)]
mod crowd;
#[cfg(test)]
mod damage;
#[cfg(test)]
mod door;
#[cfg(test)]
mod dump;
#[cfg(test)]
mod engine;
#[cfg(test)]
mod faults;
#[cfg(test)]
mod race;
#[cfg(test)]
mod runs;
#[cfg(test)]
mod share;
#[cfg(test)]
mod stopped;
#[cfg(test)]
mod trial;
#[cfg(test)]
mod txn;
#[cfg(test)]
mod watched;
#[cfg(test)]
mod worked;
