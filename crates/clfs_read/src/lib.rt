//! The bytes of a log, judged and read from C: blocks, their records, base files and LSNs.
//!
//! The caller has the bytes, from files that it reads or maps. No export takes memory, opens a file, keeps anything between two calls or
//! ends the process. None has a condition: each tests the lengths that it is given, and answers whatever the bytes are. What is wrong is
//! told by its first byte. `include/clfs_read.h` declares the exports for C. Each says what the call of the crate below says of the same
//! bytes, by the definitions of `specs/Answers.antt`, so that what is read here is what the log reads.
#![tactic(auto)]

mod answers;
mod bases;
mod blocks;
mod lsns;
mod records;
