//! Disks whose calls another carries out, as the log over them sees them.
//!
//! Such a disk answers a call at once and keeps it for its host. The host makes it of the disk that it has, and tells it done; then the disk here
//! forgets it. The log between the two hands this on, and knows nothing else of it.
#![tactic(auto)]

mod carried;

pub use carried::Carried;
