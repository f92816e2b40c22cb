// What a shared log began with, as contracts see it. No value of it is made.
use clfs_model::State;

/// The log and its disk when it was shared. Only contracts speak of it.
pub struct Opening {
    /// The state of the log machine.
    pub state: State,
    /// The disk tells what its files hold.
    pub tells_contents: bool,
    /// The disk tells what a crash leaves.
    pub tells_images: bool,
    /// The disk fails in no call but a write past a file's end.
    pub is_steady: bool,
    /// The files were at full length.
    pub is_whole: bool,
    /// How often the disk had failed.
    pub faults: u64,
    /// The disk's time.
    pub moment: u64,
}
