// A law over the definitions, for callers to cite. Its function does nothing.
ghost use Rattle.clfs_archive.specs.Blocks.{BlocksGoOn};

/// What becomes of the ends of blocks as records join, as the log goes on to a further container, and as blocks are written.
pub fn ends_of_blocks_go_on()
    ensures { BlocksGoOn }
{}
