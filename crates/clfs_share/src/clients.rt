// The clients of a shared log, as they are handed to their threads and come back.
use clfs_shared::Session;

/// A client: its session, and what is done for it.
#[derive(Drop)]
pub(crate) struct Client<C> {
    pub session: Session,
    pub service: C,
}
