// What a group was made of, for the type that lies under its lock.
//
// Of a value under a lock nothing is known but what its type says. So a group is generic in a name for the session and the stream that it was made of,
// and its type says all that is always true of it. A call that picks the name passes `Brand` for it.
use std::marker::Brand;

/// The name of the session and of the stream that a group is made of, which each call of a program picks.
pub trait GroupName {
    ghost use Rattle.std.specs.Prelude.{ℕ};
    ghost use Rattle.clfs_shared.specs.Sessions.{SessionState};

    // The session, as it was when the group was made of it.
    ghost session: { SessionState };

    // The number of the stream that the group's area is on.
    ghost stream: { ℕ };
}

impl GroupName for Brand {
    ghost use Rattle.clfs_group.specs.Names.{unnamed_session};

    ghost session = { unnamed_session };

    ghost stream = { 0 };
}
