// Which log it is, for types that keep areas under a lock.
//
// Of a value under a lock nothing is known but what its type says. So a type that keeps an area there is generic in the log's name, and says that its
// area's session is of that log. A call that picks the name passes `Brand` for it.
use std::marker::Brand;

/// The name of a shared log, which each call of a program picks.
pub trait LogName {
    ghost use Rattle.clfs_shared.specs.Sessions.{SharedState};

    ghost log: { SharedState };
}

impl LogName for Brand {
    ghost use Rattle.clfs_area.specs.Names.{unnamed_log};

    ghost log = { unnamed_log };
}
