//! A client of a shared log is served by its own session: its lines are answered as they come, and when it leaves its areas are deleted.
//!
//! Each client has a session of the log, a source that gives its lines, and a sink that takes its replies. A line is in the language of a race, so none may
//! open the log again, and it begins with the client's own number. The loop over the lines is that of `clfs_lines`, which answers a line when its line feed is
//! there; in which order it reads and writes isn't part of a clause. So line ends, the limit of a line, and faults of the source and of the sink are those of
//! a script that is served.
//!
//! What a client is answered is told by its session: each call of its lines is the session's own next entry, at the end of a legal journal that begins with
//! all that the session had seen.
//!
//! When no more lines come the deletion of each area that the client can have is asked for, so that what it held is free for the others. Only a broken log
//! refuses that, or one at which the client has made as many calls as it may.
//!
//! `share` shares a log among clients, each served in a thread of its own, which opens the client's source and sink by its openers. Its contract tells all of
//! them by one journal, and of each client which calls its openers took: they are opened once, and closed once if that gave anything; they are refused
//! where no thread could be made, and then they aren't opened.
#![tactic(auto)]

mod clients;
mod leaving;
mod openers;
mod pairs;
mod reading;
mod seat;
mod service;
mod serving;
mod sharing;
mod threads;
mod visitors;
mod visits;

pub use openers::{OpenedPorts, Openers};
pub use pairs::{ClientEnd, EndedClient, is_any_served};
pub use serving::{Served, serve_client};
pub use sharing::{ShareRefused, Shared, share, share_visits};
pub use visitors::{ComingEnd, NoneCanCome, Visitors};
pub use visits::{VisitedClient, could_any_come, serve_visit};
