//! Sessions of several clients over one log, one call at a time, each with one place in one journal.
//!
//! A shared log is a manager under the turn lock, with the journal of all calls that were made since it was shared. A session is a seat at the
//! lock: it knows a beginning of the journal, in which are all calls of its own client. A call waits for the turn, is made by the manager, and
//! stands at the end of the journal with its reply; the session has then seen all of it. So each reply is the log machine's at the end of a legal
//! journal that begins with all that the session had seen.
//!
//! What a step needs is taken before the manager is called: room for the entry, a copy of the call, and memory for a copy of any reply. If one of
//! these can't be had the answer is that there is no memory, and nothing has changed. So no call is made without its entry.
//!
//! The journal has two forms (`recorder.rt`), by one text and one proof: it is kept in memory and handed out when the log is closed, or it is told
//! to contracts alone, and memory doesn't grow with it.
//!
//! Nothing of a call lies under the lock while it waits, and the lock tells nothing of who comes next. `order.rt` lets calls that wait to the
//! lock one at a time, by the rules of `waiting.rt`: those that flush after the others, so that one flush writes what several wait for; no clause rests
//! on that.
#![tactic(auto)]

mod copies;
mod crashes;
mod entries;
mod kept;
mod locked;
mod opening;
mod order;
mod recorder;
mod shared;
mod told;
mod waiting;

pub use crashes::flushed_records_outlive_crashes;
pub use kept::KeptJournal;
pub use opening::Opening;
pub use recorder::Recorder;
pub use shared::{Closed, Session, SharedLog, StartRefused};
pub use told::ToldJournal;
