//! The restart areas of a stream, the newest first.
//!
//! A client that starts again reads its newest restart area and, where that isn't enough, the ones before it. They are few among
//! many records, so they have a row of their own: the heads of the stream's restart areas, sorted by LSN, and the stream's base. The
//! newest live one is the last of the row, where that is live at all; the one below an LSN is found by a search by halves.
//!
//! As with other records, a base that moves changes a number alone, and what lies after it goes only when the caller says below
//! which LSN nothing is read any more, in whole pieces. No call but `reserve` takes memory.
#![tactic(auto)]

mod row;

pub use row::RestartAreas;
