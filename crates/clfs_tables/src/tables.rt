// The tables of the records of all streams, joined. What a search of the log asks for is answered here by searches of sorted rows, in terms of
// the heads of all records. Heads are forgotten below an LSN below which nothing is live: a link that leads there leads nowhere, and
// reading forward from there begins at the first live record, so no answer needs them. The list of all heads is told and not kept.
ghost use Rattle.std.specs.Prelude.{◌≡◌, ℕ, min, ◌+◌, ◌-◌, ◌*◌, ◌^◌, ◌<◌, ◌≤◌, [], ◌∷◌, ◌++◌, length, All, Option, Some, None, OnOk, slice_get, slice_index};
ghost use Rattle.std.specs.Option.{option_map};
ghost use Rattle.clfs_lsn.specs.Head.{head_of};
ghost use Rattle.clfs_lsn.specs.Lsn.{null_lsn};
ghost use Rattle.clfs_lsn.specs.Place.{IsSmall, frontier};
ghost use Rattle.clfs_lsn.specs.declared.entry.Head.{Head};
ghost use Rattle.clfs_model.specs.declared.state.State.{State};
ghost use Rattle.clfs_lsn.specs.declared.stream.Stream.{Stream};
ghost use Rattle.clfs_model.specs.Live.{live_at};
ghost use Rattle.clfs_model.specs.Reading.{newest_restart};
ghost use Rattle.clfs_model.specs.State.{stream_at};
ghost use Rattle.clfs_lsn.specs.Streams.{set_base, stream_number_from};
ghost use Rattle.clfs_lsn.specs.Heads.{live_head_at, last_live_head, head_at, head_above, heads_from, live_heads, next_head, stream_heads, restart_heads, restarts_among, head_below, hold_of};
ghost use Rattle.clfs_model.specs.Refusals.{stream_number};
ghost use Rattle.clfs_tables.specs.Tables.{HasSame, IsKept, IsKnown, IsNumber, OfStates, base_in, restarts_of};

use clfs_cursor::{Search, search_from};
use clfs_index::StreamIndex;
use clfs_lsn::{Head, Kind, Lsn, Mode, Name, Place};
use clfs_model::records_are_as_their_heads;
use clfs_restart::RestartAreas;
use clfs_streams::Streams;
use clfs_tail::LogTail;
use clfs_told::Told;
use std::alloc::{AllocError, Global};
use std::collections::LinkedList;
use std::marker::Model;

// The rows of one stream: all of its records, and its restart areas among them.
#[derive(Drop)]
struct StreamRow {
    index: StreamIndex,
    restarts: RestartAreas,
}

/// The tables of the records of all streams.
#[derive(Drop)]
pub struct Tables {
    alloc: Global,
    streams: Streams,
    rows: Vec<StreamRow>,
    tail: LogTail,
    low: Lsn,
    heads: Told<LinkedList<Head>>,
}

impl Model for Tables {
    ghost use Rattle.clfs_tables.specs.Tables.{Tabled};

    ghost Value = { Tabled };

    ghost use Rattle.std.specs.Prelude.{◌-◌, min, vec_len, vec_capacity};
    ghost use Rattle.clfs_tables.specs.Tables.{AreTables, room_in};

    ghost view = { λ t. record {
      streams = t.streams.streams;
      heads = t.heads.value;
      low = t.low;
      room = room_in t.rows.items;
      more = min t.streams.room (min (vec_capacity t.rows - vec_len t.rows) t.tail.room);
    } };

    ghost invariant = { AreTables };
}

impl Tables {
    /// No streams and no records.
    pub fn new(alloc: Global) -> Tables
        ensures streams { result.streams ≡ [] }
        ensures heads { result.heads ≡ [] }
        ensures low { result.low ≡ null_lsn }
    {
        Tables {
            alloc,
            streams: Streams::new(alloc),
            rows: Vec::new(alloc),
            tail: LogTail::new(alloc),
            low: Lsn::null(),
            heads: no_heads(),
        }
    }

    /// The number of streams.
    pub fn len(&self) -> usize
        ensures value { result ≡ length self.now.streams }
        ensures few { length self.now.streams < 2 ^ 16 }
    {
        self.streams.len()
    }

    /// The number of the stream of a name.
    pub fn number(&self, name: &[u8]) -> Option<u16>
        ensures { (s : State) → s.streams ≡ self.now.streams → result ≡ stream_number s name.now }
    {
        self.streams.number(name)
    }

    /// The base of the stream of a number, where there is such a stream.
    pub fn base(&self, stream: u16) -> Option<Lsn>
        ensures { (s : State) → s.streams ≡ self.now.streams → result ≡ option_map (λ (row : Stream). row.base) (stream_at s stream) }
    {
        self.streams.base(stream)
    }

    // The rows of a stream.
    fn row(&self, stream: u16) -> &StreamRow
        requires there { IsNumber self.now.streams stream }
        ensures kept { IsKept self.now.low (stream_heads stream self.now.heads) result.now.index.heads }
        ensures kept_restarts { IsKept self.now.low (restarts_of (stream_heads stream self.now.heads)) result.now.restarts.heads }
        ensures live { heads_from result.now.index.base result.now.index.heads ≡ live_heads (base_in self.now.streams stream) stream self.now.heads }
        ensures restarts { restarts_among (heads_from result.now.restarts.base result.now.restarts.heads)
            ≡ restart_heads (base_in self.now.streams stream) stream self.now.heads }
    {
        &self.rows[stream as usize - 1]
    }

    /// How many heads of a stream's records are kept, dead ones among them.
    pub fn records_kept(&self, stream: u16) -> usize
        requires there { IsNumber self.now.streams stream }
        ensures all { length (heads_from self.now.low (stream_heads stream self.now.heads)) ≤ result }
        ensures few { result ≤ 2 * length (heads_from self.now.low (stream_heads stream self.now.heads)) }
    {
        self.row(stream).index.len()
    }

    /// How many heads of a stream's restart areas are kept beside those of its records.
    pub fn restarts_kept(&self, stream: u16) -> usize
        requires there { IsNumber self.now.streams stream }
        ensures all { length (heads_from self.now.low (restarts_of (stream_heads stream self.now.heads))) ≤ result }
        ensures few { result ≤ 2 * length (heads_from self.now.low (restarts_of (stream_heads stream self.now.heads))) }
    {
        self.row(stream).restarts.len()
    }

    /// The live record of a stream at an LSN, by its head.
    pub fn live_at(&self, stream: u16, lsn: Lsn) -> Option<Head>
        requires there { IsNumber self.now.streams stream }
        ensures head { result ≡ live_head_at (base_in self.now.streams stream) stream lsn self.now.heads }
        ensures state { OfStates self.now (λ s. result ≡ option_map head_of (live_at s stream lsn)) }
    {
        records_are_as_their_heads();
        let found = self.row(stream).index.live_at(lsn)?;
        Some(found.head)
    }

    /// The last live record of a stream, by its head.
    pub fn last(&self, stream: u16) -> Option<Head>
        requires there { IsNumber self.now.streams stream }
        ensures { result ≡ last_live_head (base_in self.now.streams stream) stream self.now.heads }
    {
        self.row(stream).index.last()
    }

    /// The first live record of a stream above an LSN, by its head.
    pub fn above(&self, stream: u16, lsn: Lsn) -> Option<Head>
        requires there { IsNumber self.now.streams stream }
        ensures { result ≡ head_above lsn (live_heads (base_in self.now.streams stream) stream self.now.heads) }
    {
        let found = self.row(stream).index.above(lsn, 0)?;
        Some(found.head)
    }

    // The record of a stream at an LSN below which none was forgotten, live or not.
    #[tactic(auto, using(crate::proofs::Kept::found_kept))]
    fn at(&self, stream: u16, lsn: Lsn) -> Option<Head>
        requires there { IsNumber self.now.streams stream }
        requires kept { self.now.low ≤ lsn }
        ensures { result ≡ head_at lsn (stream_heads stream self.now.heads) }
    {
        let found = self.row(stream).index.at(lsn)?;
        Some(found.head)
    }

    /// The record where reading goes next from the one of a stream at an LSN, live or not.
    pub fn next(&self, stream: u16, mode: Mode, last: Lsn) -> Option<Head>
        requires there { IsNumber self.now.streams stream }
        requires known { IsKnown self.now.heads stream last }
        ensures { result ≡ next_head (base_in self.now.streams stream) stream mode last self.now.heads }
    {
        if let Mode::Forward = mode {
            return self.above(stream, last);
        }
        if last < self.low {
            return self.next_of_forgotten(stream, mode, last);
        }
        let head = self.at(stream, last)?;
        match search_from(mode, &head) {
            Search::At(lsn) => self.live_at(stream, lsn),
            Search::Above(lsn) => self.above(stream, lsn),
        }
    }

    // The same where the record may be forgotten. Its links lead to what is forgotten too, and nothing there is live.
    fn next_of_forgotten(&self, stream: u16, mode: Mode, last: Lsn) -> Option<Head>
        requires there { IsNumber self.now.streams stream }
        requires known { (head : Head) × (head_at last self.now.heads ≡ Some head) }
        requires forgotten { last < self.now.low }
        ensures { result ≡ next_head (base_in self.now.streams stream) stream mode last self.now.heads }
    {
        // What is true of the tables is known where a field is read.
        let _low = &self.low;
        match mode {
            Mode::Previous => None,
            Mode::UndoNext => None,
            Mode::Forward => self.above(stream, last),
        }
    }

    /// The newest live restart area of a stream, by its head.
    pub fn newest_restart(&self, stream: u16) -> Option<Head>
        requires there { IsNumber self.now.streams stream }
        ensures head { result ≡ slice_get (restart_heads (base_in self.now.streams stream) stream self.now.heads) 0 }
        ensures state { OfStates self.now (λ s. result ≡ option_map head_of (newest_restart s stream)) }
    {
        records_are_as_their_heads();
        self.row(stream).restarts.newest()
    }

    /// The newest live restart area of a stream below an LSN, by its head.
    pub fn restart_below(&self, stream: u16, lsn: Lsn) -> Option<Head>
        requires there { IsNumber self.now.streams stream }
        ensures { result ≡ head_below lsn (restart_heads (base_in self.now.streams stream) stream self.now.heads) }
    {
        self.row(stream).restarts.below(lsn)
    }

    /// The least LSN that the log still needs, by the archive tail, where archiving is on, and the place of the log.
    pub fn hold(&self, archive: Option<Lsn>, place: &Place) -> Lsn
        requires { IsSmall place.now }
        ensures { result ≡ hold_of (frontier place.now) archive (base_in self.now.streams) self.now.heads }
    {
        self.tail.hold(archive, place)
    }

    /// Makes room for one more stream.
    pub fn reserve_stream(&mut self) -> Result<(), AllocError>
        ensures same { HasSame self.old self.new }
        ensures room { self.new.room ≡ self.old.room }
        ensures more { OnOk result (1 ≤ self.new.more) }
    {
        self.streams.reserve()?;
        self.rows.reserve(1)?;
        self.tail.reserve()
    }

    /// A stream of a new name, with no base and no records, after the others. It takes no memory.
    pub fn add_stream(&mut self, name: Name)
        requires new { stream_number_from 1 name self.old.streams ≡ None }
        requires few { length self.old.streams + 1 < 2 ^ 16 }
        requires more { 1 ≤ self.old.more }
        ensures streams { self.new.streams ≡ self.old.streams ++ record { name = name; base = null_lsn } ∷ [] }
        ensures heads { self.new.heads ≡ self.old.heads }
        ensures low { self.new.low ≡ self.old.low }
    {
        self.streams.add(name);
        self.rows.push_reserved(StreamRow {
            index: StreamIndex::new(self.alloc, Lsn::null()),
            restarts: RestartAreas::new(self.alloc, Lsn::null()),
        });
        self.tail.add();
    }

    /// Makes room for one more record of a stream.
    #[inline(always)]
    pub fn reserve(&mut self, stream: u16) -> Result<(), AllocError>
        requires there { IsNumber self.old.streams stream }
        ensures same { HasSame self.old self.new }
        ensures room { OnOk result (1 ≤ slice_index self.new.room (stream - 1)) }
        ensures more { self.new.more ≡ self.old.more }
    {
        reserve_row(&mut self.rows[stream as usize - 1])
    }

    /// A record joins its stream, above all others. It takes no memory.
    pub fn put(&mut self, head: Head)
        requires there { IsNumber self.old.streams head.stream }
        requires room { 1 ≤ slice_index self.old.room (head.stream - 1) }
        requires above { All (λ (other : Head). other.lsn < head.lsn) self.old.heads }
        requires live { base_in self.old.streams head.stream ≤ head.lsn }
        requires low { self.old.low ≤ head.lsn }
        requires links { (head.previous < head.lsn) × (head.undo_next < head.lsn) }
        ensures streams { self.new.streams ≡ self.old.streams }
        ensures heads { self.new.heads ≡ self.old.heads ++ head ∷ [] }
        ensures low { self.new.low ≡ self.old.low }
        ensures more { self.new.more ≡ self.old.more }
    {
        put_row(&mut self.rows[head.stream as usize - 1], head);
        self.tail.push(head.stream, head.lsn);
        self.heads = with_head(&self.heads, &head);
    }

    /// The base of a stream moves up. It takes no memory.
    pub fn set_base(&mut self, stream: u16, lsn: Lsn)
        requires there { IsNumber self.old.streams stream }
        requires up { base_in self.old.streams stream ≤ lsn }
        ensures streams { self.new.streams ≡ set_base stream lsn self.old.streams }
        ensures heads { self.new.heads ≡ self.old.heads }
        ensures low { self.new.low ≡ self.old.low }
        ensures room { self.new.room ≡ self.old.room }
        ensures more { self.new.more ≡ self.old.more }
    {
        self.streams.set_base(stream, lsn);
        let first = move_row(&mut self.rows[stream as usize - 1], lsn);
        self.tail.set_first(stream, first);
    }

    /// Nothing below an LSN is asked for any more: no record there is live. It takes no memory.
    pub fn forget_below(&mut self, lsn: Lsn)
        requires up { self.old.low ≤ lsn }
        requires dead { All (λ (head : Head). head.lsn < lsn → head.lsn < base_in self.old.streams head.stream) self.old.heads }
        ensures streams { self.new.streams ≡ self.old.streams }
        ensures heads { self.new.heads ≡ self.old.heads }
        ensures low { self.new.low ≡ lsn }
        ensures room { (place : ℕ) → slice_index self.old.room place ≤ slice_index self.new.room place }
        ensures more { self.new.more ≡ self.old.more }
    {
        // Where nothing more may go, no row is looked at.
        if lsn == self.low {
            return;
        }
        for row in self.rows.iter_mut() {
            forget_row(row, lsn);
        }
        self.low = lsn;
    }
}

// Makes room for one more record in the rows of a stream.
fn reserve_row(row: &mut StreamRow) -> Result<(), AllocError>
    ensures index_base { row.new.index.base ≡ row.old.index.base }
    ensures index { row.new.index.heads ≡ row.old.index.heads }
    ensures restarts_base { row.new.restarts.base ≡ row.old.restarts.base }
    ensures restarts { row.new.restarts.heads ≡ row.old.restarts.heads }
    ensures room { OnOk result ((1 ≤ row.new.index.room) × (1 ≤ row.new.restarts.room)) }
{
    row.index.reserve()?;
    row.restarts.reserve()
}

// A record joins the rows of its stream.
fn put_row(row: &mut StreamRow, head: Head)
    requires room { (1 ≤ row.old.index.room) × (1 ≤ row.old.restarts.room) }
    requires above { All (λ (other : Head). other.lsn < head.lsn) row.old.index.heads }
    requires above_restarts { All (λ (other : Head). other.lsn < head.lsn) row.old.restarts.heads }
    ensures index_base { row.new.index.base ≡ row.old.index.base }
    ensures index { row.new.index.heads ≡ row.old.index.heads ++ head ∷ [] }
    ensures restarts_base { row.new.restarts.base ≡ row.old.restarts.base }
    ensures restarts { row.new.restarts.heads ≡ row.old.restarts.heads ++ restarts_of (head ∷ []) }
{
    row.index.push(head);
    if head.kind == Kind::Restart {
        row.restarts.push(head);
    }
}

// The base of the rows of a stream moves; the first live LSN is answered.
fn move_row(row: &mut StreamRow, lsn: Lsn) -> Option<Lsn>
    ensures first { result ≡ option_map (λ (head : Head). head.lsn) (slice_get (heads_from lsn row.old.index.heads) 0) }
    ensures index_base { row.new.index.base ≡ lsn }
    ensures index { row.new.index.heads ≡ row.old.index.heads }
    ensures restarts_base { row.new.restarts.base ≡ lsn }
    ensures restarts { row.new.restarts.heads ≡ row.old.restarts.heads }
    ensures room { (row.new.index.room ≡ row.old.index.room) × (row.new.restarts.room ≡ row.old.restarts.room) }
{
    row.index.set_base(lsn);
    row.restarts.set_base(lsn);
    let first = row.index.first()?;
    Some(first.lsn)
}

// Heads below an LSN may go from the rows of a stream.
fn forget_row(row: &mut StreamRow, lsn: Lsn)
    ensures index_base { row.new.index.base ≡ row.old.index.base }
    ensures index { IsKept lsn row.old.index.heads row.new.index.heads }
    ensures restarts_base { row.new.restarts.base ≡ row.old.restarts.base }
    ensures restarts { IsKept lsn row.old.restarts.heads row.new.restarts.heads }
    ensures room { min row.old.index.room row.old.restarts.room ≤ min row.new.index.room row.new.restarts.room }
{
    row.index.forget_below(lsn);
    row.restarts.forget_below(lsn);
}

// The heads of no records.
fn no_heads() -> Told<LinkedList<Head>>
    ensures { result.value ≡ [] }
{
    Told::pick(&())
}

// The heads of all records, with one more after them.
fn with_head(heads: &Told<LinkedList<Head>>, head: &Head) -> Told<LinkedList<Head>>
    ensures { result.value ≡ heads.now.value ++ head.now ∷ [] }
{
    heads.next(head)
}
