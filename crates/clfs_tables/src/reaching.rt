// Where cursors come to: the record that a cursor of a stream reads next, or why there is none.
ghost use Rattle.std.specs.Prelude.{◌≡◌, IfErr, IfOk, IfSome, None, Some};
ghost use Rattle.std.specs.Option.{option_and_then, option_map};
ghost use Rattle.clfs_lsn.specs.Head.{head_of};
ghost use Rattle.clfs_lsn.specs.declared.cursor.Cursor.{Cursor};
ghost use Rattle.clfs_model.specs.declared.state.Area.{Area};
ghost use Rattle.clfs_model.specs.Reading.{next_of_cursor};
ghost use Rattle.clfs_model.specs.Refusals.{end_of_kind, next_refusal};
ghost use Rattle.clfs_tables.specs.Tables.{IsKnown, IsNumber, OfStates};

use crate::tables::Tables;
use clfs_lsn::{Cursor, CursorKind, Head, Mode};
use clfs_model::{Refusal, records_are_as_their_heads};

// What a cursor of a kind that comes to no further record has reached.
fn end_of_kind(kind: CursorKind) -> Refusal
    ensures { result ≡ end_of_kind kind }
{
    match kind {
        CursorKind::Records(Mode::Forward) => Refusal::EndOfLog,
        CursorKind::Records(Mode::Previous) => Refusal::StartOfLog,
        CursorKind::Records(Mode::UndoNext) => Refusal::StartOfLog,
        CursorKind::RestartAreas => Refusal::NoRestart,
    }
}

impl Tables {
    // The record to which a cursor of a stream comes next, by its head.
    fn next_of_cursor(&self, stream: u16, cursor: Cursor) -> Option<Head>
        requires there { IsNumber self.now.streams stream }
        requires known { IsKnown self.now.heads stream cursor.last }
        ensures { OfStates self.now (λ s. (area : Area) → area.stream ≡ stream
            → result ≡ option_map head_of (next_of_cursor s area cursor)) }
    {
        records_are_as_their_heads();
        match cursor.kind {
            CursorKind::Records(mode) => self.next(stream, mode, cursor.last),
            CursorKind::RestartAreas => self.restart_below(stream, cursor.last),
        }
    }

    /// The record to which the cursor that was found of an area on a stream comes next, by its head, or why there is none: no cursor was found,
    /// or it has come to the end of what it goes over.
    pub fn after(&self, stream: u16, found: Option<Cursor>) -> Result<Head, Refusal>
        requires there { IsNumber self.now.streams stream }
        requires known { IfSome found (λ cursor. IsKnown self.now.heads stream cursor.last) }
        ensures refused { IfErr result (λ first. OfStates self.now (λ s. (area : Area) → area.stream ≡ stream
            → next_refusal s area found ≡ Some first)) }
        ensures allowed { IfOk result (λ _. OfStates self.now (λ s. (area : Area) → area.stream ≡ stream
            → next_refusal s area found ≡ None)) }
        ensures head { IfOk result (λ head. OfStates self.now (λ s. (area : Area) → area.stream ≡ stream
            → option_map head_of (option_and_then (next_of_cursor s area) found) ≡ Some head)) }
    {
        let Some(cursor) = found else {
            return Err(Refusal::NoSuchCursor);
        };
        let kind = cursor.kind;
        match self.next_of_cursor(stream, cursor) {
            Some(head) => Ok(head),
            None => Err(end_of_kind(kind)),
        }
    }
}
