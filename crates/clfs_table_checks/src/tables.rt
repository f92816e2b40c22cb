ghost use Rattle.std.specs.Prelude.{◌≡◌, [], ◌∷◌, length, Some, IfOk};
ghost use Rattle.clfs_lsn.specs.Lsn.{null_lsn};
ghost use Rattle.clfs_lsn.specs.Heads.{head_at};
ghost use Rattle.clfs_lsn.specs.declared.entry.Head.{Head};

use clfs_base::Row;
use clfs_lsn::{Head, Kind, Lsn, Name, Place};
use clfs_model::Mode;
use clfs_tables::{Tables, open_tables};
use std::alloc::{AllocError, Global};

// A row of a stream whose name is one letter.
fn row(alloc: Global, letter: u8) -> Result<Row, AllocError>
    ensures name { IfOk result (λ row. row.name ≡ letter ∷ []) }
    ensures base { IfOk result (λ row. row.base ≡ null_lsn) }
{
    let mut bytes = Vec::new(alloc);
    bytes.push(letter)?;
    Ok(Row {
        name: Name::from_vec(bytes),
        base: Lsn::null(),
    })
}

// A head with an LSN of this number, linked to another.
fn head(number: u64, stream: u16, previous: u64) -> Head
    ensures lsn { result.lsn ≡ number }
    ensures stream { result.stream ≡ stream }
    ensures previous { result.previous ≡ previous }
    ensures undo_next { result.undo_next ≡ null_lsn }
{
    Head {
        lsn: Lsn::of_number(number),
        stream,
        kind: Kind::Plain,
        previous: Lsn::of_number(previous),
        undo_next: Lsn::null(),
        new_base: Lsn::null(),
        len: 8,
    }
}

// The tables of the streams `a` and `b`, of which the first one has the base 6, and two records below and after that.
fn tables_of(alloc: Global, a: Row, b: Row) -> Result<Tables, AllocError>
    requires first { (a.name ≡ 97 ∷ []) × (a.base ≡ null_lsn) }
    requires second { (b.name ≡ 98 ∷ []) × (b.base ≡ null_lsn) }
    ensures streams { IfOk result (λ tables. length tables.streams ≡ 2) }
    ensures low { IfOk result (λ tables. tables.low ≡ null_lsn) }
    ensures dead { IfOk result (λ tables. (head : Head) × (head_at 5 tables.heads ≡ Some head) × (head.stream ≡ 1)) }
    ensures live { IfOk result (λ tables. (head : Head) × (head_at 7 tables.heads ≡ Some head) × (head.stream ≡ 1)) }
    ensures last { IfOk result (λ tables. (head : Head) × (head_at 9 tables.heads ≡ Some head) × (head.stream ≡ 1)) }
{
    let heads = [head(5, 1, 0), head(6, 2, 0), head(7, 1, 5), head(9, 1, 7)];
    open_tables(alloc, &[a, b], &[Lsn::of_number(6), Lsn::null()], &heads)
}

fn are_named(tables: &Tables) -> bool
    requires { length tables.now.streams ≡ 2 }
{
    tables.number(b"b") == Some(2) && tables.number(b"c").is_none()
}

// The live records of the first stream are 7 and 9, and the second stream holds what is from 6 on.
fn are_live(tables: &Tables) -> bool
    requires { length tables.now.streams ≡ 2 }
{
    let place = Place {
        container: 1,
        offset: 0,
        used: 0,
        records: 0,
    };
    tables.live_at(1, Lsn::of_number(5)).is_none()
        && tables.live_at(1, Lsn::of_number(7)) == Some(head(7, 1, 5))
        && tables.last(1) == Some(head(9, 1, 7))
        && tables.hold(None, &place) == Lsn::of_number(6)
}

// Reading goes along links down to the base, and forward.
fn are_linked(tables: &Tables) -> bool
    requires streams { length tables.now.streams ≡ 2 }
    requires dead { (head : Head) × (head_at 5 tables.now.heads ≡ Some head) × (head.stream ≡ 1) }
    requires live { (head : Head) × (head_at 7 tables.now.heads ≡ Some head) × (head.stream ≡ 1) }
    requires last { (head : Head) × (head_at 9 tables.now.heads ≡ Some head) × (head.stream ≡ 1) }
{
    let seven = Some(head(7, 1, 5));
    tables.next(1, Mode::Previous, Lsn::of_number(9)) == seven
        && tables.next(1, Mode::Previous, Lsn::of_number(7)).is_none()
        && tables.next(1, Mode::Forward, Lsn::of_number(5)) == seven
}

#[test]
fn records_are_found_by_streams(rt: HostRuntime) -> Result<(), AllocError> {
    let alloc = rt.alloc();
    let tables = tables_of(alloc, row(alloc, b'a')?, row(alloc, b'b')?)?;
    assert!(rt; are_named(&tables) && are_live(&tables) && are_linked(&tables));
    Ok(())
}
