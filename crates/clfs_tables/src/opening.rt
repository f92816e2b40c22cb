// The tables of a log that was opened, made of what was read of its files: the streams of the newest base copy, the heads of all records, and the
// bases.
ghost use Rattle.std.specs.Prelude.{◌≡◌, ◌<◌, ◌^◌, ℕ, List, [], length, IfOk, OnOk};
ghost use Rattle.clfs_lsn.specs.declared.entry.Head.{Head};
ghost use Rattle.clfs_lsn.specs.Lsn.{null_lsn};
ghost use Rattle.clfs_base.specs.declared.image.Row.{Row};
ghost use Rattle.clfs_base.specs.Streams.{streams_with};
ghost use Rattle.clfs_tables.specs.Opening.{AreRowsAndHeads, streams_of};

use crate::tables::Tables;
use clfs_base::Row;
use clfs_lsn::{Head, Lsn, Name};
use std::alloc::{AllocError, Global};

/// The tables of these streams and records.
pub fn open_tables(
    alloc: Global,
    rows: &[Row],
    bases: &[Lsn],
    heads: &[Head],
) -> Result<Tables, AllocError>
    requires { AreRowsAndHeads rows.now bases.now heads.now }
    ensures streams { IfOk result (λ tables. tables.streams ≡ streams_with rows.now bases.now) }
    ensures heads { IfOk result (λ tables. tables.heads ≡ heads.now) }
    ensures low { IfOk result (λ tables. tables.low ≡ null_lsn) }
{
    let mut tables = Tables::new(alloc);
    add_streams(alloc, &mut tables, rows)?;
    put_heads(&mut tables, rows, bases, heads)?;
    set_bases(&mut tables, rows, bases);
    Ok(tables)
}

// A copy of a name.
fn copy_of(alloc: Global, name: &Name) -> Result<Name, AllocError>
    ensures { IfOk result (λ copy. copy ≡ name.now) }
{
    Ok(Name::from_vec(Vec::from_slice(alloc, name.as_slice())?))
}

// Adds streams of these names, with no base.
fn add_streams(alloc: Global, tables: &mut Tables, rows: &[Row]) -> Result<(), AllocError>
    requires opened { (bases : List ℕ) × (heads : List Head) × AreRowsAndHeads rows.now bases heads }
    requires none { tables.old.streams ≡ [] }
    ensures streams { OnOk result (tables.new.streams ≡ streams_of rows.now) }
    ensures heads { tables.new.heads ≡ tables.old.heads }
    ensures low { tables.new.low ≡ tables.old.low }
{
    for row in rows {
        tables.reserve_stream()?;
        let name = copy_of(alloc, &row.name)?;
        tables.add_stream(name);
    }
    Ok(())
}

// Puts records into their streams, which have no base yet.
fn put_heads(
    tables: &mut Tables,
    rows: &[Row],
    bases: &[Lsn],
    heads: &[Head],
) -> Result<(), AllocError>
    requires opened { AreRowsAndHeads rows.now bases.now heads.now }
    requires streams { tables.old.streams ≡ streams_of rows.now }
    requires none { tables.old.heads ≡ [] }
    requires low { tables.old.low ≡ null_lsn }
    ensures streams { tables.new.streams ≡ tables.old.streams }
    ensures heads { OnOk result (tables.new.heads ≡ heads.now) }
    ensures low { tables.new.low ≡ null_lsn }
{
    for head in heads {
        tables.reserve(head.stream)?;
        tables.put(*head);
    }
    Ok(())
}

// Moves the bases of the streams to these.
fn set_bases(tables: &mut Tables, rows: &[Row], bases: &[Lsn])
    requires long { length bases.now ≡ length rows.now }
    requires few { length rows.now < 2 ^ 16 }
    requires streams { tables.old.streams ≡ streams_of rows.now }
    ensures streams { tables.new.streams ≡ streams_with rows.now bases.now }
    ensures heads { tables.new.heads ≡ tables.old.heads }
    ensures low { tables.new.low ≡ tables.old.low }
{
    for (i, base) in bases.iter().enumerate() {
        tables.set_base(i as u16 + 1, *base);
    }
}
