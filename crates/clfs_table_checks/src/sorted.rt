ghost use Rattle.std.specs.Prelude.{◌≡◌, []};

use clfs_lsn::{Head, Kind, Lsn, forget_below, place_of};
use std::alloc::AllocError;
use std::process::Abort;

// A head with an LSN of this number.
fn head(number: u64) -> Head
    ensures { result.lsn ≡ number }
{
    Head {
        lsn: Lsn::of_number(number),
        stream: 1,
        kind: Kind::Plain,
        previous: Lsn::null(),
        undo_next: Lsn::null(),
        new_base: Lsn::null(),
        len: 8,
    }
}

// Of the heads 3, 5 and 7 only so many go that they are half of the row.
fn check_front(rt: &impl Abort, heads: &mut Vec<Head>) -> Result<(), AllocError>
    requires { heads.old.items ≡ [] }
{
    heads.push(head(3))?;
    heads.push(head(5))?;
    heads.push(head(7))?;
    assert!(rt; place_of(heads.as_slice(), Lsn::of_number(5)) == 1);
    assert!(rt; place_of(heads.as_slice(), Lsn::of_number(6)) == 2);
    forget_below(heads, Lsn::of_number(5));
    assert!(rt; heads.len() == 3);
    forget_below(heads, Lsn::of_number(6));
    assert!(rt; heads.as_slice() == [head(7)].as_slice());
    Ok(())
}

#[test]
fn the_front_goes_in_whole_pieces(rt: HostRuntime) -> Result<(), AllocError> {
    let mut heads = Vec::new(rt.alloc());
    check_front(&rt, &mut heads)
}
