use clfs_lsn::{Lsn, Name};
use clfs_streams::Streams;
use std::alloc::{AllocError, Global};
use std::process::Abort;

// A name of one letter.
fn name_of(alloc: Global, letter: u8) -> Result<Name, AllocError> {
    Ok(Name::from_vec(Vec::from_slice(alloc, &[letter])?))
}

// One more stream, where there are few and none has the name.
fn add(streams: &mut Streams, name: Name) -> Result<(), AllocError> {
    streams.reserve()?;
    if streams.len() < 9 && streams.number(name.as_slice()).is_none() {
        streams.add(name);
    }
    Ok(())
}

// The second stream gets this base, where there are two.
fn set_second_base(streams: &mut Streams, lsn: Lsn) {
    if streams.len() == 2 {
        streams.set_base(2, lsn);
    }
}

// There are the streams `a` and `b`, of which the second has this base.
fn are_a_and_b(streams: &Streams, base: Lsn) -> bool {
    streams.len() == 2
        && streams.number(b"b") == Some(2)
        && streams.name(1) == Some(b"a".as_slice())
        && streams.base(2) == Some(base)
        && streams.base(3).is_none()
}

fn check_two(rt: &impl Abort, alloc: Global, streams: &mut Streams) -> Result<(), AllocError> {
    add(streams, name_of(alloc, b'a')?)?;
    add(streams, name_of(alloc, b'b')?)?;
    let lsn = Lsn::of_number(7);
    set_second_base(streams, lsn);
    assert!(rt; are_a_and_b(streams, lsn));
    Ok(())
}

#[test]
fn streams_by_name_and_by_number(rt: HostRuntime) -> Result<(), AllocError> {
    let mut streams = Streams::new(rt.alloc());
    assert!(rt; streams.number(b"a").is_none());
    check_two(&rt, rt.alloc(), &mut streams)
}
