use clfs_ports::{MemorySink, MemorySource, Sink, Source, SteadySink, SteadySource};
use std::alloc::{AllocError, Global};
use std::process::Abort;

// The bytes that a read gives, or how many a write takes; None stands for a fault.
type Given = Option<&'static [u8]>;

type Taken = (&'static [u8], Option<usize>);

fn reads<S: Source>(rt: &impl Abort, source: &mut S, wants: &[Given]) {
    for want in wants {
        let mut out = [0u8; 4];
        match source.read(&mut out) {
            Ok(count) => assert!(rt; Some(&out[..count]) == *want),
            Err(_) => assert!(rt; want.is_none()),
        }
    }
}

fn writes<K: Sink>(rt: &impl Abort, sink: &mut K, wants: &[Taken]) {
    for (piece, want) in wants {
        assert!(rt; sink.write(piece).ok() == *want);
    }
}

// The pieces' length, the calls that fail, and what each read gives.
const SOURCES: [(usize, &[u64], [Given; 4]); 3] = [
    (9, &[], [Some(b"abcd"), Some(b"e"), Some(b""), Some(b"")]),
    (3, &[2], [Some(b"abc"), None, Some(b"de"), Some(b"")]),
    (4, &[4, 1], [None, Some(b"abcd"), Some(b"e"), None]),
];

// The pieces' length, the calls that fail, and what each write takes.
const SINKS: [(usize, &[u64], [Taken; 3]); 2] = [
    (9, &[], [(b"ab", Some(2)), (b"", Some(0)), (b"c", Some(1))]),
    (2, &[1], [(b"x", None), (b"abc", Some(2)), (b"c", Some(1))]),
];

fn source_of(alloc: Global, piece: usize, fails: &[u64]) -> Result<MemorySource, AllocError> {
    let bytes = b"abcde".to_vec(alloc)?;
    Ok(MemorySource::new(bytes, piece.max(1), fails.to_vec(alloc)?))
}

fn sink_of(alloc: Global, piece: usize, fails: &[u64]) -> Result<MemorySink, AllocError> {
    let fails = fails.to_vec(alloc)?;
    Ok(MemorySink::new(Vec::new(alloc), piece.max(1), fails))
}

#[test]
fn pieces_that_are_read(rt: HostRuntime) -> Result<(), AllocError> {
    for (piece, fails, wants) in SOURCES {
        let mut source = source_of(rt.alloc(), piece, fails)?;
        reads(&rt, &mut source, &wants);
    }
    Ok(())
}

#[test]
fn pieces_that_are_written(rt: HostRuntime) -> Result<(), AllocError> {
    for (piece, fails, wants) in SINKS {
        let mut sink = sink_of(rt.alloc(), piece, fails)?;
        writes(&rt, &mut sink, &wants);
        assert!(rt; sink.bytes() == b"abc".as_slice());
    }
    Ok(())
}

#[test]
fn a_steady_source(rt: HostRuntime) -> Result<(), AllocError> {
    let mut source = SteadySource::new(b"abcde".to_vec(rt.alloc())?);
    reads(&rt, &mut source, &[Some(b"abcd"), Some(b"e"), Some(b"")]);
    Ok(())
}

#[test]
fn a_steady_sink(rt: HostRuntime) {
    let mut sink = SteadySink::new(Vec::new(rt.alloc()));
    let wants: [Taken; 3] = [(b"abc", Some(3)), (b"", Some(0)), (b"d", Some(1))];
    writes(&rt, &mut sink, &wants);
    assert!(rt; sink.bytes() == Some(b"abcd".as_slice()));
}
