// One run of the program: the words, the script that comes in pieces, the disk; and what it came to.
use clfs_disk::{Disk, Memory};
use clfs_engine::{DONE, Outcome, run};
use clfs_ports::{MemorySink, MemorySource};
use std::alloc::{AllocError, Global};
use std::process::Abort;
use std::sync::Wait;
use std::thread::Threads;

// Blocks of two sectors, and two containers of eight.
pub(crate) const SMALL: [&str; 3] = ["2", "8", "2"];

// A call that isn't reached.
pub(crate) const NEVER: u64 = u64::MAX;

// The length of the pieces in which bytes come or go, and the call that fails.
pub(crate) type Pieces = (usize, u64);

// What a run is given but its disk.
#[derive(Drop)]
pub(crate) struct Inputs {
    words: Vec<String>,
    source: MemorySource,
    sink: MemorySink,
}

// What a run came to.
#[derive(Drop)]
pub(crate) struct Ran<D: Disk> {
    pub(crate) status: u8,
    sink: MemorySink,
    pub(crate) disk: D,
}

impl<D: Disk> Ran<D> {
    pub(crate) fn written(&self) -> &[u8] {
        self.sink.bytes()
    }

    // It ended with this status, and wrote this.
    pub(crate) fn is(&self, status: u8, written: &[u8]) -> bool {
        self.status == status && self.sink.bytes() == written
    }
}

pub(crate) fn words(alloc: Global, texts: &[&str]) -> Result<Vec<String>, AllocError> {
    let mut words = Vec::new(alloc);
    for text in texts {
        words.push(String::from_str(alloc, text)?)?;
    }
    Ok(words)
}

// The words that make a log of these sizes.
pub(crate) fn format_words<'a>(sizes: [&'a str; 3]) -> [&'a str; 7] {
    let [block, container, containers] = sizes;
    [
        "format",
        "--block-sectors",
        block,
        "--container-sectors",
        container,
        "--containers",
        containers,
    ]
}

pub(crate) fn source_of(
    alloc: Global,
    script: &[u8],
    pieces: Pieces,
) -> Result<MemorySource, AllocError> {
    let bytes = script.to_vec(alloc)?;
    let (piece, fails) = pieces;
    Ok(MemorySource::new(bytes, piece.max(1), vec![in alloc; fails]?))
}

pub(crate) fn sink_of(alloc: Global, pieces: Pieces) -> Result<MemorySink, AllocError> {
    let (piece, fails) = pieces;
    Ok(MemorySink::new(Vec::new(alloc), piece.max(1), vec![in alloc; fails]?))
}

pub(crate) fn given(
    alloc: Global,
    texts: &[&str],
    script: &[u8],
    source: Pieces,
    sink: Pieces,
) -> Result<Inputs, AllocError> {
    Ok(Inputs {
        words: words(alloc, texts)?,
        source: source_of(alloc, script, source)?,
        sink: sink_of(alloc, sink)?,
    })
}

pub(crate) fn run_on<D: Disk + Send + Drop>(
    rt: &(impl Threads + Wait + Sync),
    alloc: Global,
    given: Inputs,
    disk: D,
) -> Ran<D> {
    let Inputs {
        words,
        mut source,
        mut sink,
    } = given;
    let Outcome { status, disk } = run(rt, alloc, &words, &mut source, &mut sink, disk);
    Ran { status, sink, disk }
}

// What a run came to.
pub(crate) fn came<D: Disk>(status: u8, sink: MemorySink, disk: D) -> Ran<D> {
    Ran { status, sink, disk }
}

// Runs `format` for a log of these sizes.
pub(crate) fn format_on<D: Disk + Send + Drop>(
    rt: &(impl Threads + Wait + Sync),
    alloc: Global,
    sizes: [&str; 3],
    disk: D,
) -> Result<Ran<D>, AllocError> {
    let given = given(alloc, &format_words(sizes), b"", (1, NEVER), (10, NEVER))?;
    Ok(run_on(rt, alloc, given, disk))
}

// A disk in memory with a log that has just been made.
pub(crate) fn formatted(
    rt: &(impl Abort + Threads + Wait + Sync),
    alloc: Global,
    sizes: [&str; 3],
) -> Result<Memory, AllocError> {
    let ran = format_on(rt, alloc, sizes, Memory::new(alloc, 2048, 8388608, &[])?)?;
    assert!(rt; ran.status == DONE);
    Ok(ran.disk)
}

// Runs `serve` over a script.
pub(crate) fn served<D: Disk + Send + Drop>(
    rt: &(impl Threads + Wait + Sync),
    alloc: Global,
    disk: D,
    script: &[u8],
) -> Result<Ran<D>, AllocError> {
    let given = given(alloc, &["serve"], script, (4096, NEVER), (4096, NEVER))?;
    Ok(run_on(rt, alloc, given, disk))
}

// Runs `serve` over a script that comes and goes in small pieces, and has these replies.
pub(crate) fn check_script<D: Disk + Send + Drop>(
    rt: &(impl Abort + Threads + Wait + Sync),
    alloc: Global,
    disk: D,
    script: &[u8],
    want: &[u8],
) -> Result<D, AllocError> {
    let given = given(alloc, &["serve"], script, (7, NEVER), (5, NEVER))?;
    let ran = run_on(rt, alloc, given, disk);
    assert!(rt; ran.is(DONE, want));
    Ok(ran.disk)
}

// The same on a log that has just been made.
pub(crate) fn check_new(
    rt: &(impl Abort + Threads + Wait + Sync),
    alloc: Global,
    sizes: [&str; 3],
    script: &[u8],
    want: &[u8],
) -> Result<(), AllocError> {
    check_script(rt, alloc, formatted(rt, alloc, sizes)?, script, want)?;
    Ok(())
}

pub(crate) fn push_zeros(script: &mut Vec<u8>, count: usize) -> Result<(), AllocError> {
    for _ in 0..count {
        script.extend_from_slice(b"00")?;
    }
    Ok(())
}

// Writes a word of a row out in full: `Z960` for so many zero bytes, `_` for two links to nothing.
fn push_word(script: &mut Vec<u8>, word: &str) -> Result<(), AllocError> {
    match word {
        "Z960" => push_zeros(script, 960),
        "Z961" => push_zeros(script, 961),
        "_" => script.extend_from_slice(b"0:0:0 0:0:0"),
        _ => script.extend_from_slice(word.as_bytes()),
    }
}

fn push_line(script: &mut Vec<u8>, line: &str) -> Result<(), AllocError> {
    let mut first = true;
    for word in line.split(' ') {
        if !first {
            script.push(b' ')?;
        }
        push_word(script, word)?;
        first = false;
    }
    script.push(b'\n')?;
    Ok(())
}

// Writes the lines of a row out in full.
fn push_lines(script: &mut Vec<u8>, row: &str) -> Result<(), AllocError> {
    for line in row.lines() {
        push_line(script, line)?;
    }
    Ok(())
}

// The script of a row, its words written out in full, after another text.
pub(crate) fn written_behind(
    alloc: Global,
    front: &[u8],
    row: &str,
) -> Result<Vec<u8>, AllocError> {
    let mut script = front.to_vec(alloc)?;
    push_lines(&mut script, row)?;
    Ok(script)
}

// The script of a row, its words written out in full.
pub(crate) fn written_out(alloc: Global, row: &str) -> Result<Vec<u8>, AllocError> {
    written_behind(alloc, b"", row)
}

// Two texts, one after the other.
pub(crate) fn joined(alloc: Global, front: &[u8], more: &[u8]) -> Result<Vec<u8>, AllocError> {
    let mut text = front.to_vec(alloc)?;
    text.extend_from_slice(more)?;
    Ok(text)
}

// The lines of a text, and what stands after the last line feed.
pub(crate) fn lines_of(alloc: Global, text: &[u8]) -> Result<Vec<&[u8]>, AllocError> {
    let mut lines = Vec::new(alloc);
    for line in text.split(|byte| *byte == b'\n') {
        lines.push(line)?;
    }
    Ok(lines)
}
