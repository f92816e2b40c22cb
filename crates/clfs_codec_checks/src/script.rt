ghost use Rattle.std.specs.Prelude.{◌≤◌, length};

use clfs_lsn::{Bytes, Kind, LogEntry, Lsn};
use clfs_model::{Call, Draft, Extent, Extents, LogInfo, Refusal, Reply};
use clfs_script::{Language, LineRefusal, Request, ScriptLine, parse_line, write_reply};
use std::alloc::{AllocError, Global};

// The place at which a line is bad; none where it asks for something.
fn bad_place(alloc: Global, language: Language, line: &[u8]) -> Option<u32>
    requires { length line.now ≤ 4294967295 }
{
    match parse_line(alloc, language, line) {
        Ok(_) => None,
        Err(LineRefusal::BadLine { at }) => Some(at),
        Err(LineRefusal::NoMemory) => Some(u32::MAX),
    }
}

// The front of a line up to a place, and more after it.
fn joined(alloc: Global, front: &[u8], more: &[u8]) -> Result<Vec<u8>, AllocError> {
    let mut line = front.to_vec(alloc)?;
    line.extend_from_slice(more)?;
    Ok(line)
}

// The front of a form is a line, or goes wrong at its length. A word that no form has, and an empty word, go wrong where they begin.
fn is_right_front(alloc: Global, front: &[u8], is_line: bool) -> Result<bool, AllocError>
    requires { length front.now ≤ 1000 }
{
    let language = Language::CallsAndReopening;
    let end = front.len() as u32;
    let want = if is_line { None } else { Some(end) };
    if bad_place(alloc, language, front) != want {
        return Ok(false);
    }
    // Any word can be a name, unless it is empty.
    let is_named = front.ends_with(b"open");
    let no_word = joined(alloc, front, b" %")?;
    let empty_word = joined(alloc, front, b" ")?;
    if no_word.len() > 1002 || empty_word.len() > 1002 {
        return Ok(false);
    }
    Ok(
        (is_named || bad_place(alloc, language, &no_word) == Some(end + 1))
            && bad_place(alloc, language, &empty_word) == Some(end + 1),
    )
}

// Each front of a form that ends with a word is right, where those of so many words are lines.
fn are_right_fronts(alloc: Global, form: &[u8], whole: &[u32]) -> Result<bool, AllocError> {
    if form.len() > 1000 {
        return Ok(false);
    }
    let mut words: u32 = 0;
    for end in 0..=form.len() {
        if end < form.len() && form[end] != b' ' {
            continue;
        }
        words = words.wrapping_add(1);
        if !is_right_front(alloc, &form[..end], whole.contains(&words))? {
            return Ok(false);
        }
    }
    Ok(true)
}

// A form, and how many words its lines have.
const FORMS: [(&[u8], &[u32]); 32] = [
    (b"1 open ab", &[3]),
    (b"64 area 65535 4294967295 16", &[5]),
    (b"1 drop 16", &[3]),
    (
        b"1 reserve 1 0 4294967295 3 4 5 6 7 8 9 10 11 12 13 14 15 16",
        &[4, 5, 6, 7, 8, 9, 10, 11, 12, 13, 14, 15, 16, 17, 18, 19],
    ),
    (b"1 release 1 4294967295", &[4]),
    (
        b"1 align 1 0 4294967295 3 4 5 6 7 8 9 10 11 12 13 14 15 16",
        &[4, 5, 6, 7, 8, 9, 10, 11, 12, 13, 14, 15, 16, 17, 18, 19],
    ),
    (b"1 append 1 0aFf 1:200:1ff ffffffff:fffffe00:0", &[6]),
    (
        b"1 append 1 - 0:0:0 0:0:0 reserved seal flush",
        &[6, 7, 8, 9],
    ),
    (
        b"1 append 1 - 0:0:0 0:0:0 reserved flush hold 1",
        &[6, 7, 8, 10],
    ),
    (b"1 append 1 - 0:0:0 0:0:0 seal hold 0 1", &[6, 7, 9, 10]),
    (
        b"1 append 1 - 0:0:0 0:0:0 hold 1 2 3 4 5 6 7 8 9 10 11 12 13 14 15 16",
        &[
            6, 8, 9, 10, 11, 12, 13, 14, 15, 16, 17, 18, 19, 20, 21, 22, 23,
        ],
    ),
    (b"1 flush 1", &[3]),
    (b"1 flushto 1 1:0:0", &[4]),
    (b"1 read 1 1:0:0 previous", &[5]),
    (b"1 read 1 1:0:0 undo", &[5]),
    (b"1 read 1 1:0:0 forward", &[5]),
    (b"1 next 1 16", &[4]),
    (b"1 end 1 1", &[4]),
    (b"1 restart 1 00 1:0:0 reserved", &[5, 6]),
    (b"1 restart 1 - -", &[5]),
    (b"1 readrestart 1", &[3]),
    (b"1 prevrestart 1 1", &[4]),
    (b"1 advance 1 1:0:0", &[4]),
    (b"1 archive on", &[3]),
    (b"1 tail 1:0:0", &[3]),
    (b"1 extents", &[2]),
    (b"1 policy max 65535", &[4]),
    (b"1 policy auto", &[3]),
    (b"1 unpolicy growth", &[3]),
    (b"1 size 65535", &[3]),
    (b"1 info 65535", &[3]),
    (b"1 reopen", &[2]),
];

#[test]
fn fronts_of_every_form(rt: HostRuntime) -> Result<(), AllocError> {
    for (form, whole) in FORMS {
        assert!(rt; are_right_fronts(rt.alloc(), form, whole)?, "{form:?}");
    }
    Ok(())
}

// A line, and the place of its first bad word.
const BAD_LINES: [(&[u8], u32); 33] = [
    (b"", 0),
    (b" ", 0),
    (b" 1 extents", 0),
    (b"0 extents", 0),
    (b"65 extents", 0),
    (b"01 extents", 0),
    (b"+1 extents", 0),
    (b"1  extents", 2),
    (b"1 Extents", 2),
    (b"1 extents\r", 2),
    (b"1 drop 0", 7),
    (b"1 drop 17", 7),
    (b"1 area 0 1 1", 7),
    (b"1 area 65536 1 1", 7),
    (b"1 area 1 4294967296 1", 9),
    (b"1 area 1 1 17", 11),
    (b"1 area 1 1 0", 11),
    (b"1 size 65536", 7),
    (b"1 flushto 1 1:A00:0", 12),
    (b"1 flushto 1 1:100:0", 12),
    (b"1 flushto 1 1:0:200", 12),
    (b"1 flushto 1 100000000:0:0", 12),
    (b"1 flushto 1 1:00:0", 12),
    (b"1 flushto 1 1:0", 12),
    (b"1 flushto 1 1:0:0:0", 12),
    (b"1 append 1 abc 0:0:0 0:0:0", 11),
    (b"1 append 1 ag 0:0:0 0:0:0", 11),
    (b"1 append 1 - 0:0:0 0:0:0 seal seal", 30),
    (b"1 append 1 - 0:0:0 0:0:0 flush seal", 31),
    (b"1 append 1 - 0:0:0 0:0:0 hold 1 reserved", 32),
    (b"1 reserve 1 1 2 3 4 5 6 7 8 9 10 11 12 13 14 15 16 17", 51),
    (b"1 policy auto 1", 14),
    (b"1 archive reopen", 10),
];

#[test]
fn places_of_bad_words(rt: HostRuntime) {
    for (line, at) in BAD_LINES {
        assert!(rt;
            is_bad_at(rt.alloc(), Language::CallsAndReopening, line, Some(at)),
            "{line:?}"
        );
    }
    assert!(rt; is_bad_at(rt.alloc(), Language::CallsAlone, b"1 reopen", Some(2)));
    assert!(rt; is_bad_at(rt.alloc(), Language::CallsAlone, b"1 extents", None));
}

// A short line is bad at this place, or asks for something.
fn is_bad_at(alloc: Global, language: Language, line: &[u8], at: Option<u32>) -> bool {
    line.len() <= 1000 && bad_place(alloc, language, line) == at
}

// The data, the links and the flags of a draft.
fn is_draft(draft: &Draft) -> bool {
    draft.seal
        && draft.flush
        && draft.bytes.as_slice() == [10, 255].as_slice()
        && draft.previous.number() == (2 << 32) + 1024 + 511
        && draft.undo_next.number() == 1 << 32
}

fn is_append(call: &Call) -> bool {
    match call {
        Call::Append {
            area,
            draft,
            reserved,
            sizes,
        } => *area == 3 && *reserved && is_draft(draft) && sizes.as_slice() == [5, 0].as_slice(),
        _ => false,
    }
}

fn is_line_of_append(line: &ScriptLine) -> bool {
    match &line.request {
        Request::Step(call) => line.client == 7 && is_append(call),
        _ => false,
    }
}

#[test]
fn an_append_with_all_options(rt: HostRuntime) {
    let text = b"7 append 3 0aFf 2:400:1ff 1:0:0 reserved seal flush hold 5 0";
    let parsed = parse_line(rt.alloc(), Language::CallsAlone, text);
    assert!(rt; parsed.is_ok_and(|line| is_line_of_append(&line)));
}

// The line of a reply stands after what was there.
fn is_written(alloc: Global, reply: &Reply, want: &[u8]) -> Result<bool, AllocError> {
    let mut out = Bytes::from_vec(b"before\n".to_vec(alloc)?);
    write_reply(9, reply, &mut out)?;
    Ok(out.as_slice().strip_prefix(b"before\n9 ") == Some(want))
}

fn are_short_replies_written(alloc: Global) -> Result<bool, AllocError> {
    let lsn = Lsn::of_number((0xa << 32) + 0x1200 + 0x1ff);
    let last = Lsn::of_number(u64::MAX);
    Ok(
        is_written(alloc, &Reply::Placed(lsn), b"lsn a:1200:1ff\n")?
            && is_written(alloc, &Reply::Flushed(Lsn::null()), b"flushed 0:0:0\n")?
            && is_written(alloc, &Reply::Base(lsn), b"base a:1200:1ff\n")?
            && is_written(alloc, &Reply::Tail(last), b"tail ffffffff:fffffe00:1ff\n")?
            && is_written(alloc, &Reply::Stream(65535), b"stream 65535\n")?
            && is_written(alloc, &Reply::Area(16), b"area 16\n")?,
    )
}

fn are_numbers_written(alloc: Global) -> Result<bool, AllocError> {
    let full = Refusal::Full {
        free: 1,
        reserved: 20,
        need: 300,
    };
    Ok(
        is_written(alloc, &Reply::Done, b"ok\n")?
            && is_written(alloc, &Reply::Held(0), b"held 0\n")?
            && is_written(alloc, &Reply::Sectors(4294967295), b"sectors 4294967295\n")?
            && is_written(alloc, &Reply::Containers(256), b"containers 256\n")?
            && is_written(
                alloc,
                &Reply::Refused(Refusal::EndOfLog),
                b"refused 18 EndOfLog\n",
            )?
            && is_written(alloc, &Reply::Refused(full), b"refused 5 Full 1 20 300\n")?,
    )
}

#[test]
fn texts_of_replies(rt: HostRuntime) -> Result<(), AllocError> {
    assert!(rt; are_short_replies_written(rt.alloc())?);
    assert!(rt; are_numbers_written(rt.alloc())?);
    Ok(())
}

// A restart area of 130 bytes.
fn restart_area(alloc: Global) -> Result<LogEntry, AllocError> {
    Ok(LogEntry {
        lsn: Lsn::of_number(1 << 32),
        stream: 1,
        kind: Kind::Restart,
        previous: Lsn::null(),
        undo_next: Lsn::of_number(2),
        new_base: Lsn::of_number(512),
        bytes: Bytes::from_vec(vec![in alloc; 0xa5; 130]?),
    })
}

fn is_record_written(alloc: Global, entry: LogEntry) -> Result<bool, AllocError> {
    let mut out = Bytes::from_vec(Vec::new(alloc));
    write_reply(1, &Reply::Found { cursor: 16, entry }, &mut out)?;
    let front = b"1 cursor 16 record 1:0:0 restart 0:0:0 0:0:2 0:200:0 a5a5".as_slice();
    Ok(
        out.as_slice().starts_with(front)
            && out.len() == 53 + 260 + 1
            && out.as_slice().ends_with(b"a5a5\n"),
    )
}

const EXTENTS: [Extent; 2] = [
    Extent {
        container: 10,
        low: 0,
        high: 4096,
    },
    Extent {
        container: 11,
        low: 512,
        high: 1024,
    },
];

fn are_extents_written(alloc: Global) -> Result<bool, AllocError> {
    let extents = Extents::from_vec(Vec::from_slice(alloc, &EXTENTS)?);
    is_written(
        alloc,
        &Reply::Extents(extents),
        b"extents 2 a:0-1000 b:200-400\n",
    )
}

const INFO_LINE: &[u8] =
    b"info containers 2 free 1 size 16384 sectors 30000 reserved 7 base 0:0:0 last 1:0:0 flushed 1:200:0 restart 0:0:0 archive off\n";

fn is_info_written(alloc: Global) -> Result<bool, AllocError> {
    let info = LogInfo {
        containers: 2,
        free_containers: 1,
        container_sectors: 16384,
        free_sectors: 30000,
        reserved: 7,
        base: Lsn::null(),
        last: Lsn::of_number(1 << 32),
        flushed: Lsn::of_number((1 << 32) + 512),
        restart: Lsn::null(),
        archive: None,
    };
    is_written(alloc, &Reply::Info(info), INFO_LINE)
}

#[test]
fn texts_of_records_extents_and_the_log(rt: HostRuntime) -> Result<(), AllocError> {
    let alloc = rt.alloc();
    let entry = restart_area(alloc)?;
    assert!(rt; is_record_written(alloc, entry)?);
    assert!(rt; are_extents_written(alloc)? && is_info_written(alloc)?);
    Ok(())
}
