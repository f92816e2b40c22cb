// Which paths the clients of a shared log may have.
use clfs_disk::Disk;
use clfs_files::{ClientPaths, Folder, SeenFiles};
use std::os::unix::fs::symlink;
use std::{env, fs, io, process};

// A folder of this test's own, with a log's folder, an empty file by two names and a link, and a file with bytes.
fn make_room(rt: &HostRuntime) -> io::Result<String> {
    let folder = env::temp_dir(rt)?;
    let process = process::id(rt.process());
    let room = format!(in rt.alloc(); "{}/clfs_paths_{process}", folder.as_path().as_str())?;
    let _none = fs::remove_dir_all(rt, &room);
    fs::create_dir(rt, &room)?;
    let mut log = Folder::new(*rt, below(rt, &room, "log")?);
    let _made = (log.grow(0, 8), log.grow(256, 8));
    fs::write(rt, &below(rt, &room, "empty")?, "")?;
    fs::write(rt, &below(rt, &room, "bytes")?, "1 open s\n")?;
    fs::hard_link(rt, &below(rt, &room, "empty")?, &below(rt, &room, "name")?)?;
    symlink(
        rt,
        &below(rt, &room, "log/c256")?,
        &below(rt, &room, "link")?,
    )?;
    Ok(room)
}

// The path of a name in a folder.
fn below(rt: &HostRuntime, folder: &str, name: &str) -> io::Result<String> {
    Ok(format!(in rt.alloc(); "{folder}/{name}")?)
}

fn client(rt: &HostRuntime, room: &str, number: u16, names: Names) -> io::Result<ClientPaths> {
    let (input, output) = names;
    Ok(ClientPaths::new(
        *rt,
        number,
        below(rt, room, input)?,
        below(rt, room, output)?,
    ))
}

// A client's input and output.
type Names = (&'static str, &'static str);

// Two clients, and which of them can have their paths.
type Pair = (Names, Names, (bool, bool));

const PAIRS: &[Pair] = &[
    (("bytes", "empty"), ("none", "nothing"), (true, true)),
    (("log/base", "empty"), ("none", "nothing"), (false, true)),
    (("bytes", "log/c256"), ("none", "nothing"), (false, true)),
    (("link", "empty"), ("none", "nothing"), (false, true)),
    (("none", "bytes"), ("none", "nothing"), (false, true)),
    (("empty", "name"), ("none", "nothing"), (false, true)),
    (("bytes", "empty"), ("name", "nothing"), (true, false)),
    (("bytes", "empty"), ("none", "./name"), (true, false)),
];

fn are_seen_as(rt: &HostRuntime, room: &str, pair: &Pair) -> io::Result<bool> {
    let (first, second, want) = *pair;
    let mut seen = SeenFiles::of_log(*rt, below(rt, room, "log")?)?;
    let first = seen.add(&client(rt, room, 1, first)?)?;
    Ok((first, seen.add(&client(rt, room, 2, second)?)?) == want)
}

#[test]
fn files_of_the_log_and_of_others_are_no_paths(rt: HostRuntime) -> io::Result<()> {
    let room = make_room(&rt)?;
    for pair in PAIRS {
        assert!(rt; are_seen_as(&rt, &room, pair)?);
    }
    fs::remove_dir_all(&rt, &room)
}

// Terminals and other devices of characters may stand twice.
#[test]
fn a_device_may_stand_twice(rt: HostRuntime) -> io::Result<()> {
    let mut seen = SeenFiles::of_log(rt, String::from_str(rt.alloc(), "/dev")?)?;
    assert!(rt; seen.add(&client(&rt, "/dev", 1, ("null", "./null"))?)?);
    Ok(())
}

#[test]
fn an_output_keeps_its_bytes(rt: HostRuntime) -> io::Result<()> {
    let room = make_room(&rt)?;
    assert!(rt; client(&rt, &room, 1, ("empty", "bytes"))?.open().is_none());
    assert!(rt;
        fs::read(&rt, &below(&rt, &room, "bytes")?)?.as_slice() == b"1 open s\n".as_slice()
    );
    assert!(rt; client(&rt, &room, 1, ("bytes", "empty"))?.open().is_some());
    fs::remove_dir_all(&rt, &room)
}
