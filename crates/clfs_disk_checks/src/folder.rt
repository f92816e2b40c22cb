// What of a folder isn't taken for a file of a log, and what a failed sync of an earlier run makes of one.
use clfs_disk::Disk;
use clfs_files::Folder;
use std::fs::{self, File};
use std::os::unix::fs::{MetadataExt, symlink};
use std::{env, io, process};

// A path of this test's own, at which nothing is.
fn own_path(rt: &HostRuntime, name: &str) -> io::Result<String> {
    let folder = env::temp_dir(rt)?;
    let process = process::id(rt.process());
    let path = format!(in rt.alloc(); "{}/clfs_{name}_{process}", folder.as_path().as_str())?;
    let _none = fs::remove_dir_all(rt, &path);
    Ok(path)
}

// The path of a name in a folder.
fn below(rt: &HostRuntime, folder: &str, name: &str) -> io::Result<String> {
    Ok(format!(in rt.alloc(); "{folder}/{name}")?)
}

fn disk_at(rt: &HostRuntime, path: &str) -> io::Result<Folder> {
    Ok(Folder::new(*rt, String::from_str(rt.alloc(), path)?))
}

// A folder with two files of eight bytes, of which the first begins with these.
fn is_made(disk: &mut Folder, bytes: &[u8]) -> bool {
    disk.grow(0, 8).is_ok()
        && disk.grow(1, 8).is_ok()
        && disk.write(0, 0, bytes).is_ok()
        && disk.sync().is_ok()
}

// What file 0 begins with, if it can be read.
fn first_bytes(disk: &mut Folder) -> Option<[u8; 3]> {
    let mut out = [0; 3];
    disk.read(0, 0, &mut out).ok()?;
    Some(out)
}

// How something comes to stand in the place of file 1.
#[derive(Clone, Copy)]
enum Replacement {
    // File 0 by a second name.
    SecondName,
    // A name for file 1 elsewhere.
    NameElsewhere,
    SymbolicLink,
    Directory,
}

const REPLACEMENTS: &[Replacement] = &[
    Replacement::SecondName,
    Replacement::NameElsewhere,
    Replacement::SymbolicLink,
    Replacement::Directory,
];

fn replace_file(rt: &HostRuntime, path: &str, how: Replacement) -> io::Result<()> {
    let c1 = below(rt, path, "c1")?;
    let base = below(rt, path, "base")?;
    let elsewhere = below(rt, path, "elsewhere")?;
    match how {
        Replacement::SecondName => {
            fs::remove_file(rt, &c1)?;
            fs::hard_link(rt, &base, &c1)
        }
        Replacement::NameElsewhere => fs::hard_link(rt, &c1, &elsewhere),
        Replacement::SymbolicLink => {
            fs::rename(rt, &c1, &elsewhere)?;
            symlink(rt, &elsewhere, &c1)
        }
        Replacement::Directory => {
            fs::remove_file(rt, &c1)?;
            fs::create_dir(rt, &c1)
        }
    }
}

fn is_made_at(rt: &HostRuntime, path: &str) -> io::Result<bool> {
    Ok(is_made(&mut disk_at(rt, path)?, b"abc"))
}

// No call of a folder is done.
fn fails(rt: &HostRuntime, path: &str) -> io::Result<bool> {
    let mut disk = disk_at(rt, path)?;
    Ok(
        first_bytes(&mut disk).is_none()
            && disk.write(0, 0, b"xyz").is_err()
            && disk.sync().is_err(),
    )
}

// The file 0 has its bytes still.
fn is_unchanged(rt: &HostRuntime, path: &str) -> io::Result<bool> {
    let base = fs::read(rt, &below(rt, path, "base")?)?;
    Ok(base.as_slice() == b"abc\0\0\0\0\0".as_slice())
}

// A folder with such a file is taken by no call, and keeps its bytes.
fn is_refused(rt: &HostRuntime, how: Replacement) -> io::Result<bool> {
    let path = own_path(rt, "names")?;
    let is_made = is_made_at(rt, &path)?;
    replace_file(rt, &path, how)?;
    let is_refused = is_made && fails(rt, &path)? && is_unchanged(rt, &path)?;
    fs::remove_dir_all(rt, &path)?;
    Ok(is_refused)
}

#[test]
fn each_file_has_one_name(rt: HostRuntime) -> io::Result<()> {
    for how in REPLACEMENTS {
        assert!(rt; is_refused(&rt, *how)?);
    }
    Ok(())
}

// The number by which the system knows file 0 of the folder.
fn number_of(rt: &HostRuntime, path: &str) -> io::Result<u64> {
    Ok(fs::metadata(rt, &below(rt, path, "base")?)?.ino())
}

// Opens the folder: whether it has the same bytes, and whether they are in the same file.
fn is_same(rt: &HostRuntime, path: &str) -> io::Result<(bool, bool)> {
    let before = number_of(rt, path)?;
    let bytes = first_bytes(&mut disk_at(rt, path)?);
    Ok((bytes == Some(*b"abc"), number_of(rt, path)? == before))
}

// The mark of a failed sync, and what an opening left that was cut short.
fn mark(rt: &HostRuntime, path: &str) -> io::Result<()> {
    File::create(rt, &below(rt, path, "unsynced")?)?;
    fs::write(rt, &below(rt, path, "unsynced-copy")?, "left")
}

fn is_unmarked(rt: &HostRuntime, path: &str) -> io::Result<bool> {
    let is_marked = fs::exists(rt, &below(rt, path, "unsynced")?)?;
    Ok(!is_marked && !fs::exists(rt, &below(rt, path, "unsynced-copy")?)?)
}

#[test]
fn files_behind_a_failed_sync_are_copied(rt: HostRuntime) -> io::Result<()> {
    let path = own_path(&rt, "unsynced")?;
    assert!(rt; is_made_at(&rt, &path)?);
    // Without a mark the files stay which they are.
    assert!(rt; is_same(&rt, &path)? == (true, true));
    // With one they are others with the same bytes, and it is gone.
    mark(&rt, &path)?;
    assert!(rt; is_same(&rt, &path)? == (true, false));
    assert!(rt; is_unmarked(&rt, &path)?);
    fs::remove_dir_all(&rt, &path)
}

// How the folder's path comes to lead elsewhere.
#[derive(Clone, Copy)]
enum Move {
    Renamed,
    // Another folder with the same files has its name.
    Replaced,
    // The link that is its path leads to another folder.
    SetAnew,
}

const MOVES: &[Move] = &[Move::Renamed, Move::Replaced, Move::SetAnew];

// Where the folder is after it moved.
fn move_folder(rt: &HostRuntime, path: &str, how: Move) -> io::Result<String> {
    let held = below(rt, path, "held")?;
    let other = below(rt, path, "other")?;
    let log = below(rt, path, "log")?;
    match how {
        Move::Renamed => fs::rename(rt, &log, &other)?,
        Move::Replaced => {
            fs::rename(rt, &log, &held)?;
            fs::rename(rt, &other, &log)?;
        }
        Move::SetAnew => {
            fs::remove_file(rt, &log)?;
            symlink(rt, &other, &log)?;
        }
    }
    Ok(match how {
        Move::Renamed => other,
        Move::Replaced | Move::SetAnew => held,
    })
}

// A growth of a file that is there goes on, one that makes a file fails, and so does every name that is left.
fn grows_where_it_is(rt: &HostRuntime, path: &str, how: Move) -> io::Result<bool> {
    fs::create_dir(rt, path)?;
    let log = below(rt, path, "log")?;
    if let Move::SetAnew = how {
        symlink(rt, &below(rt, path, "held")?, &log)?;
        fs::create_dir(rt, &below(rt, path, "held")?)?;
    }
    if !matches!(how, Move::Renamed) {
        is_made_at(rt, &below(rt, path, "other")?)?;
    }
    let mut disk = disk_at(rt, &log)?;
    let is_made = is_made(&mut disk, b"abc");
    let held = move_folder(rt, path, how)?;
    let goes_on = disk.grow(1, 9).is_ok() && disk.write(1, 8, b"z").is_ok() && disk.sync().is_ok();
    let is_refused = disk.grow(2, 8).is_err();
    Ok(is_made && goes_on && is_refused && has_two_files(rt, &held)? && !is_there(rt, &log, "c2")?)
}

fn is_there(rt: &HostRuntime, folder: &str, name: &str) -> io::Result<bool> {
    fs::exists(rt, &below(rt, folder, name)?)
}

// The folder has two files, and what was written after it moved is in them.
fn has_two_files(rt: &HostRuntime, held: &str) -> io::Result<bool> {
    let c1 = fs::read(rt, &below(rt, held, "c1")?)?;
    Ok(c1.len() == 9 && !is_there(rt, held, "c2")?)
}

#[test]
fn no_file_is_made_in_another_folder(rt: HostRuntime) -> io::Result<()> {
    for how in MOVES {
        let path = own_path(&rt, "moved")?;
        assert!(rt; grows_where_it_is(&rt, &path, *how)?);
        fs::remove_dir_all(&rt, &path)?;
    }
    Ok(())
}

// A file that is there before the first growth: its name, its bytes, the bytes of the base file where it is there, and whether the growth is done.
type Foreign = (&'static str, &'static str, Option<&'static str>, bool);

const FOREIGN: &[Foreign] = &[
    ("c1", "precious", None, false),
    ("c256", "p", None, false),
    ("c7", "p", Some(""), false),
    // What making a log may leave when it is cut short.
    ("c1", "", None, true),
    ("c1", "\0p", None, true),
    ("c1", "p", Some("\0"), true),
    // A name that no file of a log has.
    ("c257", "p", None, true),
];

// The growth goes as it has to. If it is refused the file is as it was, and no other came.
fn grows_as(rt: &HostRuntime, path: &str, foreign: &Foreign) -> io::Result<bool> {
    let (name, bytes, base, is_done) = foreign;
    fs::create_dir(rt, path)?;
    let file = below(rt, path, name)?;
    fs::write(rt, &file, *bytes)?;
    if let Some(bytes) = base {
        fs::write(rt, &below(rt, path, "base")?, *bytes)?;
    }
    if disk_at(rt, path)?.grow(0, 8).is_ok() != *is_done {
        return Ok(false);
    }
    let is_same = fs::read(rt, &file)?.as_slice() == bytes.as_bytes();
    Ok(is_same && (*is_done || is_there(rt, path, "base")? == base.is_some()))
}

#[test]
fn foreign_files_are_refused(rt: HostRuntime) -> io::Result<()> {
    for foreign in FOREIGN {
        let path = own_path(&rt, "foreign")?;
        assert!(rt; grows_as(&rt, &path, foreign)?);
        fs::remove_dir_all(&rt, &path)?;
    }
    Ok(())
}

// A folder that has the name of the mark keeps each call from being done, and no file is copied.
#[test]
fn a_mark_is_a_file(rt: HostRuntime) -> io::Result<()> {
    let path = own_path(&rt, "mark")?;
    assert!(rt; is_made_at(&rt, &path)?);
    let before = number_of(&rt, &path)?;
    fs::create_dir(&rt, &below(&rt, &path, "unsynced")?)?;
    assert!(rt; fails(&rt, &path)? && is_unchanged(&rt, &path)?);
    assert!(rt; number_of(&rt, &path)? == before);
    fs::remove_dir_all(&rt, &path)
}

// How long a file of this length is after the start behind a failed sync.
fn copied_length(rt: &HostRuntime, path: &str, file: u16, len: u64) -> io::Result<u64> {
    if file <= 256 {
        let _grown = disk_at(rt, path)?.grow(file, len);
    }
    mark(rt, path)?;
    first_bytes(&mut disk_at(rt, path)?);
    let name = if file == 0 { "base" } else { "c1" };
    Ok(fs::metadata(rt, &below(rt, path, name)?)?.len())
}

#[test]
fn a_copy_has_what_means_something(rt: HostRuntime) -> io::Result<()> {
    let path = own_path(&rt, "length")?;
    assert!(rt; is_made_at(&rt, &path)?);
    assert!(rt; copied_length(&rt, &path, 0, (1 << 15) + 1)? == 1 << 15);
    assert!(rt; copied_length(&rt, &path, 1, (1 << 23) + 1)? == 1 << 23);
    assert!(rt; first_bytes(&mut disk_at(&rt, &path)?) == Some(*b"abc"));
    fs::remove_dir_all(&rt, &path)
}
