use clfs_command::{
    Command, DataWord, DumpOptions, PathPair, ScriptLength, WordsRefusal, asks_to_share,
    read_command, read_share,
};
use clfs_lsn::{Lsn, Shape};
use std::alloc::{AllocError, Global};

/// The words of a line.
pub(crate) fn owned(alloc: Global, line: &str) -> Result<Vec<String>, AllocError> {
    let mut words = Vec::new(alloc);
    if !line.is_empty() {
        for word in line.split(' ') {
            words.push(String::from_str(alloc, word)?)?;
        }
    }
    Ok(words)
}

// Two commands are the same.
fn are_same(command: &Command, want: &Command) -> bool {
    command == want
}

// The words of a line name this command, or none.
fn is_read_as(alloc: Global, line: &str, want: Option<Command>) -> Result<bool, AllocError> {
    let words = owned(alloc, line)?;
    Ok(match (read_command(alloc, &words), want) {
        (Ok(command), Some(want)) => are_same(&command, &want),
        (Err(WordsRefusal::Usage), None) => true,
        _ => false,
    })
}

// Blocks of 2 sectors in containers of 8.
const SMALL: Shape = Shape {
    block_sectors: 2,
    container_sectors: 8,
};

const LARGEST: Shape = Shape {
    block_sectors: 128,
    container_sectors: 16384,
};

const SMALLEST: Shape = Shape {
    block_sectors: 1,
    container_sectors: 2,
};

// Words beside the command that they name, or none. Two spaces in a row stand for an empty word between them.
const FORMATS: [(&str, Option<Command>); 30] = [
    (
        "format --block-sectors 2 --container-sectors 8 --containers 2",
        Some(Command::Format {
            shape: SMALL,
            containers: 2,
            dedicated: false,
        }),
    ),
    (
        "format --containers 2 --container-sectors 8 --block-sectors 2",
        Some(Command::Format {
            shape: SMALL,
            containers: 2,
            dedicated: false,
        }),
    ),
    (
        "format --block-sectors=128 --container-sectors=16384 --containers=256",
        Some(Command::Format {
            shape: LARGEST,
            containers: 256,
            dedicated: false,
        }),
    ),
    (
        "format --block-sectors 1 --container-sectors 2 --containers 1 --",
        Some(Command::Format {
            shape: SMALLEST,
            containers: 1,
            dedicated: false,
        }),
    ),
    ("format --block-sectors 2 --container-sectors 8", None),
    ("format --block-sectors 2 --containers 2", None),
    ("format --container-sectors 8 --containers 2", None),
    (
        "format --block-sectors 2 --container-sectors 8 --containers 2 --containers 2",
        None,
    ),
    (
        "format --block-sectors 2 --container-sectors 8 --containers 0",
        None,
    ),
    (
        "format --block-sectors 2 --container-sectors 8 --containers 257",
        None,
    ),
    (
        "format --block-sectors 2 --container-sectors 3 --containers 2",
        None,
    ),
    (
        "format --block-sectors 0 --container-sectors 8 --containers 2",
        None,
    ),
    (
        "format --block-sectors 129 --container-sectors 16384 --containers 2",
        None,
    ),
    (
        "format --block-sectors 2 --container-sectors 16385 --containers 2",
        None,
    ),
    (
        "format --block-sectors 2 --container-sectors 8 --containers 02",
        None,
    ),
    (
        "format --block-sectors 2 --container-sectors 8 --containers +2",
        None,
    ),
    (
        "format --block-sectors 2 --container-sectors 8 --containers -2",
        None,
    ),
    (
        "format --block-sectors 2 --container-sectors 8 --containers 4294967298",
        None,
    ),
    (
        "format --block-sectors 2 --container-sectors 8 --containers=",
        None,
    ),
    (
        "format --block-sectors 2 --container-sectors 8 --containers ",
        None,
    ),
    (
        "format --block-sectors 2 --container-sectors 8 --containers",
        None,
    ),
    (
        "format --block 2 --container-sectors 8 --containers 2",
        None,
    ),
    ("format 2 8 2", None),
    (
        "format --block-sectors 2 --container-sectors 8 --containers 2 --dedicated",
        Some(Command::Format {
            shape: SMALL,
            containers: 2,
            dedicated: true,
        }),
    ),
    (
        "format --dedicated --block-sectors 2 --container-sectors=8 --containers 2",
        Some(Command::Format {
            shape: SMALL,
            containers: 2,
            dedicated: true,
        }),
    ),
    (
        "format --block-sectors 2 --container-sectors 8 --containers 2 --dedicated=x",
        None,
    ),
    (
        "format --block-sectors 2 --container-sectors 8 --containers 2 --dedicated=true",
        None,
    ),
    (
        "format --block-sectors 2 --container-sectors 8 --containers 2 --dedicated x",
        None,
    ),
    (
        "format --block-sectors 2 --dedicated --container-sectors 8 --containers 2 --dedicated",
        None,
    ),
    ("format --dedicated", None),
];

#[test]
fn words_that_make_a_log(rt: HostRuntime) -> Result<(), AllocError> {
    for (line, want) in FORMATS {
        assert!(rt; is_read_as(rt.alloc(), line, want)?, "{line}");
    }
    Ok(())
}

const SERVES: [(&str, Option<Command>); 36] = [
    (
        "serve",
        Some(Command::Serve {
            write_buffers: 4,
            read_buffers: 32,
            length: ScriptLength::Limited,
        }),
    ),
    (
        "serve --",
        Some(Command::Serve {
            write_buffers: 4,
            read_buffers: 32,
            length: ScriptLength::Limited,
        }),
    ),
    (
        "serve --write-buffers 1",
        Some(Command::Serve {
            write_buffers: 1,
            read_buffers: 32,
            length: ScriptLength::Limited,
        }),
    ),
    (
        "serve --write-buffers=64",
        Some(Command::Serve {
            write_buffers: 64,
            read_buffers: 32,
            length: ScriptLength::Limited,
        }),
    ),
    (
        "serve --endless",
        Some(Command::Serve {
            write_buffers: 4,
            read_buffers: 32,
            length: ScriptLength::Endless,
        }),
    ),
    (
        "serve --endless --write-buffers 8",
        Some(Command::Serve {
            write_buffers: 8,
            read_buffers: 32,
            length: ScriptLength::Endless,
        }),
    ),
    (
        "serve --read-buffers 1",
        Some(Command::Serve {
            write_buffers: 4,
            read_buffers: 1,
            length: ScriptLength::Limited,
        }),
    ),
    (
        "serve --endless --read-buffers=4096 --write-buffers 8",
        Some(Command::Serve {
            write_buffers: 8,
            read_buffers: 4096,
            length: ScriptLength::Endless,
        }),
    ),
    ("serve --read-buffers 0", None),
    ("serve --read-buffers 4097", None),
    ("serve --read-buffers 32 --read-buffers 32", None),
    ("race --read-buffers 32", None),
    ("serve --endless --endless", None),
    ("serve --endless=true", None),
    ("serve --endless 1", None),
    ("serve --write-buffers 0", None),
    ("serve --write-buffers 65", None),
    ("serve --write-buffers 4 --write-buffers 4", None),
    ("serve --write-buffers", None),
    ("serve --write-buffers -- 4", None),
    ("serve --containers 2", None),
    ("serve x", None),
    ("serve -- x", None),
    ("serve serve", None),
    ("serve --help", None),
    ("-- serve", None),
    ("--write-buffers 4 serve", None),
    ("Serve", None),
    ("serv", None),
    ("race", Some(Command::Race { write_buffers: 4 })),
    (
        "race --write-buffers 1",
        Some(Command::Race { write_buffers: 1 }),
    ),
    (
        "race --write-buffers=64",
        Some(Command::Race { write_buffers: 64 }),
    ),
    ("race --write-buffers 65", None),
    ("race --endless", None),
    ("race serve", None),
    ("races", None),
];

#[test]
fn words_of_serving_and_racing(rt: HostRuntime) -> Result<(), AllocError> {
    for (line, want) in SERVES {
        assert!(rt; is_read_as(rt.alloc(), line, want)?, "{line}");
    }
    Ok(())
}

const TRIALS: [(&str, Option<Command>); 39] = [
    (
        "trial 1 5",
        Some(Command::Trial {
            number: 1,
            count: 5,
        }),
    ),
    (
        "trial 0 1",
        Some(Command::Trial {
            number: 0,
            count: 1,
        }),
    ),
    (
        "trial 4294967295 100000",
        Some(Command::Trial {
            number: 4294967295,
            count: 100000,
        }),
    ),
    (
        "trial -- 1 5",
        Some(Command::Trial {
            number: 1,
            count: 5,
        }),
    ),
    (
        "trial 1 -- 5",
        Some(Command::Trial {
            number: 1,
            count: 5,
        }),
    ),
    ("trial 4294967296 1", None),
    ("trial 1 0", None),
    ("trial 1 100001", None),
    ("trial 01 5", None),
    ("trial 1 05", None),
    ("trial +1 5", None),
    ("trial -1 5", None),
    ("trial 1 -5", None),
    ("trial 1  5", None),
    ("trial", None),
    ("trial 1", None),
    ("trial 1 5 5", None),
    ("trial 1 5 --dedicated", None),
    (
        "crew 1 1",
        Some(Command::Crew {
            threads: 1,
            count: 1,
        }),
    ),
    (
        "crew 8 1000",
        Some(Command::Crew {
            threads: 8,
            count: 1000,
        }),
    ),
    (
        "crew -- 2 5",
        Some(Command::Crew {
            threads: 2,
            count: 5,
        }),
    ),
    (
        "crew 2 -- 5",
        Some(Command::Crew {
            threads: 2,
            count: 5,
        }),
    ),
    ("crew 0 5", None),
    ("crew 9 5", None),
    ("crew 2 0", None),
    ("crew 2 1001", None),
    ("crew 02 5", None),
    ("crew 2 05", None),
    ("crew +2 5", None),
    ("crew -2 5", None),
    ("crew 2 +5", None),
    ("crew 2 -5", None),
    ("crew 2  5", None),
    ("crew", None),
    ("crew 2", None),
    ("crew 2 5 5", None),
    (
        "crew 2 5 --",
        Some(Command::Crew {
            threads: 2,
            count: 5,
        }),
    ),
    ("crew 2 5 --dedicated", None),
    ("crews 2 5", None),
];

const CROWDS: [(&str, Option<Command>); 11] = [
    (
        "crowd 1 1",
        Some(Command::Crowd {
            threads: 1,
            count: 1,
        }),
    ),
    (
        "crowd 8 1000",
        Some(Command::Crowd {
            threads: 8,
            count: 1000,
        }),
    ),
    (
        "crowd -- 2 5",
        Some(Command::Crowd {
            threads: 2,
            count: 5,
        }),
    ),
    ("crowd 0 5", None),
    ("crowd 9 5", None),
    ("crowd 2 0", None),
    ("crowd 2 1001", None),
    ("crowd 2 +5", None),
    ("crowd 2", None),
    ("crowd 2 5 5", None),
    ("crowds 2 5", None),
];

#[test]
fn words_of_trials_and_crews(rt: HostRuntime) -> Result<(), AllocError> {
    for (line, want) in TRIALS {
        assert!(rt; is_read_as(rt.alloc(), line, want)?, "{line}");
    }
    Ok(())
}

#[test]
fn words_of_crowds(rt: HostRuntime) -> Result<(), AllocError> {
    for (line, want) in CROWDS {
        assert!(rt; is_read_as(rt.alloc(), line, want)?, "{line}");
    }
    Ok(())
}

// What is asked for of a dump: the two LSNs as numbers, the name and the form of data.
type Wanted = (Option<u64>, Option<u64>, Option<&'static str>, DataWord);

// Words beside what they ask for of a dump, or none.
const DUMPS: [(&str, Option<Wanted>); 22] = [
    ("dump", Some((None, None, None, DataWord::Hex))),
    ("dump --", Some((None, None, None, DataWord::Hex))),
    (
        "dump --from 1:200:0",
        Some((Some(4294967808), None, None, DataWord::Hex)),
    ),
    (
        "dump --to=ffffffff:0:0 --from 0:0:0",
        Some((Some(0), Some(18446744069414584320), None, DataWord::Hex)),
    ),
    (
        "dump --stream a --data text",
        Some((None, None, Some("a"), DataWord::Text)),
    ),
    (
        "dump --data none --stream=-a",
        Some((None, None, Some("-a"), DataWord::Nothing)),
    ),
    (
        "dump --data=hex --to 1:0:1 --stream 0123456789012345678901234567890123456789012345678901234567890123",
        Some((
            None,
            Some(4294967297),
            Some("0123456789012345678901234567890123456789012345678901234567890123"),
            DataWord::Hex,
        )),
    ),
    (
        "dump --stream 01234567890123456789012345678901234567890123456789012345678901234",
        None,
    ),
    ("dump --stream ", None),
    ("dump --stream=", None),
    ("dump --stream", None),
    ("dump --stream -a", None),
    ("dump --from 1:200", None),
    ("dump --from 1:1:0", None),
    ("dump --from -", None),
    ("dump --to 1:200:0 --to 1:200:0", None),
    ("dump --data", None),
    ("dump --data Hex", None),
    ("dump --data raw", None),
    ("dump --fro 1:200:0", None),
    ("dump x", None),
    ("dumps", None),
];

// Words ask for this of a dump.
fn asks_for(options: &DumpOptions, want: &Wanted) -> bool {
    let (from, to, stream, form) = want;
    let name = match &options.stream {
        Some(name) => Some(name.as_slice()),
        None => None,
    };
    options.from.map(|lsn| lsn.number()) == *from
        && options.to.map(|lsn| lsn.number()) == *to
        && name == stream.map(|name| name.as_bytes())
        && options.form == *form
}

// The words of a line name a dump of this, or no command.
fn is_dump(alloc: Global, line: &str, want: Option<Wanted>) -> Result<bool, AllocError> {
    let words = owned(alloc, line)?;
    Ok(match (read_command(alloc, &words), want) {
        (Ok(Command::Dump(options)), Some(want)) => asks_for(&options, &want),
        (Err(WordsRefusal::Usage), None) => true,
        _ => false,
    })
}

#[test]
fn words_of_dumps(rt: HostRuntime) -> Result<(), AllocError> {
    for (line, want) in DUMPS {
        assert!(rt; is_dump(rt.alloc(), line, want)?, "{line}");
    }
    Ok(())
}

// Words of `restore`, and the number of the LSN that they ask for, or that they ask for none.
const RESTORES: [(&str, Option<Option<u64>>); 8] = [
    ("restore", Some(None)),
    ("restore --", Some(None)),
    ("restore --up-to 0:0:0", Some(Some(0))),
    ("restore --up-to=1:200:1", Some(Some(4294967809))),
    ("restore --up-to 1:1:0", None),
    ("restore --up-to", None),
    ("restore --up-to 1:0:0 --up-to 1:0:0", None),
    ("restore 1:0:0", None),
];

// Restoring up to an LSN of this number.
fn restore_up_to(number: Option<u64>) -> Command {
    let up_to = match number {
        Some(number) => Some(Lsn::of_number(number)),
        None => None,
    };
    Command::Restore { up_to }
}

#[test]
fn words_of_restores(rt: HostRuntime) -> Result<(), AllocError> {
    for (line, want) in RESTORES {
        let want = match want {
            Some(number) => Some(restore_up_to(number)),
            None => None,
        };
        assert!(rt; is_read_as(rt.alloc(), line, want)?, "{line}");
    }
    Ok(())
}

// Words of `share`, and the write buffers and paths that they ask for, two by two, or none.
const SHARES: [(&str, Option<(u32, &str)>); 16] = [
    ("share a b", Some((4, "a b"))),
    ("share a b c d", Some((4, "a b c d"))),
    ("share --write-buffers 64 a b", Some((64, "a b"))),
    ("share a b --write-buffers=1", Some((1, "a b"))),
    ("share a --write-buffers 2 b", Some((2, "a b"))),
    ("share -- -a b", Some((4, "-a b"))),
    ("share", None),
    ("share a", None),
    ("share a b c", None),
    ("share a a", None),
    ("share a b c a", None),
    ("share -a b", None),
    ("share a b --write-buffers 0", None),
    ("share a b --write-buffers 65", None),
    ("share a b --endless", None),
    ("shares a b", None),
];

// The paths of clients, one after the other.
fn path_line(alloc: Global, clients: &[PathPair]) -> Result<String, AllocError> {
    let mut line = String::new(alloc);
    for pair in clients {
        if !line.is_empty() {
            line.push(' ')?;
        }
        line.push_str(&pair.input)?;
        line.push(' ')?;
        line.push_str(&pair.output)?;
    }
    Ok(line)
}

// The words of a line ask `share` for this, or for nothing.
fn is_share(alloc: Global, line: &str, want: Option<(u32, &str)>) -> Result<bool, AllocError> {
    let words = owned(alloc, line)?;
    Ok(match (read_share(alloc, &words), want) {
        (Ok(share), Some((buffers, paths))) => {
            share.write_buffers == buffers && path_line(alloc, &share.clients)?.as_str() == paths
        }
        (Err(WordsRefusal::Usage), None) => true,
        _ => false,
    })
}

#[test]
fn words_of_shares(rt: HostRuntime) -> Result<(), AllocError> {
    for (line, want) in SHARES {
        assert!(rt; is_share(rt.alloc(), line, want)?, "{line}");
        assert!(rt; is_read_as(rt.alloc(), line, None)?, "{line}");
    }
    Ok(())
}

// Words of `share` with so many clients.
fn many_clients(alloc: Global, count: u32) -> Result<Vec<String>, AllocError> {
    let mut words = Vec::new(alloc);
    words.push(String::from_str(alloc, "share")?)?;
    for client in 0..count {
        words.push(format!(in alloc; "in{client}")?)?;
        words.push(format!(in alloc; "out{client}")?)?;
    }
    Ok(words)
}

// How many clients such words ask for; none if they ask for nothing.
fn count_of_clients(alloc: Global, count: u32) -> Result<Option<usize>, AllocError> {
    let words = many_clients(alloc, count)?;
    Ok(match read_share(alloc, &words) {
        Ok(share) => Some(share.clients.len()),
        Err(_) => None,
    })
}

#[test]
fn as_many_clients_as_there_can_be(rt: HostRuntime) -> Result<(), AllocError> {
    assert!(rt; count_of_clients(rt.alloc(), 64)? == Some(64));
    assert!(rt; count_of_clients(rt.alloc(), 65)? == None);
    Ok(())
}

#[test]
fn which_words_ask_to_share(rt: HostRuntime) -> Result<(), AllocError> {
    assert!(rt; asks_to_share(&owned(rt.alloc(), "share")?));
    assert!(rt; !asks_to_share(&owned(rt.alloc(), "serve share")?));
    assert!(rt; !asks_to_share(&owned(rt.alloc(), "")?));
    Ok(())
}

const CHECKS: [(&str, Option<Command>); 19] = [
    ("check", Some(Command::Check)),
    ("check --", Some(Command::Check)),
    ("txn", Some(Command::Txn)),
    ("txn --", Some(Command::Txn)),
    ("txn 1", None),
    ("archive", Some(Command::Archive)),
    ("archive --", Some(Command::Archive)),
    ("archive 1", None),
    ("archive --up-to 1:0:0", None),
    ("check x", None),
    ("check --dedicated", None),
    ("check check", None),
    ("Check", None),
    ("help", None),
    ("--help", None),
    ("-h", None),
    ("--version", None),
    ("", None),
    (" ", None),
];

#[test]
fn words_of_checks_and_of_no_command(rt: HostRuntime) -> Result<(), AllocError> {
    for (line, want) in CHECKS {
        assert!(rt; is_read_as(rt.alloc(), line, want)?, "{line}");
    }
    Ok(())
}
