// The commands as the user is told of them: one table, of which clap's line of each command is made.
ghost use Rattle.std.specs.Prelude.{◌≡◌};
ghost use Rattle.clfs_command.specs.Door.{door_line};
ghost use Rattle.clfs_command.specs.Forms.{bare_line, line_of, unnamed, with_lines};
ghost use Rattle.clfs_command.specs.Line.{command_line, share_line};

/// What a word of a command is.
#[derive(Drop)]
pub enum WordKind {
    /// An option that may be missing, and what its value is called.
    Optional(&'static str),
    /// An option that has to be there, and what its value is called.
    Needed(&'static str),
    /// An option, what its value is called, and the value that it has where it isn't there.
    Default(&'static str, &'static str),
    /// An option without a value.
    Flag,
    /// A word that has to be there, after those that come before it.
    Word,
    /// Words of which one has to be there, after all others.
    Words,
}

/// A word of a command.
#[derive(Drop)]
pub struct WordForm {
    /// Its name; that of an option stands after `--`.
    pub name: &'static str,
    /// What it is.
    pub kind: WordKind,
    /// What the help says of it.
    pub help: &'static str,
}

/// A command.
#[derive(Drop)]
pub struct CommandForm {
    /// Its name.
    pub name: &'static str,
    /// What it is for.
    pub about: &'static str,
    /// Its words, those without a `--` in their order.
    pub words: &'static [WordForm],
}

// What several commands have.
const WRITE_BUFFERS: WordForm = WordForm {
    name: "write-buffers",
    kind: WordKind::Default("W", "4"),
    help: "Full blocks that may wait before all are written, 1 to 64",
};

const THREADS: WordForm = WordForm {
    name: "THREADS",
    kind: WordKind::Word,
    help: "How many threads there are, 1 to 8",
};

const RECORDS: WordForm = WordForm {
    name: "COUNT",
    kind: WordKind::Word,
    help: "How many records each of them appends, 1 to 1000",
};

const FORMAT: CommandForm = CommandForm {
    name: "format",
    about: "Makes a log in FOLDER",
    words: &[
        WordForm {
            name: "block-sectors",
            kind: WordKind::Needed("B"),
            help: "Sectors of the largest block, 1 to 128; a sector has 512 bytes",
        },
        WordForm {
            name: "container-sectors",
            kind: WordKind::Needed("S"),
            help: "Sectors of a container, twice B to 16384",
        },
        WordForm {
            name: "containers",
            kind: WordKind::Needed("N"),
            help: "Containers of the log, 1 to 256",
        },
        WordForm {
            name: "dedicated",
            kind: WordKind::Flag,
            help: "Makes a log that has one stream",
        },
    ],
};

const SERVE: CommandForm = CommandForm {
    name: "serve",
    about: "Answers the lines of a script on standard input, one reply a line",
    words: &[
        WRITE_BUFFERS,
        WordForm {
            name: "read-buffers",
            kind: WordKind::Default("N", "32"),
            help: "Blocks that were read that are kept, 1 to 4096",
        },
        WordForm {
            name: "endless",
            kind: WordKind::Flag,
            help: "Takes a script of any length in place of 64 MiB",
        },
    ],
};

const RACE: CommandForm = CommandForm {
    name: "race",
    about: "Answers the lines of a script, those of each client in a thread of its own",
    words: &[WRITE_BUFFERS],
};

const TRIAL: CommandForm = CommandForm {
    name: "trial",
    about: "Answers lines that are made of a number, over a log in memory, and prints their sums",
    words: &[
        WordForm {
            name: "NUMBER",
            kind: WordKind::Word,
            help: "The number, 0 to 4294967295",
        },
        WordForm {
            name: "COUNT",
            kind: WordKind::Word,
            help: "How many lines are made, 1 to 100000",
        },
    ],
};

const CREW: CommandForm = CommandForm {
    name: "crew",
    about: "Appends in threads by permits of one shared area, over a log in memory",
    words: &[THREADS, RECORDS],
};

const CHECK: CommandForm = CommandForm {
    name: "check",
    about: "Judges the log in FOLDER and tells what is in it, or where it is broken",
    words: &[],
};

const CROWD: CommandForm = CommandForm {
    name: "crowd",
    about: "Appends in threads that share their flushes, over a log in memory",
    words: &[THREADS, RECORDS],
};

const DUMP: CommandForm = CommandForm {
    name: "dump",
    about: "Prints the log in FOLDER as text, or up to where it is broken",
    words: &[
        WordForm {
            name: "from",
            kind: WordKind::Optional("LSN"),
            help: "Prints no record below this LSN, as 1:200:0",
        },
        WordForm {
            name: "to",
            kind: WordKind::Optional("LSN"),
            help: "Prints no record at this LSN or above",
        },
        WordForm {
            name: "stream",
            kind: WordKind::Optional("NAME"),
            help: "Prints the records of the stream of this name alone, 1 to 64 bytes",
        },
        WordForm {
            name: "data",
            kind: WordKind::Default("FORM", "hex"),
            help: "How data are printed: hex, text or none",
        },
    ],
};

const TXN: CommandForm = CommandForm {
    name: "txn",
    about: "Answers the lines of a script by a table of cells with transactions, which the log in FOLDER keeps",
    words: &[],
};

const ARCHIVE: CommandForm = CommandForm {
    name: "archive",
    about: "Writes an archive of the log in FOLDER to standard output, and moves its archive tail",
    words: &[],
};

const RESTORE: CommandForm = CommandForm {
    name: "restore",
    about: "Makes a log in FOLDER of the archives on standard input",
    words: &[WordForm {
        name: "up-to",
        kind: WordKind::Optional("LSN"),
        help: "Restores no record at this LSN or above, as 1:200:0",
    }],
};

static SHARE: CommandForm = CommandForm {
    name: "share",
    about: "Answers the lines of several programs at the same time, over one log",
    words: &[
        WRITE_BUFFERS,
        WordForm {
            name: "PATHS",
            kind: WordKind::Words,
            help: "IN and OUT of each client: where its lines come from, and where its replies go",
        },
    ],
};

static DOOR: CommandForm = CommandForm {
    name: "share",
    about: "Answers the lines of programs that come and go, over one log",
    words: &[
        WordForm {
            name: "door",
            kind: WordKind::Needed("PLACE"),
            help: "Folder in which the named pipe door is, to which programs write the names of theirs",
        },
        WordForm {
            name: "clients",
            kind: WordKind::Needed("N"),
            help: "Programs that may be there at a time, 1 to 64",
        },
        WRITE_BUFFERS,
    ],
};

static COMMANDS: [CommandForm; 11] = [
    FORMAT, SERVE, RACE, TRIAL, CREW, CHECK, CROWD, DUMP, TXN, ARCHIVE, RESTORE,
];

/// The commands that `read_command` reads.
pub fn commands() -> &'static [CommandForm]
    ensures { with_lines bare_line result.now ≡ command_line }
{
    &COMMANDS
}

/// The command that `read_share` reads.
pub fn share_form() -> &'static CommandForm
    ensures { unnamed (line_of result.now) ≡ share_line }
{
    &SHARE
}

/// The command that `read_door` reads.
pub fn door_form() -> &'static CommandForm
    ensures { unnamed (line_of result.now) ≡ door_line }
{
    &DOOR
}
