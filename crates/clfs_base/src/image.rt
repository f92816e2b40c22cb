// What a base copy says of its log.
ghost use Rattle.std.specs.Prelude.{◌≡◌, ◌<◌, ◌≤◌, ◌∷◌, ◌++◌, [], drop, length, IfOk};
ghost use Rattle.clfs_lsn.specs.Limits.{most_containers};

use clfs_lsn::{Lsn, MOST_CONTAINERS, Name};
use std::alloc::{AllocError, Global};
use std::marker::Model;

/// The numbers of the files that hold the listed containers, in the order of the containers. The memory for as many as a log can have is taken at
/// first, so that none is wanted when a container is listed.
#[derive(Debug, Drop)]
pub struct Files {
    numbers: Vec<u16>,
}

impl Model for Files {
    ghost use Rattle.std.specs.Prelude.{ℕ, List, ◌≤◌, vec_capacity};
    ghost use Rattle.clfs_lsn.specs.Limits.{most_containers};

    ghost Value = { List ℕ };

    ghost view = { λ a. a.numbers.items };

    ghost invariant = { λ a. most_containers ≤ vec_capacity a.numbers };
}

impl Files {
    /// No files.
    pub fn new(alloc: Global) -> Result<Files, AllocError>
        ensures { IfOk result (λ files. files ≡ []) }
    {
        let numbers = Vec::with_capacity(alloc, MOST_CONTAINERS as usize)?;
        Ok(Files { numbers })
    }

    /// Lists a file after the others.
    pub fn push(&mut self, file: u16)
        requires { length self.old < most_containers }
        ensures { self.new ≡ self.old ++ file ∷ [] }
    {
        self.numbers.push_reserved(file);
    }

    /// Lists so many of the first files no more.
    pub fn drop_first(&mut self, count: usize)
        requires { count ≤ length self.old }
        ensures { self.new ≡ drop count self.old }
    {
        let len = self.numbers.len();
        self.numbers.rotate_left(count);
        self.numbers.truncate(len - count);
    }

    /// The numbers in order.
    pub fn as_slice(&self) -> &[u16]
        ensures { result.now ≡ self.now }
    {
        self.numbers.as_slice()
    }
}

/// A stream as a base copy has it. Its number is its row's place, from 1.
#[derive(Debug, Drop)]
pub struct Row {
    /// Its name, which no other stream has.
    pub name: Name,
    /// Its base, as far as base copies and not restart areas have moved it.
    pub base: Lsn,
}

/// The streams of a log in the order of their numbers.
#[derive(Debug, Drop)]
pub struct Rows {
    rows: Vec<Row>,
}

impl Model for Rows {
    ghost use Rattle.std.specs.Prelude.{List};
    ghost use Rattle.clfs_base.specs.declared.image.Row.{Row};

    ghost Value = { List Row };

    ghost view = { λ a. a.rows.items };
}

impl Rows {
    /// These rows, which stay where they are.
    pub fn from_vec(rows: Vec<Row>) -> Rows
        ensures { result ≡ rows.items }
    {
        Rows { rows }
    }

    /// The rows given back, where they are.
    pub fn into_vec(self) -> Vec<Row>
        ensures { result.items ≡ self }
    {
        let Rows { rows } = self;
        rows
    }

    /// The rows in order.
    pub fn as_slice(&self) -> &[Row]
        ensures { result.now ≡ self.now }
    {
        self.rows.as_slice()
    }
}

/// A base copy without its gate.
#[derive(Debug, Drop)]
pub struct BaseImage {
    /// 1 or 2: the version of the copy that it was read from. It says nothing of the log. A copy is written in the second one.
    pub version: u8,
    /// 0, 1 or 2: that of the copy before it, plus 1 modulo 3.
    pub turn: u8,
    /// The sectors of the largest block.
    pub block_sectors: u32,
    /// The sectors of a container.
    pub container_sectors: u32,
    /// The containers that the log has.
    pub containers: u16,
    /// How many container files were made at full length, from number 1 on.
    pub files_made: u16,
    /// The id of the first listed container. The ids of the others follow it.
    pub first: u32,
    /// Archiving is on.
    pub archiving: bool,
    /// A log that is full grows by itself.
    pub automatic: bool,
    /// The most containers; 0 where no such policy is installed.
    pub maximum: u16,
    /// The fewest containers; 0 where no such policy is installed.
    pub minimum: u16,
    /// The containers of one step of growth; 0 where no such policy is installed.
    pub growth: u16,
    /// The archive tail; null where archiving is off.
    pub tail: Lsn,
    /// The log has one stream alone.
    pub dedicated: bool,
    /// The files of the listed containers.
    pub files: Files,
    /// The streams.
    pub streams: Rows,
}
