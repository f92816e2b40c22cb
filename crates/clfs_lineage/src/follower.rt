// Archives that pass, byte by byte: the letters, the base copy and the number of containers, and then of each container its id, the length of its blocks and
// these, which are skipped.
use crate::origin::Origin;
use byteorder::{ByteOrder, LittleEndian};
use clfs_base::decode;
use clfs_lsn::Lsn;
use std::alloc::{AllocError, Global};

// The letters that an archive begins with. The last stands in the place of the gate of the base copy's slot.
const LETTERS: &[u8] = b"CLFSARC1";

// Where the base copy's slot stands, and the number of containers after it.
const SLOT_AT: usize = 7;

const COUNT_AT: usize = 16391;

// The bytes before the first container, and those of a container before its blocks.
const FRONT_BYTES: usize = 16395;

const HEAD_BYTES: usize = 8;

// An archive that is passing: what is known of it so far, and how many of its containers haven't come.
#[derive(Drop)]
struct Passing {
    origin: Origin,
    left: u32,
}

/// What is known of the archives that have passed.
#[derive(Drop)]
pub(crate) struct Follower {
    alloc: Global,
    // What passed of a front or of a container's head.
    part: Vec<u8>,
    // The bytes of blocks that are still to pass.
    skipped: u32,
    passing: Option<Passing>,
    before: Option<Origin>,
    count: u64,
    stranger: Option<u64>,
    // What passes is no archive's, or memory ran out.
    is_lost: bool,
}

impl Follower {
    /// Nothing has passed.
    pub fn new(alloc: Global) -> Follower {
        Follower {
            alloc,
            part: Vec::new(alloc),
            skipped: 0,
            passing: None,
            before: None,
            count: 0,
            stranger: None,
            is_lost: false,
        }
    }

    /// The first archive, numbered from 1, that isn't a later one of the same log as the one before.
    pub fn stranger(&self) -> Option<u64> {
        self.stranger
    }

    /// Some bytes have passed.
    pub fn follow(&mut self, bytes: &[u8]) {
        let mut at = 0;
        for _ in 0..bytes.len() {
            let (_, rest) = bytes.split_at(at.min(bytes.len()));
            if rest.is_empty() || self.is_lost {
                break;
            }
            at += self.take(rest).min(rest.len());
        }
    }

    // Takes some of the bytes, and answers how many.
    fn take(&mut self, bytes: &[u8]) -> usize {
        if self.skipped > 0 {
            let count = (self.skipped as usize).min(bytes.len());
            self.skipped = self.skipped.saturating_sub(count as u32);
            self.end_container();
            return count;
        }
        let wanted = match self.passing {
            Some(_) => HEAD_BYTES,
            None => FRONT_BYTES,
        };
        let count = wanted.saturating_sub(self.part.len()).min(bytes.len());
        if self.part.extend_from_slice(&bytes[..count]).is_err() {
            self.is_lost = true;
        } else if self.part.len() >= wanted {
            self.end_part();
        }
        count
    }

    // A front, or a container's head, has passed whole.
    fn end_part(&mut self) {
        let passing = match self.passing.take() {
            Some(passing) => self.with_head(passing),
            None => self.front(),
        };
        self.part.clear();
        match passing {
            Ok(Some(passing)) => self.passing = Some(passing),
            _ => self.is_lost = true,
        }
        self.end_container();
    }

    // The archive of which this front has passed; None if it is none.
    fn front(&self) -> Result<Option<Passing>, AllocError> {
        let front = self.part.as_slice();
        if front.len() < FRONT_BYTES || !front.starts_with(LETTERS) {
            return Ok(None);
        }
        let Ok(image) = decode(self.alloc, &front[SLOT_AT..COUNT_AT]) else {
            return Ok(None);
        };
        let Some(end) = Lsn::create(image.first, 0, 0) else {
            return Ok(None);
        };
        let origin = Origin {
            streams: image.streams,
            first: image.first,
            end,
        };
        let left = LittleEndian::read_u32(&front[COUNT_AT..FRONT_BYTES]);
        Ok(Some(Passing { origin, left }))
    }

    // The archive once this head of a container has passed; None if it has no more.
    fn with_head(&mut self, passing: Passing) -> Result<Option<Passing>, AllocError> {
        let Passing { origin, left } = passing;
        let head = self.part.as_slice();
        if head.len() < HEAD_BYTES {
            return Ok(None);
        }
        let length = LittleEndian::read_u32(&head[4..HEAD_BYTES]);
        let Some(end) = Lsn::create(LittleEndian::read_u32(&head[..4]), length, 0) else {
            return Ok(None);
        };
        self.skipped = length;
        let Origin { streams, first, .. } = origin;
        Ok(Some(Passing {
            origin: Origin {
                streams,
                first,
                end,
            },
            left: left.saturating_sub(1),
        }))
    }

    // Ends the archive if all of its containers have passed.
    fn end_container(&mut self) {
        if self.skipped > 0 {
            return;
        }
        match self.passing.take() {
            Some(Passing { origin, left: 0 }) => self.end_archive(origin),
            passing => self.passing = passing,
        }
    }

    // An archive has passed whole.
    fn end_archive(&mut self, origin: Origin) {
        self.count = self.count.saturating_add(1);
        if let Some(before) = &self.before
            && self.stranger.is_none()
            && !origin.may_come_after(before)
        {
            self.stranger = Some(self.count);
        }
        self.before = Some(origin);
    }
}
