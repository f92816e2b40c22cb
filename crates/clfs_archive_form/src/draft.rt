// Putting an archive together, after bytes that are there already. One that has more bytes than an archive may have is counted to its end, so that
// its length can be told, and no more of it is kept.
ghost use Rattle.std.specs.Prelude.{◌≡◌, ◌+◌, ◌^◌, ◌<◌, ◌≤◌, ◌++◌, [], length, IfOk, IfErr, OnOk};
ghost use Rattle.byteorder.specs.Endian.{little_bytes};
ghost use Rattle.clfs_base.specs.Spelling.{IsImage, current, spelled};
ghost use Rattle.clfs_archive_form.specs.Form.{archived_image};
ghost use Rattle.clfs_archive_form.specs.Drafting.{most_archive, front_bytes, container_bytes};

use crate::archives::MAGIC;
use byteorder::{ByteOrder, LittleEndian};
use clfs_base::{BaseImage, SLOT_BYTES, VERSION, copies_are_read_as_written, encode};
use clfs_lsn::Bytes;
use clfs_told::Told;
use std::alloc::{AllocError, Global};
use std::marker::Model;

/// The most bytes that an archive may have.
pub const MOST_BYTES: u64 = 67_108_864;

/// An archive has more bytes than it may have.
#[derive(Drop)]
pub struct TooLong {
    /// The bytes that were there before it.
    pub before: Bytes,
    /// How many bytes it has.
    pub length: u64,
}

/// An archive that is put together: first its front, and then each of its containers.
#[derive(Drop)]
pub struct Draft {
    // The bytes from before, and those of the archive while it has no more than it may have.
    bytes: Vec<u8>,
    // How many were there before.
    start: usize,
    // How many the archive has.
    length: u64,
    // The archive, which only clauses read.
    archive: Told<Bytes>,
}

impl Model for Draft {
    ghost use Rattle.std.specs.Prelude.{take};
    ghost use Rattle.clfs_archive_form.specs.Drafting.{Drafted, IsDraft};

    ghost Value = { Drafted };

    ghost view = { λ d. record { before = take d.start d.bytes.items; archive = d.archive.value } };

    ghost invariant = { λ d. IsDraft d.bytes.items d.start d.length d.archive.value };
}

// No archive yet.
fn nothing(alloc: Global) -> Told<Bytes>
    ensures { result.value ≡ [] }
{
    Told::pick(&alloc)
}

// The archive with more bytes at its end.
fn longer(archive: &Told<Bytes>, more: &[u8]) -> Told<Bytes>
    ensures { result.value ≡ archive.now.value ++ more.now }
{
    archive.next(&more)
}

/// A base copy as an archive has it: in the second version, with turn 0.
pub fn archived(image: BaseImage) -> BaseImage
    requires { IsImage image }
    ensures exact { result ≡ archived_image image }
    ensures image { IsImage result }
{
    copies_are_read_as_written();
    BaseImage {
        version: VERSION,
        turn: 0,
        ..image
    }
}

impl Draft {
    /// Nothing of an archive yet, after these bytes.
    pub fn new(alloc: Global, before: Bytes) -> Draft
        ensures before { result.before ≡ before }
        ensures empty { result.archive ≡ [] }
    {
        let bytes = before.into_vec();
        Draft {
            start: bytes.len(),
            bytes,
            length: 0,
            archive: nothing(alloc),
        }
    }

    // More bytes of the archive.
    fn put(&mut self, more: &[u8]) -> Result<(), AllocError>
        requires room { length self.old.archive + length more.now < 2 ^ 64 }
        ensures before { self.new.before ≡ self.old.before }
        ensures added { OnOk result (self.new.archive ≡ self.old.archive ++ more.now) }
    {
        let length = self.length + more.len() as u64;
        if length <= MOST_BYTES {
            self.bytes.extend_from_slice(more)?;
        }
        self.length = length;
        self.archive = longer(&self.archive, more);
        Ok(())
    }

    // A number of four bytes.
    fn put_number(&mut self, number: u32) -> Result<(), AllocError>
        requires room { length self.old.archive + 4 < 2 ^ 64 }
        ensures before { self.new.before ≡ self.old.before }
        ensures added { OnOk result (self.new.archive ≡ self.old.archive ++ little_bytes 4 number) }
    {
        let mut bytes = [0; 4];
        LittleEndian::write_u32(&mut bytes, number);
        self.put(&bytes)
    }

    // A base copy without its gate.
    fn put_copy(&mut self, alloc: Global, image: &BaseImage) -> Result<(), AllocError>
        requires image { IsImage image.now }
        requires room { length self.old.archive + 16383 < 2 ^ 64 }
        ensures before { self.new.before ≡ self.old.before }
        ensures added { OnOk result (self.new.archive ≡ self.old.archive ++ spelled (current image.now)) }
        ensures length { OnOk result (length self.new.archive ≡ length self.old.archive + 16383) }
    {
        let mut copy = Vec::new(alloc);
        copy.resize(SLOT_BYTES as usize - 1, 0)?;
        encode(image, &mut copy);
        self.put(&copy)
    }

    /// What an archive begins with: letters, its base copy, which is as `archived` gives it, and how many containers it has.
    pub fn put_front(
        &mut self,
        alloc: Global,
        image: &BaseImage,
        count: u32,
    ) -> Result<(), AllocError>
        requires image { IsImage image.now }
        requires archived { image.now ≡ archived_image image.now }
        requires room { length self.old.archive < 2 ^ 63 }
        ensures before { self.new.before ≡ self.old.before }
        ensures added { OnOk result (self.new.archive ≡ self.old.archive ++ front_bytes image.now count) }
        ensures length { OnOk result (length self.new.archive ≡ length self.old.archive + 16395) }
    {
        self.put(&MAGIC)?;
        self.put_copy(alloc, image)?;
        self.put_number(count)?;
        Ok(())
    }

    /// A container, whose open blocks are these bytes.
    pub fn put_container(&mut self, id: u32, blocks: &[u8]) -> Result<(), AllocError>
        requires few { length blocks.now < 2 ^ 32 }
        requires room { length self.old.archive < 2 ^ 63 }
        ensures before { self.new.before ≡ self.old.before }
        ensures added { OnOk result (self.new.archive ≡ self.old.archive ++ container_bytes id blocks.now) }
        ensures length { OnOk result (length self.new.archive ≡ length self.old.archive + (length blocks.now + 8)) }
    {
        self.put_number(id)?;
        self.put_number(blocks.len() as u32)?;
        self.put(blocks)
    }

    /// The bytes from before without the archive.
    pub fn give_up(self) -> Bytes
        ensures { result ≡ self.before }
    {
        let Draft {
            bytes,
            start,
            length: _,
            archive: _,
        } = self;
        let mut bytes = bytes;
        bytes.truncate(start);
        Bytes::from_vec(bytes)
    }

    /// The bytes from before with the whole archive after them, unless it has more bytes than it may have.
    pub fn finish(self) -> Result<Bytes, TooLong>
        ensures whole { IfOk result (λ bytes. (bytes ≡ self.before ++ self.archive) × (length self.archive ≤ most_archive)) }
        ensures long { IfErr result (λ refused. (refused.before ≡ self.before) × (refused.length ≡ length self.archive)
            × (most_archive < length self.archive)) }
    {
        let length = self.length;
        if length > MOST_BYTES {
            let before = self.give_up();
            return Err(TooLong { before, length });
        }
        Ok(Bytes::from_vec(self.bytes))
    }
}
