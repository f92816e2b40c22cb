// The sizes of the format, and what follows from them alone: each stands here and nowhere else. The definitions that contracts cite
// beside them are in specs/Format.antt.
ghost use Rattle.std.specs.Prelude.{◌≡◌};
ghost use Rattle.clfs_lsn.specs.Size.{size, sectors};

/// The bytes of a sector.
pub const SECTOR: u32 = 512;

/// The bytes of payload of a sector; the eight after them are its address.
pub const SECTOR_PAYLOAD: u32 = 504;

/// The bytes of a block's header, in its payload.
pub const BLOCK_HEADER: u32 = 16;

/// The bytes of a record's header.
pub const RECORD_HEADER: u32 = 32;

/// The most records of a block.
pub const MOST_BLOCK_RECORDS: u32 = 511;

/// The first byte of a block or of a base copy that counts. Every other value of it is a closed gate.
pub const OPEN_GATE: u8 = 0xA5;

/// The bytes of a record with so many bytes of data: its header, and the data filled up to a multiple of 8.
pub fn size_of_record(len: u32) -> u64
    ensures { result ≡ size len }
{
    RECORD_HEADER as u64 + (len as u64 + 7) / 8 * 8
}

/// The sectors that so many bytes of payload take, the last of them perhaps in part.
pub fn sectors_of(used: u64) -> u64
    ensures { result ≡ sectors used }
{
    used.div_ceil(SECTOR_PAYLOAD as u64)
}
