// Where each field of a base copy stands in its slot, and which numbers it may have: the table that both writing and reading follow.
// What differs between versions of the copies is in `Layout`.
ghost use Rattle.std.specs.Prelude.{◌≡◌, ◌+◌, ◌*◌, ◌<◌};
ghost use Rattle.clfs_base.specs.Layout.{layout_of, file_place, row_bytes, row_place, required, optional, most_listed, most_minimum, most_tail, most_dedicated, fields};

/// The version of the copies that are written.
pub const VERSION: u8 = 2;

/// The bytes of a slot.
pub const SLOT: u32 = 16384;

/// The byte of a slot at which the archive tail stands.
pub const TAIL_AT: u32 = 32;

/// The first byte after the fields.
pub const FIELDS_END: u32 = 41;

/// The first byte of the listed containers' file numbers.
pub const FILES_AT: u32 = 64;

/// The first byte of the rows of the streams.
pub const ROWS_AT: u32 = 576;

// The most containers of a log.
const MOST_CONTAINERS: u64 = clfs_lsn::MOST_CONTAINERS as u64;

// The fewest that a policy may ask for.
const FEWEST_CONTAINERS: u64 = clfs_lsn::FEWEST_CONTAINERS as u64;

/// A version of the base copies.
#[derive(Clone, Copy, Debug)]
pub struct Layout {
    /// Its number, in byte 1.
    pub version: u8,
    /// The most streams.
    pub most_streams: u16,
    /// The most bytes of a stream's name, for which each row has room.
    pub longest_name: u8,
    /// Whether a log may be a dedicated one.
    pub has_dedicated: bool,
}

/// The first version, which is only read.
pub const VERSION_ONE: Layout = Layout {
    version: 1,
    most_streams: 128,
    longest_name: 32,
    has_dedicated: false,
};

/// The second version, in which every copy is written.
pub const VERSION_TWO: Layout = Layout {
    version: VERSION,
    most_streams: 192,
    longest_name: 64,
    has_dedicated: true,
};

/// The layout of the copies of a version. Any number but 1 is judged as the second version, whose first field it then fails.
pub fn layout_of(version: u8) -> Layout
    ensures { result ≡ layout_of version }
{
    if version == VERSION_ONE.version {
        VERSION_ONE
    } else {
        VERSION_TWO
    }
}

/// The numbers in the fields of a base copy before its tables.
#[derive(Clone, Copy, Debug)]
pub struct Numbers {
    /// Byte 1.
    pub version: u8,
    /// Byte 2.
    pub turn: u8,
    /// Byte 3.
    pub zero: u8,
    /// Bytes 4 to 7.
    pub block_sectors: u32,
    /// Bytes 8 to 11.
    pub container_sectors: u32,
    /// Bytes 12 and 13.
    pub containers: u16,
    /// Bytes 14 and 15.
    pub files_made: u16,
    /// Bytes 16 to 19.
    pub first: u32,
    /// Bytes 20 and 21.
    pub listed: u16,
    /// Bytes 22 and 23.
    pub streams: u16,
    /// Byte 24.
    pub archiving: u8,
    /// Byte 25.
    pub automatic: u8,
    /// Bytes 26 and 27.
    pub maximum: u16,
    /// Bytes 28 and 29.
    pub minimum: u16,
    /// Bytes 30 and 31.
    pub growth: u16,
    /// Bytes 32 to 39.
    pub tail: u64,
    /// Byte 40.
    pub dedicated: u8,
}

/// One field: its place, its number, and the numbers that it may have.
#[derive(Clone, Copy, Debug)]
pub struct Field {
    /// Its first byte in the slot.
    pub at: u32,
    /// How many bytes it has.
    pub width: u32,
    /// Its number.
    pub number: u64,
    /// The least number that it may have.
    pub least: u64,
    /// The greatest one.
    pub most: u64,
    /// It may be 0 besides.
    pub may_be_zero: bool,
}

// A field that has a number from the least to the most.
fn required(at: u32, width: u32, number: u64, least: u64, most: u64) -> Field
    ensures { result ≡ required at width number least most }
{
    Field {
        at,
        width,
        number,
        least,
        most,
        may_be_zero: false,
    }
}

// A field that may be 0 besides.
fn optional(at: u32, width: u32, number: u64, least: u64, most: u64) -> Field
    ensures { result ≡ optional at width number least most }
{
    Field {
        at,
        width,
        number,
        least,
        most,
        may_be_zero: true,
    }
}

// The most containers that can be listed.
fn most_listed(containers: u16, first: u32) -> u64
    ensures { result ≡ most_listed containers first }
{
    (containers as u64).min((1 << 32) - first as u64)
}

// The greatest minimum.
fn most_minimum(maximum: u16) -> u64
    ensures { result ≡ most_minimum maximum }
{
    if maximum == 0 {
        MOST_CONTAINERS
    } else {
        maximum as u64
    }
}

// The greatest archive tail.
fn most_tail(archiving: u8) -> u64
    ensures { result ≡ most_tail archiving }
{
    if archiving == 0 { 0 } else { u64::MAX }
}

// 1 where a log may be dedicated and has no more than one stream, else 0.
fn most_dedicated(layout: &Layout, streams: u16) -> u64
    ensures { result ≡ most_dedicated layout.now streams }
{
    if layout.has_dedicated && streams <= 1 {
        1
    } else {
        0
    }
}

/// The table of the fields, with these numbers in them.
pub fn fields(layout: &Layout, n: &Numbers) -> [Field; 17]
    ensures { result ≡ fields layout.now n.now }
{
    let version = layout.version as u64;
    let containers = n.containers as u64;
    [
        required(1, 1, n.version as u64, version, version),
        required(2, 1, n.turn as u64, 0, 2),
        required(3, 1, n.zero as u64, 0, 0),
        required(4, 4, n.block_sectors as u64, 1, 128),
        required(
            8,
            4,
            n.container_sectors as u64,
            2 * n.block_sectors as u64,
            16384,
        ),
        required(12, 2, containers, 1, MOST_CONTAINERS),
        required(14, 2, n.files_made as u64, containers, MOST_CONTAINERS),
        required(16, 4, n.first as u64, 1, u32::MAX as u64),
        required(
            20,
            2,
            n.listed as u64,
            1,
            most_listed(n.containers, n.first),
        ),
        required(22, 2, n.streams as u64, 0, layout.most_streams as u64),
        required(24, 1, n.archiving as u64, 0, 1),
        required(25, 1, n.automatic as u64, 0, 1),
        optional(26, 2, n.maximum as u64, FEWEST_CONTAINERS, MOST_CONTAINERS),
        optional(
            28,
            2,
            n.minimum as u64,
            FEWEST_CONTAINERS,
            most_minimum(n.maximum),
        ),
        required(30, 2, n.growth as u64, 0, clfs_lsn::GREATEST_GROWTH as u64),
        required(32, 8, n.tail, 0, most_tail(n.archiving)),
        required(
            40,
            1,
            n.dedicated as u64,
            0,
            most_dedicated(layout, n.streams),
        ),
    ]
}

/// The place of the file number of the listed container so many after the first.
pub fn file_place(i: u16) -> u32
    ensures { result ≡ file_place i }
{
    FILES_AT + 2 * i as u32
}

/// The bytes of a row.
pub fn row_bytes(layout: &Layout) -> u32
    ensures { result ≡ row_bytes layout.now }
{
    16 + layout.longest_name as u32
}

/// The place of the row so many after the first.
pub fn row_place(layout: &Layout, i: u16) -> u32
    ensures { result ≡ row_place layout.now i }
{
    ROWS_AT + row_bytes(layout) * i as u32
}

/// The byte of a slot of a version at which the base of the stream so many after the first stands.
pub fn base_place(version: u8, i: u16) -> u32
    ensures { result ≡ row_place (layout_of version) i + 8 }
{
    row_place(&layout_of(version), i) + 8
}
