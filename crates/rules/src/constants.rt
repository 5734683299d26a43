// The limits that no setting changes. `specs/Limits` and `specs/Numbers` have each by the same name but BLOCKS, there block-count; those in bits are powers
// of 2 there.

// a virtual disk's blocks
pub const BLOCKS: u64 = 0x8_0000_0000_0000;

// bits of a block number below its proxy's: 2^49 blocks of one proxy
pub const PROXY_BITS: u64 = 49;

// bits of a block number below its bucket's
pub const RUN_BITS: u64 = 10;

// blocks that lie together in one bucket
pub const RUN_BLOCKS: u64 = 1 << RUN_BITS;

// sequence numbers of one brick
pub const SEQUENCES: u64 = 0x100_0000_0000_0000;

// a put raises a brick's ceiling by so much
pub const CEILING_STEP: u64 = 1024;

// the highest view number and order number: 32 bits
pub const MAX_VIEW_OR_ORDER: u64 = 0xffff_ffff;

pub const MAX_ID: u64 = 255;

// a power of 2: a block's bucket is some bits of its number
pub const BUCKETS: usize = 16;

// there is room for so many
pub const MAX_BUCKETS: usize = 64;

pub const PROXIES: usize = 4;

// relays in the bag, items of a proxy, entries in an append buffer
pub const MAX_RELAYS: usize = 64;

pub const MAX_ITEMS: usize = 32;

pub const MAX_WAITING: usize = 32;
