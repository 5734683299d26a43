// Blocks, keys and views: three types, so that none can stand for another.
ghost use Rattle.std.specs.Prelude.{◌≡◌, ◌<◌};
ghost use Rattle.rules.specs.declared.settings.Settings.{Settings};
ghost use Rattle.rules.specs.Limits.{buckets};
ghost use Rattle.rules.specs.Numbers.{proxy_of, bucket_of, key_of, home_of, sequence_of, sequences};

use crate::constants;
use crate::settings::Settings;

// A virtual disk's block, below 2^51.
#[repr(C)]
#[derive(Clone, Copy, PartialEq, Eq)]
pub struct BlockNumber(pub u64);

// The id of the brick that made a chunk, times 2^56, plus a sequence number.
#[repr(C)]
#[derive(Clone, Copy, PartialEq, Eq)]
pub struct ChunkKey(pub u64);

// The number of an agreed view, 32 bits.
#[repr(C)]
#[derive(Clone, Copy, PartialEq, Eq)]
pub struct ViewNumber(pub u64);

// The rules divide by powers of 2; the code takes bits, of any 64-bit number.
impl BlockNumber {
    pub fn proxy(self) -> u64
        ensures { result ≡ proxy_of self.0 }
    {
        self.0 >> constants::PROXY_BITS
    }

    pub fn bucket(self, settings: Settings) -> u64
        ensures { result ≡ bucket_of (buckets settings) self.0 }
    {
        (self.0 >> constants::RUN_BITS) & (settings.buckets() as u64 - 1)
    }
}

impl ChunkKey {
    pub fn new(id: u64, sequence: u64) -> ChunkKey
        requires { (id < 256) × (sequence < sequences) }
        ensures { result.0 ≡ key_of id sequence }
    {
        ChunkKey(id * constants::SEQUENCES + sequence)
    }

    pub fn home(self) -> u64
        ensures { result ≡ home_of self.0 }
    {
        self.0 / constants::SEQUENCES
    }

    pub fn sequence(self) -> u64
        ensures { result ≡ sequence_of self.0 }
    {
        self.0 % constants::SEQUENCES
    }
}
