// A store's settings, fixed at format.
ghost use Rattle.std.specs.Prelude.{◌≡◌};
ghost use Rattle.rules.specs.Limits.{in_range, checked, buckets};

use crate::constants;
use crate::refusal::Refusal;

#[derive(Clone, Copy, Debug, PartialEq, Eq)]
pub struct Settings {
    // places for bricks
    pub places: usize,
    // bytes in a block
    pub size: usize,
    // entries in each bucket copy
    pub entries: usize,
    // chunks in each brick's log
    pub chunks: usize,
}

impl Settings {
    pub const MIN_PLACES: usize = 3;

    pub const MAX_PLACES: usize = 8;

    pub const MIN_SIZE: usize = 8;

    pub const MAX_SIZE: usize = 8192;

    // a block is whole words
    pub const SIZE_STEP: usize = 8;

    pub const MIN_ENTRIES: usize = 2;

    pub const MAX_ENTRIES: usize = 1024;

    pub const MIN_CHUNKS: usize = 4;

    pub const MAX_CHUNKS: usize = 65536;

    // Question 1 of the settings.
    pub fn new(
        places: usize,
        size: usize,
        entries: usize,
        chunks: usize,
    ) -> Result<Settings, Refusal>
        ensures { result ≡ checked places size entries chunks }
    {
        let good = within(Settings::MIN_PLACES, Settings::MAX_PLACES, places)
            & within(Settings::MIN_SIZE, Settings::MAX_SIZE, size)
            & (size % Settings::SIZE_STEP == 0)
            & within(Settings::MIN_ENTRIES, Settings::MAX_ENTRIES, entries)
            & within(Settings::MIN_CHUNKS, Settings::MAX_CHUNKS, chunks);
        if !good {
            return Err(Refusal::BadSettings);
        }
        Ok(Settings {
            places,
            size,
            entries,
            chunks,
        })
    }

    // The number of buckets.
    pub fn buckets(self) -> usize
        ensures { result ≡ buckets self }
    {
        constants::BUCKETS
    }
}

fn within(low: usize, high: usize, n: usize) -> bool
    ensures { result ≡ in_range low high n }
{
    (low <= n) & (n <= high)
}
