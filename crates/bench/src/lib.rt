// What the benchmarks measure and the library does not export.

#![tactic(auto)]

ghost use Rattle.std.specs.Prelude.{◌≡◌, ◌+◌, ◌*◌, ◌^◌};
ghost use Rattle.rules.specs.Numbers.{proxy_of, bucket_of};
ghost use Rattle.rules.specs.Limits.{buckets};
ghost use Rattle.bench.specs.Moved.{Moved};

use rules::numbers::BlockNumber;
use rules::settings::Settings;

// Moves words within the lent bytes: 0. Answers 1, with nothing changed, where a run of the two is not within them.
// stays: C calls it, so its answer is a number.
#[unsafe(no_mangle)]
pub extern "C" fn bench_move(s: &mut [u8], from: usize, to: usize, n: usize) -> u64
    ensures { Moved from to n s.old result s.new }
{
    let count = s.len() / 8;
    if count < n {
        return 1;
    }
    if count - n < from {
        return 1;
    }
    if count - n < to {
        return 1;
    }
    moves::move_words(s, from, to, n);
    0
}

// A block's proxy and bucket, joined into one number, each in a half of its bits.
#[unsafe(no_mangle)]
pub extern "C" fn bench_numbers(
    places: usize,
    size: usize,
    entries: usize,
    chunks: usize,
    block: u64,
) -> u64
    ensures { result ≡ proxy_of block * 2 ^ 32 + bucket_of (buckets record { places = places; size = size; entries = entries; chunks = chunks }) block }
{
    let settings = Settings {
        places,
        size,
        entries,
        chunks,
    };
    let number = BlockNumber(block);
    (number.proxy() << 32) + number.bucket(settings)
}
