// Append buffers: entries in arrival order. A bucket's entries leave a buffer, or move into a copy.

#![tactic(auto)]

ghost use Rattle.std.specs.Prelude.{◌≡◌, not, ◌+◌, ◌*◌, ◌≤◌, ◌<◌, eqb, length};
ghost use Rattle.lists.specs.Tests.{only};
ghost use Rattle.lists.specs.Runs.{run};
ghost use Rattle.words.specs.Words.{words};
ghost use Rattle.rules.specs.Limits.{buckets};
ghost use Rattle.rules.specs.Numbers.{bucket_of};
ghost use Rattle.rules.specs.Entries.{is_of_bucket};
ghost use Rattle.codec.specs.Codec.{change};
ghost use Rattle.layout.specs.Layout.{entries_codec};
ghost use Rattle.tables.specs.Tables.{IsTable, Sorted};
ghost use Rattle.entries.specs.Entries.{entry_words, entries_words};
ghost use Rattle.buffers.specs.Steps.{SiftStep, drained_at, drained_words, Drains};

use layout::sizes::ENTRY_WORDS;
use rules::numbers::{BlockNumber, ChunkKey};
use rules::settings::Settings;

// Is the block of the bucket?
fn of_bucket(b: BlockNumber, settings: Settings, g: u64) -> bool
    ensures { result ≡ eqb (bucket_of (buckets settings) b.0) g }
{
    b.bucket(settings) == g
}

// Entry i, where it is not of the bucket, goes to place o.
fn sift_at(t: &mut [u8], most: usize, settings: Settings, g: u64, i: usize, o: usize) -> usize
    requires { (o ≤ i) × (i < most) × (length t.old ≡ 8 * entries_words most) }
    ensures { SiftStep (buckets settings) g i o (words t.old) (words t.new) result }
{
    let b = BlockNumber(words::read(t, 1 + i * ENTRY_WORDS));
    if of_bucket(b, settings, g) {
        return o;
    }
    moves::move_down(t, 1 + i * ENTRY_WORDS, 1 + o * ENTRY_WORDS, ENTRY_WORDS);
    o + 1
}

// The bucket's entries go; the others stay in their order.
pub fn drop_bucket(t: &mut [u8], most: usize, settings: Settings, g: u64)
    requires { IsTable entry_words most (words t.old) (length t.old) }
    ensures { words t.new ≡ change (entries_codec most) (only (λ e. not (is_of_bucket (buckets settings) g e))) (words t.old) }
{
    let n = words::read(t, 0) as usize;
    let mut o = 0;
    for i in 0..n {
        o = sift_at(t, most, settings, g, i, o);
    }
    words::write(t, 0, o as u64);
}

// The entry at word `at`, where it is of the bucket, goes into the copy at word `copy`.
fn drain_at(s: &mut [u8], at: usize, copy: usize, most: usize, settings: Settings, g: u64)
    requires at_in_bounds { (8 * (at + 2) ≤ length s.old) × (8 * (copy + entries_words most) ≤ length s.old) }
    requires sorted { Sorted entry_words most (run copy (entries_words most) (words s.old)) (8 * entries_words most) }
    ensures { words s.new ≡ drained_at (buckets settings) g at copy most (words s.old) }
{
    let b = BlockNumber(words::read(s, at));
    let k = ChunkKey(words::read(s, at + 1));
    if of_bucket(b, settings, g) {
        let start = 8 * copy;
        let size = 8 * (1 + most * ENTRY_WORDS);
        entries::insert_or_drop(&mut s[start..start + size], most, b, k);
    }
}

// The bucket's entries of the buffer at word `buffer` move into the copy at word `copy`, in arrival order; a new block that finds it full is dropped.
pub fn drain(
    s: &mut [u8],
    buffer: usize,
    waiting: usize,
    copy: usize,
    most: usize,
    settings: Settings,
    g: u64,
)
    requires { Drains buffer waiting copy most (words s.old) (length s.old) }
    ensures { words s.new ≡ drained_words (buckets settings) g buffer waiting copy most (words s.old) }
{
    for i in 0..words::read(s, buffer) as usize {
        drain_at(s, buffer + (1 + i * ENTRY_WORDS), copy, most, settings, g);
    }
}
