// Question 10 of mend: is there room for all chunks that it adds? A chunk is added where its key is named first, so each is counted once, and before
// anything changes. A chunk that the place lacks lies in some row of some place's log, and no other chunk does: a flag for each row and place says
// whether its key was named before. There are flags for a part of the rows; logs that have more are counted part by part.
ghost use Rattle.std.specs.Prelude.{◌≡◌, not, ℕ, ◌+◌, ◌<◌, ◌≤◌, leb, length, Some};
ghost use Rattle.words.specs.Words.{words};
ghost use Rattle.rules.specs.Limits.{buckets, max_places};
ghost use Rattle.rules.specs.Upkeep.{mended};
ghost use Rattle.layout.specs.Store.{decode};
ghost use Rattle.named.specs.Tables.{named, AllNamed};
ghost use Rattle.mend.specs.Fit.{UpAt};
ghost use Rattle.mend.specs.Flags.{flag, raised, MeetsAt, Met, Meets};
ghost use Rattle.mend.specs.Keys.{before, added, part_rows};
ghost use Rattle.mend.specs.Counts.{TableFit, Counts, CountAt, InBucket, InAll, named_below};

use crate::act;
use crate::act::Act;
use layout::sizes;
use lent::place;
use rules::numbers::ChunkKey;
use rules::settings::Settings;

// ---- flags: a byte for each row of a part, in it a bit for each place

const PART_ROWS: usize = 4096;

const BITS: [u8; Settings::MAX_PLACES] = [1, 2, 4, 8, 16, 32, 64, 128];

// The flag of a row and place goes up. Was it down?
fn raise(flags: &mut [u8], row: usize, place: usize) -> bool
    requires { (row < length flags.old) × (place < max_places) }
    ensures { (result ≡ not (flag flags.old row place)) × (flags.new ≡ raised flags.old row place) }
{
    let bit = BITS[place];
    let new = flags[row] & bit == 0;
    flags[row] |= bit;
    new
}

// ---- chunks that are added

// Of a part of the rows: the chunks in it, each counted once, and those in later rows, each counted as often as it is named.
#[derive(Clone, Copy)]
struct Count {
    inside: usize,
    beyond: usize,
}

// What does the chunk in this row of this place count, in the part from row `base` on? Its flag goes up.
fn count_row(flags: &mut [u8], base: usize, row: usize, place: usize) -> Count
    requires { (length flags.old ≡ part_rows) × (place < max_places) }
    ensures { MeetsAt base row place flags.old flags.new result.inside result.beyond }
{
    if row < base {
        return Count {
            inside: 0,
            beyond: 0,
        };
    }
    let at = row - base;
    if at >= PART_ROWS {
        return Count {
            inside: 0,
            beyond: 1,
        };
    }
    let new = raise(flags, at, place);
    Count {
        inside: new as usize,
        beyond: 0,
    }
}

// What does a key count? Nothing where the place has its chunk or is not to get it.
fn count_key(
    store: &[u8],
    settings: Settings,
    place: usize,
    key: ChunkKey,
    base: usize,
    flags: &mut [u8],
) -> Count
    requires { UpAt settings store.now place × (length flags.old ≡ part_rows) }
    ensures { Meets settings (decode (words store.now)) ((decode (words store.now)).ids place) base key.0
        flags.old flags.new result.inside result.beyond }
{
    match act::for_key(store, settings, place, key) {
        Act::Nothing => Count {
            inside: 0,
            beyond: 0,
        },
        Act::Save => Count {
            inside: 0,
            beyond: 0,
        },
        Act::Bring(from) => count_row(flags, base, from.row, from.place),
    }
}

// So many entries has a bucket whose table lies at word `from`, and none where there is no table.
fn count_at(store: &[u8], settings: Settings, from: Option<usize>) -> usize
    requires { (at : ℕ) → from ≡ Some at → TableFit settings at (words store.now) (length store.now) }
    ensures { CountAt from (words store.now) result }
{
    match from {
        Some(at) => words::read(store, at) as usize,
        None => 0,
    }
}

// What do the keys of a bucket count?
fn count_in(
    store: &[u8],
    settings: Settings,
    place: usize,
    tables: &[Option<usize>],
    bucket: usize,
    base: usize,
    flags: &mut [u8],
) -> Count
    requires { Counts settings store.now place tables.now × (bucket < buckets settings)
        × Met settings (decode (words store.now)) ((decode (words store.now)).ids place) base (before (decode (words store.now)) bucket 0) flags.old }
    ensures { InBucket (decode (words store.now)) ((decode (words store.now)).ids place) base bucket
        (length (named (decode (words store.now)) bucket)) result.inside result.beyond
        × Met settings (decode (words store.now)) ((decode (words store.now)).ids place) base
        (before (decode (words store.now)) (bucket + 1) 0) flags.new }
{
    let Some(from) = tables[bucket] else {
        return Count {
            inside: 0,
            beyond: 0,
        };
    };
    let n = words::read(store, from) as usize;
    let mut inside = 0;
    let mut beyond = 0;
    for i in 0..n {
        let key = ChunkKey(words::read(store, from + (2 + i * sizes::ENTRY_WORDS)));
        let count = count_key(store, settings, place, key, base, flags);
        inside += count.inside;
        beyond += count.beyond;
    }
    Count { inside, beyond }
}

// What do those of all buckets count, where no flag is up?
fn count_all(
    store: &[u8],
    settings: Settings,
    place: usize,
    tables: &[Option<usize>],
    base: usize,
    flags: &mut [u8],
) -> Count
    requires { Counts settings store.now place tables.now
        × Met settings (decode (words store.now)) ((decode (words store.now)).ids place) base (before (decode (words store.now)) 0 0) flags.old }
    ensures { InAll (decode (words store.now)) ((decode (words store.now)).ids place) base (buckets settings)
        result.inside result.beyond }
{
    let mut inside = 0;
    let mut beyond = 0;
    for bucket in 0..settings.buckets() {
        let count = count_in(store, settings, place, tables, bucket, base, flags);
        inside += count.inside;
        beyond += count.beyond;
    }
    Count { inside, beyond }
}

fn count_part(
    store: &[u8],
    settings: Settings,
    place: usize,
    tables: &[Option<usize>],
    base: usize,
) -> Count
    requires { Counts settings store.now place tables.now }
    ensures { InAll (decode (words store.now)) ((decode (words store.now)).ids place) base (buckets settings)
        result.inside result.beyond }
{
    let mut flags = [0u8; PART_ROWS];
    count_all(store, settings, place, tables, base, &mut flags)
}

// Are at most `room` chunks added? At least those of the parts so far are, and at most those and the ones counted beyond; while that leaves it open, the next
// part is counted.
fn at_most(
    store: &[u8],
    settings: Settings,
    place: usize,
    tables: &[Option<usize>],
    room: usize,
) -> bool
    requires { Counts settings store.now place tables.now × (room ≤ settings.chunks) }
    ensures { result ≡ leb (added (decode (words store.now)) ((decode (words store.now)).ids place) (buckets settings)) room }
{
    let mut count = 0;
    let mut base = 0;
    // stays: it ends by what is counted; a range of parts would need their number first
    while count <= room {
        let part = count_part(store, settings, place, tables, base);
        count += part.inside;
        if count + part.beyond <= room {
            return true;
        }
        base += PART_ROWS;
    }
    false
}

// ---- entries that are named: at most so many chunks are added

fn named_count(store: &[u8], settings: Settings, tables: &[Option<usize>]) -> usize
    requires { AllNamed settings store.now tables.now }
    ensures { result ≡ named_below (decode (words store.now)) (buckets settings) }
{
    let mut count = 0;
    for from in tables {
        count += count_at(store, settings, *from);
    }
    count
}

// Is there room for all? Where there is room for as many chunks as there are entries, nothing else is looked at.
pub fn has_room(store: &[u8], settings: Settings, place: usize, tables: &[Option<usize>]) -> bool
    requires { Counts settings store.now place tables.now }
    ensures { result ≡ leb (length (mended (decode (words store.now)) ((decode (words store.now)).ids place))) settings.chunks }
{
    let held = words::read(place::log(store, settings, place), 0) as usize;
    let room = settings.chunks - held;
    if named_count(store, settings, tables) <= room {
        return true;
    }
    at_most(store, settings, place, tables, room)
}
