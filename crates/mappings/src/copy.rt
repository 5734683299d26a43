// A brick's copy of a bucket: the key that it has for a block, and an entry that it takes. A brick that no place holds has empty copies.
ghost use Rattle.std.specs.Prelude.{◌≡◌, true, ◌<◌};
ghost use Rattle.words.specs.Words.{words};
ghost use Rattle.rules.specs.Entries.{key_for, has, takes};
ghost use Rattle.rules.specs.Limits.{buckets};
ghost use Rattle.layout.specs.Store.{decode, render};
ghost use Rattle.lent.specs.Stores.{StoreOf};
ghost use Rattle.mappings.specs.Copies.{with_entry};

use layout::sizes;
use lent::{brick, copies, place};
use rules::numbers::{BlockNumber, ChunkKey};
use rules::settings::Settings;

// Where a block's entry is or would go in memory: a guess for the other copies of the bucket, which are nearly always the same.
pub fn index_of(
    store: &[u8],
    settings: Settings,
    bucket: usize,
    id: u64,
    block: BlockNumber,
) -> usize
    requires { StoreOf settings store.now × (bucket < buckets settings) }
{
    brick::place_of(store, settings, id).map_or(0, |place| {
        let copy = place::memory(store, settings, place, bucket);
        entries::index_of(copy, settings.entries, block)
    })
}

// The key of a block in memory, and the one on disk: 0 where it has no mapping. It is looked for at the guess first.
// stays: each is one look-up; one function with a parameter for the copy would choose between place::memory and place::disk, and its promise between two fields
pub fn in_memory(
    store: &[u8],
    settings: Settings,
    bucket: usize,
    id: u64,
    block: BlockNumber,
    guess: usize,
) -> ChunkKey
    requires { StoreOf settings store.now × (bucket < buckets settings) }
    ensures { result.0 ≡ key_for (((decode (words store.now)).bucket bucket).memory id) block.0 }
{
    brick::place_of(store, settings, id).map_or(ChunkKey(0), |place| {
        let copy = place::memory(store, settings, place, bucket);
        entries::key_near(copy, settings.entries, block, guess)
    })
}

pub fn on_disk(
    store: &[u8],
    settings: Settings,
    bucket: usize,
    id: u64,
    block: BlockNumber,
    guess: usize,
) -> ChunkKey
    requires { StoreOf settings store.now × (bucket < buckets settings) }
    ensures { result.0 ≡ key_for (((decode (words store.now)).bucket bucket).disk id) block.0 }
{
    brick::place_of(store, settings, id).map_or(ChunkKey(0), |place| {
        let copy = place::disk(store, settings, place, bucket);
        entries::key_near(copy, settings.entries, block, guess)
    })
}

// Has the copy in memory an entry for the block?
pub fn has(store: &[u8], settings: Settings, bucket: usize, id: u64, block: BlockNumber) -> bool
    requires { StoreOf settings store.now × (bucket < buckets settings) }
    ensures { result ≡ has (((decode (words store.now)).bucket bucket).memory id) block.0 }
{
    brick::place_of(store, settings, id).is_some_and(|place| {
        let copy = place::memory(store, settings, place, bucket);
        entries::has(copy, settings.entries, block)
    })
}

// May it take the block?
pub fn takes(store: &[u8], settings: Settings, bucket: usize, id: u64, block: BlockNumber) -> bool
    requires { StoreOf settings store.now × (bucket < buckets settings) }
    ensures { result ≡ takes settings.entries (((decode (words store.now)).bucket bucket).memory id) block.0 }
{
    brick::place_of(store, settings, id).is_none_or(|place| {
        let copy = place::memory(store, settings, place, bucket);
        entries::takes(copy, settings.entries, block)
    })
}

// The copy in memory of the brick at a place takes the entry.
pub fn insert(
    store: &mut [u8],
    settings: Settings,
    place: usize,
    bucket: usize,
    block: BlockNumber,
    key: ChunkKey,
)
    requires { StoreOf settings store.old × (place < settings.places) × (bucket < buckets settings) × (0 < (decode (words store.old)).ids place)
        × (takes settings.entries (((decode (words store.old)).bucket bucket).memory ((decode (words store.old)).ids place)) block.0 ≡ true) }
    ensures { words store.new
        ≡ render (with_entry (decode (words store.old)) bucket ((decode (words store.old)).ids place) block.0 key.0)
        (words store.old) }
{
    let at = 8 * copies::memory_at(settings, place, bucket);
    let end = at + 8 * sizes::copy_words(settings);
    entries::insert(&mut store[at..end], settings.entries, block, key);
}
