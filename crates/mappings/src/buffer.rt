// A brick's append buffer. That of a brick which no place holds is empty.
ghost use Rattle.std.specs.Prelude.{◌≡◌, ◌<◌, ltb, length};
ghost use Rattle.words.specs.Words.{words};
ghost use Rattle.rules.specs.Entries.{has};
ghost use Rattle.rules.specs.Limits.{max_waiting};
ghost use Rattle.layout.specs.Store.{decode, render};
ghost use Rattle.lent.specs.Stores.{StoreOf};
ghost use Rattle.mappings.specs.Copies.{with_waiting};

use layout::sizes;
use lent::{brick, place};
use rules::constants;
use rules::numbers::{BlockNumber, ChunkKey};
use rules::settings::Settings;

// Does the block wait there?
pub fn has(store: &[u8], settings: Settings, id: u64, block: BlockNumber) -> bool
    requires { StoreOf settings store.now }
    ensures { result ≡ has ((decode (words store.now)).bricks.buffer id) block.0 }
{
    brick::place_of(store, settings, id).is_some_and(|place| {
        let buffer = place::buffer(store, settings, place);
        entries::waits(buffer, constants::MAX_WAITING, block)
    })
}

// Has it room for one entry more?
pub fn has_room(store: &[u8], settings: Settings, id: u64) -> bool
    requires { StoreOf settings store.now }
    ensures { result ≡ ltb (length ((decode (words store.now)).bricks.buffer id)) max_waiting }
{
    brick::place_of(store, settings, id).is_none_or(|place| {
        words::read(place::buffer(store, settings, place), 0) < constants::MAX_WAITING as u64
    })
}

// That of the brick at a place takes the entry.
pub fn append(store: &mut [u8], settings: Settings, place: usize, block: BlockNumber, key: ChunkKey)
    requires { StoreOf settings store.old × (place < settings.places) × (0 < (decode (words store.old)).ids place)
        × (length ((decode (words store.old)).bricks.buffer ((decode (words store.old)).ids place)) < max_waiting) }
    ensures { words store.new
        ≡ render (with_waiting (decode (words store.old)) ((decode (words store.old)).ids place) block.0 key.0)
        (words store.old) }
{
    let at = 8 * (sizes::place_at(settings, place) + sizes::BUFFER_AT);
    let end = at + 8 * sizes::BUFFER_WORDS;
    entries::append(&mut store[at..end], constants::MAX_WAITING, block, key);
}
