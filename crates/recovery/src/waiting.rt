// Entries that wait in the append buffer of a place.
ghost use Rattle.std.specs.Prelude.{◌≡◌, length};
ghost use Rattle.words.specs.Words.{words};
ghost use Rattle.recovery.specs.Copies.{Moves, moved_words};

use layout::sizes;
use rules::constants;
use rules::settings::Settings;

// Those of the bucket move into the place's copy of it in memory.
pub fn drain(store: &mut [u8], settings: Settings, bucket: usize, place: usize)
    requires { Moves settings bucket place (words store.old) (length store.old) }
    ensures { words store.new ≡ moved_words settings bucket place (words store.old) }
{
    let buffer = sizes::place_at(settings, place) + sizes::BUFFER_AT;
    let copy = lent::copies::memory_at(settings, place, bucket);
    buffers::drain(
        store,
        buffer,
        constants::MAX_WAITING,
        copy,
        settings.entries,
        settings,
        bucket as u64,
    );
    let at = 8 * buffer;
    buffers::drop_bucket(
        &mut store[at..at + 8 * sizes::BUFFER_WORDS],
        constants::MAX_WAITING,
        settings,
        bucket as u64,
    );
}
