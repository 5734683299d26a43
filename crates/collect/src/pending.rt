// Is a bucket ready with nothing pending? It is where it is ready and the four copies of its pair are the same, so three comparisons of tables answer it.
ghost use Rattle.std.specs.Prelude.{◌≡◌, [], ◌<◌};
ghost use Rattle.words.specs.Words.{words};
ghost use Rattle.rules.specs.Limits.{buckets};
ghost use Rattle.rules.specs.Derived.{nothing_pending};
ghost use Rattle.rules.specs.Sound.{same_entries};
ghost use Rattle.layout.specs.Store.{decode};
ghost use Rattle.lent.specs.Stores.{StoreOf};

use lent::{brick, bucket, place};
use rules::settings::Settings;

// Are a brick's entries of a bucket the same in memory and on disk?
fn settled(store: &[u8], settings: Settings, bucket: usize, id: u64) -> bool
    requires { StoreOf settings store.now × (bucket < buckets settings) }
    ensures { result ≡ same_entries (((decode (words store.now)).bucket bucket).memory id)
        (((decode (words store.now)).bucket bucket).disk id) }
{
    match brick::place_of(store, settings, id) {
        Some(place) => entries::same(
            place::memory(store, settings, place, bucket),
            place::disk(store, settings, place, bucket),
            settings.entries,
        ),
        None => true,
    }
}

// Has a brick no entries of a bucket in memory?
fn clear(store: &[u8], settings: Settings, bucket: usize, id: u64) -> bool
    requires { StoreOf settings store.now × (bucket < buckets settings) }
    ensures { result ≡ same_entries [] (((decode (words store.now)).bucket bucket).memory id) }
{
    match brick::place_of(store, settings, id) {
        Some(place) => words::read(place::memory(store, settings, place, bucket), 0) == 0,
        None => true,
    }
}

// Have two bricks the same entries of a bucket in memory? A brick that no place holds has none.
fn same_memory(store: &[u8], settings: Settings, bucket: usize, one: u64, two: u64) -> bool
    requires { StoreOf settings store.now × (bucket < buckets settings) }
    ensures { result ≡ same_entries (((decode (words store.now)).bucket bucket).memory one)
        (((decode (words store.now)).bucket bucket).memory two) }
{
    let Some(first) = brick::place_of(store, settings, one) else {
        return clear(store, settings, bucket, two);
    };
    let Some(second) = brick::place_of(store, settings, two) else {
        return clear(store, settings, bucket, one);
    };
    entries::same(
        place::memory(store, settings, first, bucket),
        place::memory(store, settings, second, bucket),
        settings.entries,
    )
}

// Is a bucket ready, with nothing pending?
pub fn nothing_pending(store: &[u8], settings: Settings, bucket: usize) -> bool
    requires { StoreOf settings store.now × (bucket < buckets settings) }
    ensures { result ≡ nothing_pending ((decode (words store.now)).bucket bucket) }
{
    let agreed = bucket::agreed(store, settings, bucket);
    if !agreed.ready {
        return false;
    }
    if !settled(store, settings, bucket, agreed.primary) {
        return false;
    }
    if !settled(store, settings, bucket, agreed.backup) {
        return false;
    }
    same_memory(store, settings, bucket, agreed.primary, agreed.backup)
}
