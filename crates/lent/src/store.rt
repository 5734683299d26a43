// A store's header, and its bag.
ghost use Rattle.std.specs.Prelude.{◌≡◌, ◌<◌, length};
ghost use Rattle.words.specs.Words.{words};
ghost use Rattle.layout.specs.Store.{decode};
ghost use Rattle.lent.specs.Stores.{SoundStore, StoreOf};

use layout::sizes;
use rules::settings::Settings;

// The settings that the store begins with: read once, and passed on.
pub fn settings(store: &[u8]) -> Settings
    requires { SoundStore store.now }
    ensures { StoreOf result store.now }
{
    Settings {
        places: words::read(store, sizes::PLACES_COUNT_AT) as usize,
        size: words::read(store, sizes::BLOCK_SIZE_AT) as usize,
        entries: words::read(store, sizes::MAX_ENTRIES_AT) as usize,
        chunks: words::read(store, sizes::MAX_CHUNKS_AT) as usize,
    }
}

pub fn view(store: &[u8], settings: Settings) -> u64
    requires { StoreOf settings store.now }
    ensures { result ≡ (decode (words store.now)).view }
{
    words::read(store, sizes::VIEW_AT)
}

// The highest id given.
pub fn given(store: &[u8], settings: Settings) -> u64
    requires { StoreOf settings store.now }
    ensures { result ≡ (decode (words store.now)).given }
{
    words::read(store, sizes::GIVEN_AT)
}

// With how many bricks the present view began.
pub fn started(store: &[u8], settings: Settings) -> u64
    requires { StoreOf settings store.now }
    ensures { result ≡ (decode (words store.now)).started }
{
    words::read(store, sizes::STARTED_AT)
}

// How many relays are in the bag.
pub fn relay_count(store: &[u8], settings: Settings) -> u64
    requires { StoreOf settings store.now }
    ensures { result ≡ length (decode (words store.now)).bag }
{
    words::read(store, sizes::bag_at(settings))
}
