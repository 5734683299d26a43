// The check of a store in lent bytes: exactly the one definition of sound, on any bytes of any length. Its cost grows with what is in use.

#![tactic(auto)]

ghost use Rattle.std.specs.Prelude.{◌≡◌, length, get_or};
ghost use Rattle.words.specs.Words.{words};
ghost use Rattle.rules.specs.Sound.{sound_header, sound_key};
ghost use Rattle.layout.specs.Layout.{view_at, given_at, started_at};
ghost use Rattle.layout.specs.Store.{decode, sound_bytes};
ghost use Rattle.row_checks.specs.Rows.{key_below};
ghost use Rattle.store_check.specs.Places.{PlacesFit};
ghost use Rattle.store_check.specs.Store.{contents_sound, parts_sound, StoreFit};

use layout::sizes;
use rules::constants;
use rules::settings::Settings;

pub mod bounds;
pub mod place;

// a bound for each id, and for 0
const IDS: usize = constants::MAX_ID as usize + 1;

// View, the highest id given, and the number of bricks that the view began with are in range.
fn header_good(settings: Settings, store: &[u8]) -> bool
    requires { StoreFit settings store.now }
    ensures { result ≡ sound_header settings (get_or (words store.now) view_at 0) (get_or (words store.now) given_at 0)
        (get_or (words store.now) started_at 0) }
{
    let view = words::read(store, sizes::VIEW_AT);
    let given = words::read(store, sizes::GIVEN_AT);
    let started = words::read(store, sizes::STARTED_AT);
    (given <= constants::MAX_ID)
        & (0 < view)
        & (view <= constants::MAX_VIEW_OR_ORDER)
        & (started <= settings.places as u64)
}

// What has keys: the bag, the proxies, the places.
fn contents_good(settings: Settings, bounds: &[u64], given: u64, store: &[u8]) -> bool
    requires { PlacesFit settings bounds.now (length store.now) }
    ensures { result ≡ contents_sound settings (key_below bounds.now) given (words store.now) }
{
    let a = 8 * sizes::bag_at(settings);
    if !part_checks::bag::bag_good(settings, bounds, &store[a..a + 8 * sizes::BAG_WORDS]) {
        return false;
    }
    if !part_checks::proxies::proxies_good(settings, bounds, store) {
        return false;
    }
    place::places_good(settings, bounds, given, store)
}

// The parts of a store of the length that its settings have.
fn parts_good(settings: Settings, store: &[u8]) -> bool
    requires { StoreFit settings store.now }
    ensures { result ≡ parts_sound settings (sound_key (decode (words store.now))) (words store.now) }
{
    if !header_good(settings, store) {
        return false;
    }
    let given = words::read(store, sizes::GIVEN_AT);
    if !part_checks::agreed::all_agreed_good(settings, given, store) {
        return false;
    }
    let mut bounds = [0u64; IDS];
    bounds::fill_given(&mut bounds, given);
    bounds::fill_places(&mut bounds, settings, given, store);
    contents_good(settings, &bounds, given, store)
}

// Are these bytes a sound store?
pub fn is_sound(store: &[u8]) -> bool
    ensures { result ≡ sound_bytes store.now }
{
    if store.len() % sizes::WORD_BYTES != 0 {
        return false;
    }
    if store.len() < 8 * sizes::HEAD_WORDS {
        return false;
    }
    if words::read(store, sizes::VERSION_AT) != sizes::VERSION {
        return false;
    }
    let places = words::read(store, sizes::PLACES_COUNT_AT) as usize;
    let size = words::read(store, sizes::BLOCK_SIZE_AT) as usize;
    let entries = words::read(store, sizes::MAX_ENTRIES_AT) as usize;
    let chunks = words::read(store, sizes::MAX_CHUNKS_AT) as usize;
    let Ok(settings) = Settings::new(places, size, entries, chunks) else {
        return false;
    };
    if store.len() != 8 * sizes::store_words(settings) {
        return false;
    }
    parts_good(settings, store)
}
