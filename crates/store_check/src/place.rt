// A place: the id of its brick, its status, its append buffer, its copies and its log.
ghost use Rattle.std.specs.Prelude.{◌≡◌, ◌+◌, ◌*◌, ◌≤◌, length};
ghost use Rattle.lists.specs.Tests.{all_below};
ghost use Rattle.words.specs.Words.{words};
ghost use Rattle.rules.specs.Sound.{sound_buffer};
ghost use Rattle.layout.specs.Layout.{buffer_at};
ghost use Rattle.row_checks.specs.Rows.{key_below};
ghost use Rattle.part_checks.specs.Copies.{Passed};
ghost use Rattle.store_check.specs.Places.{status_sound, waiting_at, brick_sound, alone_at, place_sound, PlaceFit, PlacesFit, OnePlaceFit};

use layout::sizes;
use part_checks::copies;
use row_checks::rows::Whose;
use row_checks::{chunks, rows};
use rules::constants;
use rules::settings::Settings;

// Flags are 0 or 1, a member is up, next is at most the ceiling.
fn status_good(place: &[u8]) -> bool
    requires { 8 * buffer_at ≤ length place.now }
    ensures { result ≡ status_sound (words place.now) }
{
    let up = words::read(place, sizes::UP_AT);
    let member = words::read(place, sizes::MEMBER_AT);
    let began = words::read(place, sizes::BEGAN_AT);
    let next = words::read(place, sizes::NEXT_AT);
    let ceiling = words::read(place, sizes::CEILING_AT);
    (up <= 1)
        & (member <= up)
        & (began <= 1)
        & (next <= ceiling)
        & (ceiling <= constants::SEQUENCES)
}

// The append buffer, which is empty where the brick is down.
fn buffer_good(settings: Settings, bounds: &[u64], up: bool, place: &[u8]) -> bool
    requires { PlaceFit settings bounds.now (length place.now) }
    ensures { result ≡ sound_buffer (key_below bounds.now) up (waiting_at (words place.now)) }
{
    if !up {
        return words::read(place, sizes::BUFFER_AT) == 0;
    }
    let a = 8 * sizes::BUFFER_AT;
    rows::table_good(
        settings,
        bounds,
        Whose::Anyone,
        &place[a..a + 8 * sizes::BUFFER_WORDS],
        constants::MAX_WAITING,
    )
}

// The place p, which holds a brick; the places below it passed.
fn brick_good(settings: Settings, bounds: &[u64], store: &[u8], p: usize, place: &[u8]) -> bool
    requires place_fit { PlaceFit settings bounds.now (length place.now) }
    requires passed { Passed settings bounds.now store.now p }
    ensures { result ≡ brick_sound settings (key_below bounds.now) (words place.now) }
{
    if !status_good(place) {
        return false;
    }
    let up = words::read(place, sizes::UP_AT) == 1;
    if !buffer_good(settings, bounds, up, place) {
        return false;
    }
    let from = 8 * sizes::COPIES_AT;
    let log = 8 * sizes::log_at(settings);
    if !copies::all_copies_good(settings, bounds, up, store, p, &place[from..log]) {
        return false;
    }
    let end = 8 * sizes::place_words(settings);
    chunks::log_good(settings, bounds, &place[log..end])
}

// Does no place below p have this id?
fn alone(settings: Settings, store: &[u8], p: usize, id: u64) -> bool
    requires { OnePlaceFit settings (length store.now) p }
    ensures { result ≡ all_below p (alone_at settings (words store.now) id) }
{
    (0..p).all(|q| words::read(store, sizes::place_at(settings, q)) != id)
}

// The place p; of an empty one nothing but the id is read. The places below it passed.
fn place_good(settings: Settings, bounds: &[u64], given: u64, store: &[u8], p: usize) -> bool
    requires places_fit { PlacesFit settings bounds.now (length store.now) }
    requires passed { Passed settings bounds.now store.now p }
    ensures { result ≡ place_sound settings (key_below bounds.now) given (words store.now) p }
{
    let at = sizes::place_at(settings, p);
    let id = words::read(store, at);
    if id == 0 {
        return true;
    }
    if given < id {
        return false;
    }
    if !alone(settings, store, p, id) {
        return false;
    }
    let a = 8 * at;
    let e = a + 8 * sizes::place_words(settings);
    brick_good(settings, bounds, store, p, &store[a..e])
}

pub fn places_good(settings: Settings, bounds: &[u64], given: u64, store: &[u8]) -> bool
    requires { PlacesFit settings bounds.now (length store.now) }
    ensures { result ≡ all_below settings.places (place_sound settings (key_below bounds.now) given (words store.now)) }
{
    for p in 0..settings.places {
        if !place_good(settings, bounds, given, store, p) {
            return false;
        }
    }
    true
}
