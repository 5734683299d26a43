// The bricks that are up: those of which the next view has its members.
ghost use Rattle.std.specs.Prelude.{◌≡◌, ◌<◌, ◌≤◌, length, take};
ghost use Rattle.lists.specs.Tests.{count_below};
ghost use Rattle.words.specs.Words.{words};
ghost use Rattle.rules.specs.Limits.{max_id};
ghost use Rattle.rules.specs.Derived.{is_up};
ghost use Rattle.rules.specs.Pairs.{ids_of};
ghost use Rattle.layout.specs.Store.{decode};
ghost use Rattle.lent.specs.Stores.{StoreOf};
ghost use Rattle.views.specs.Begin.{stayed};
ghost use Rattle.views.specs.Members.{ids, up_within, NextUp};

use lent::place;
use rules::constants;
use rules::settings::Settings;

// ids are below this
const IDS: u64 = constants::MAX_ID + 1;

// Is the brick at the place up, with an id from one number to below another?
fn up_within(store: &[u8], settings: Settings, from: u64, to: u64, place: usize) -> bool
    requires { StoreOf settings store.now × (place < settings.places) }
    ensures { result ≡ up_within (decode (words store.now)) from to place }
{
    let id = place::id(store, settings, place);
    from <= id && id < to && place::is_up(store, settings, place)
}

// The lowest id of an up brick from a number on.
fn next_up(store: &[u8], settings: Settings, from: u64) -> Option<u64>
    requires { StoreOf settings store.now × (0 < from) × (from ≤ ids) }
    ensures { NextUp (decode (words store.now)) from result }
{
    let mut least = IDS;
    for place in 0..settings.places {
        if up_within(store, settings, from, least, place) {
            least = place::id(store, settings, place);
        }
    }
    (least < IDS).then_some(least)
}

// The ids of the bricks that are up, ascending, go to the front of the list; so many they are.
pub fn up_ids(store: &[u8], settings: Settings, ids: &mut [u64]) -> usize
    requires { StoreOf settings store.now × (length ids.old ≡ max_id) }
    ensures { (result ≤ max_id)
        × (take result ids.new ≡ ids_of (decode (words store.now)).given (decode (words store.now)).bricks.up) }
{
    let mut count = 0;
    let mut from = 1;
    while let Some(id) = next_up(store, settings, from) {
        ids[count] = id;
        count += 1;
        from = id + 1;
    }
    count
}

// How many bricks are up.
pub fn count_up(store: &[u8], settings: Settings) -> usize
    requires { StoreOf settings store.now }
    ensures { result ≡ count_below settings.places (is_up (decode (words store.now))) }
{
    (0..settings.places)
        .filter(|place| place::is_up(store, settings, *place))
        .count()
}

// Is the brick at a place up, and did the present view begin with it?
fn stayed(store: &[u8], settings: Settings, place: usize) -> bool
    requires { StoreOf settings store.now × (place < settings.places) }
    ensures { result ≡ stayed (decode (words store.now)) place }
{
    place::is_up(store, settings, place) && place::status(store, settings, place).began
}

// How many bricks that the present view began with are up, risen ones counted.
pub fn count_stayed(store: &[u8], settings: Settings) -> usize
    requires { StoreOf settings store.now }
    ensures { result ≡ count_below settings.places (stayed (decode (words store.now))) }
{
    (0..settings.places)
        .filter(|place| stayed(store, settings, *place))
        .count()
}
