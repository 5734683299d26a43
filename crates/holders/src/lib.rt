// Who holds a chunk: members in the order of their ids, and what their logs hold.

#![tactic(auto)]

ghost use Rattle.std.specs.Prelude.{◌≡◌, ◌≤◌, ◌<◌, length};
ghost use Rattle.words.specs.Words.{words};
ghost use Rattle.rules.specs.Numbers.{home_of};
ghost use Rattle.rules.specs.Chunks.{held, saved_in};
ghost use Rattle.rules.specs.Derived.{members_from, first_holder, holder, saved_twice};
ghost use Rattle.rules.specs.Upkeep.{of_first_two};
ghost use Rattle.rules.specs.Writes.{target};
ghost use Rattle.layout.specs.Store.{decode};
ghost use Rattle.chunk_log.specs.Log.{chunk_at};
ghost use Rattle.chunk_log.specs.Answers.{FoundIn};
ghost use Rattle.lent.specs.Stores.{StoreOf};
ghost use Rattle.holders.specs.Members.{between, member_within, NextIn, Chosen, LiesWith, member_saved, NextSaved, round, begins_with};

use layout::sizes;
use lent::place;
use rules::constants;
use rules::numbers::ChunkKey;
use rules::settings::Settings;

// ids are below this
const IDS: u64 = constants::MAX_ID + 1;

// ---- members

// Is there a member at the place with an id from one number to below another?
fn member_within(store: &[u8], settings: Settings, from: u64, to: u64, place: usize) -> bool
    requires { StoreOf settings store.now × (place < settings.places) }
    ensures { result ≡ member_within (decode (words store.now)) from to place }
{
    let id = place::id(store, settings, place);
    (from <= id) & (id < to) & place::is_member(store, settings, place)
}

// The place of the first member with an id from one number to below another.
pub fn next_member(store: &[u8], settings: Settings, from: u64, to: u64) -> Option<usize>
    requires { StoreOf settings store.now }
    ensures { NextIn settings (decode (words store.now)) from to result }
{
    let mut least = to;
    let mut first = None;
    for place in 0..settings.places {
        if member_within(store, settings, from, least, place) {
            least = place::id(store, settings, place);
            first = Some(place);
        }
    }
    first
}

// ---- chunks

// Where a chunk lies: the place of a brick that holds it, and the row of its log.
#[derive(Clone, Copy)]
pub struct Location {
    pub place: usize,
    pub row: usize,
}

// The chunk in the log of the brick at the place.
pub fn find_at(store: &[u8], settings: Settings, place: usize, key: ChunkKey) -> Option<usize>
    requires { StoreOf settings store.now × (place < settings.places) × (0 < (decode (words store.now)).ids place) }
    ensures { FoundIn ((decode (words store.now)).bricks.log ((decode (words store.now)).ids place)) key.0 result }
{
    chunk_log::find(
        place::log(store, settings, place),
        settings.chunks,
        settings.size / sizes::WORD_BYTES,
        key,
    )
}

// Does the brick at the place hold the chunk?
pub fn holds_at(store: &[u8], settings: Settings, place: usize, key: ChunkKey) -> bool
    requires { StoreOf settings store.now × (place < settings.places) × (0 < (decode (words store.now)).ids place) }
    ensures { result ≡ held ((decode (words store.now)).bricks.log ((decode (words store.now)).ids place)) key.0 }
{
    chunk_log::holds(
        place::log(store, settings, place),
        settings.chunks,
        settings.size / sizes::WORD_BYTES,
        key,
    )
}

// Has it saved the chunk?
pub fn saved_at(store: &[u8], settings: Settings, place: usize, key: ChunkKey) -> bool
    requires { StoreOf settings store.now × (place < settings.places) × (0 < (decode (words store.now)).ids place) }
    ensures { result ≡ saved_in ((decode (words store.now)).bricks.log ((decode (words store.now)).ids place)) key.0 }
{
    chunk_log::holds_saved(
        place::log(store, settings, place),
        settings.chunks,
        settings.size / sizes::WORD_BYTES,
        key,
    )
}

// The bytes of the chunk in a row of the log of the brick at the place: a part of the store.
pub fn chunk<'a>(store: &'a [u8], settings: Settings, place: usize, row: usize) -> &'a [u8]
    requires { StoreOf settings store.now × (place < settings.places) × (0 < (decode (words store.now)).ids place)
        × (row < length ((decode (words store.now)).bricks.log ((decode (words store.now)).ids place))) }
    ensures { result.now ≡ (chunk_at ((decode (words store.now)).bricks.log ((decode (words store.now)).ids place)) row).bytes }
{
    let log = place::log(store, settings, place);
    chunk_log::bytes_at(log, settings.chunks, settings.size / sizes::WORD_BYTES, row)
}

// Where the chunk lies with the first member between two ids that holds it.
fn first_holder(
    store: &[u8],
    settings: Settings,
    key: ChunkKey,
    from: u64,
    to: u64,
) -> Option<Location>
    requires { StoreOf settings store.now }
    ensures { LiesWith settings (decode (words store.now))
        (first_holder (decode (words store.now)).bricks key.0 (between (decode (words store.now)) from to)) key.0 result }
{
    let mut low = from;
    // stays: each turn goes past the next member's id, so no range tells the turns
    while low < to {
        let place = next_member(store, settings, low, to)?;
        if let Some(row) = find_at(store, settings, place, key) {
            return Some(Location { place, row });
        }
        low = place::id(store, settings, place) + 1;
    }
    None
}

// Where the chunk is found: sought from the home id upward, circularly, among members.
pub fn holder(store: &[u8], settings: Settings, key: ChunkKey) -> Option<Location>
    requires { StoreOf settings store.now }
    ensures { LiesWith settings (decode (words store.now)) (holder (decode (words store.now)) key.0) key.0 result }
{
    let home = key.home();
    first_holder(store, settings, key, home, IDS).or_else(|| first_holder(
        store, settings, key, 0, home,
    ))
}

// Is there a member at the place that has the chunk saved?
fn member_saved(store: &[u8], settings: Settings, place: usize, key: ChunkKey) -> bool
    requires { StoreOf settings store.now × (place < settings.places) }
    ensures { result ≡ member_saved (decode (words store.now)) key.0 place }
{
    place::is_member(store, settings, place) && saved_at(store, settings, place, key)
}

// The first place from one on whose member has the chunk saved.
fn next_saved(store: &[u8], settings: Settings, key: ChunkKey, from: usize) -> Option<usize>
    requires { StoreOf settings store.now }
    ensures { NextSaved settings (decode (words store.now)) key.0 from result }
{
    (from..settings.places).find(|&place| member_saved(store, settings, place, key))
}

// Is the chunk saved at two members?
pub fn saved_twice(store: &[u8], settings: Settings, key: ChunkKey) -> bool
    requires { StoreOf settings store.now }
    ensures { result ≡ saved_twice (decode (words store.now)) key.0 }
{
    let Some(first) = next_saved(store, settings, key, 0) else {
        return false;
    };
    next_saved(store, settings, key, first + 1).is_some()
}

// ---- the members from the home id upward, circularly

// The place that a copy goes to: that of the next other member by id from the home brick, circularly.
pub fn target(store: &[u8], settings: Settings, key: ChunkKey) -> Option<usize>
    requires { StoreOf settings store.now }
    ensures { Chosen settings (decode (words store.now)) (target (decode (words store.now)) key.0) result }
{
    let home = key.home();
    next_member(store, settings, home + 1, IDS).or_else(|| next_member(store, settings, 0, home))
}

// Is a brick the first of the members between two ids?
fn is_first(store: &[u8], settings: Settings, id: u64, from: u64, to: u64) -> bool
    requires { StoreOf settings store.now }
    ensures { result ≡ begins_with id (between (decode (words store.now)) from to) }
{
    next_member(store, settings, from, to).is_some_and(|place| place::id(store, settings, place)
        == id)
}

// Is it the first from an id on, or where there is none, from the lowest id to the home id?
fn is_first_round(store: &[u8], settings: Settings, id: u64, from: u64, home: u64) -> bool
    requires { StoreOf settings store.now }
    ensures { result ≡ begins_with id (round (decode (words store.now)) from home) }
{
    match next_member(store, settings, from, IDS) {
        Some(place) => place::id(store, settings, place) == id,
        None => is_first(store, settings, id, 0, home),
    }
}

// Is it one of the first two of the members between two ids?
fn of_two(store: &[u8], settings: Settings, id: u64, from: u64, to: u64) -> bool
    requires { StoreOf settings store.now }
    ensures { result ≡ of_first_two id (between (decode (words store.now)) from to) }
{
    let Some(place) = next_member(store, settings, from, to) else {
        return false;
    };
    let first = place::id(store, settings, place);
    first == id || is_first(store, settings, id, first + 1, to)
}

// Is a brick one of the first two members from the key's home id upward, circularly?
pub fn of_first_two(store: &[u8], settings: Settings, id: u64, key: ChunkKey) -> bool
    requires { StoreOf settings store.now }
    ensures { result ≡ of_first_two id (members_from (decode (words store.now)) (home_of key.0)) }
{
    let home = key.home();
    match next_member(store, settings, home, IDS) {
        Some(place) => {
            let first = place::id(store, settings, place);
            first == id || is_first_round(store, settings, id, first + 1, home)
        }
        None => of_two(store, settings, id, 0, home),
    }
}
