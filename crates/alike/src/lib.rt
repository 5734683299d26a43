// Are two lent stores alike? Same settings, view and members and, for each bucket, the same entries in the primary's memory.

#![tactic(auto)]

ghost use Rattle.std.specs.Prelude.{[], ◌≡◌, ◌<◌};
ghost use Rattle.lists.specs.Tests.{all_below};
ghost use Rattle.words.specs.Words.{words};
ghost use Rattle.rules.specs.Limits.{buckets};
ghost use Rattle.rules.specs.Sound.{same_entries};
ghost use Rattle.rules.specs.Alike.{alike};
ghost use Rattle.layout.specs.Store.{decode};
ghost use Rattle.lent.specs.Stores.{SoundStore};
ghost use Rattle.lent.specs.Stores.{StoreOf};
ghost use Rattle.lent.specs.Places.{PlaceOf};
ghost use Rattle.alike.specs.Alike.{member_in, same_primary, Two, alike_answer};

pub mod for_c;

use lent::{brick, bucket, place, store};
use rules::refusal::Refusal;
use rules::settings::Settings;

// ---- members

// Is the brick at a place of the one a member of the other, where it is a member?
fn member_in(one: &[u8], other: &[u8], settings: Settings, place: usize) -> bool
    requires { Two settings one.now other.now × (place < settings.places) }
    ensures { result ≡ member_in (decode (words one.now)) (decode (words other.now)) place }
{
    !place::is_member(one, settings, place)
        || brick::up_member(other, settings, place::id(one, settings, place))
}

// Is every member of the one a member of the other?
fn members_in(one: &[u8], other: &[u8], settings: Settings) -> bool
    requires { Two settings one.now other.now }
    ensures { result ≡ all_below settings.places (member_in (decode (words one.now)) (decode (words other.now))) }
{
    (0..settings.places).all(|place| member_in(one, other, settings, place))
}

// ---- what the primaries have in memory

// The place of a bucket's primary.
fn primary_place(one: &[u8], settings: Settings, bucket: usize) -> Option<usize>
    requires { StoreOf settings one.now × (bucket < buckets settings) }
    ensures { PlaceOf settings (decode (words one.now)) ((decode (words one.now)).bucket bucket).primary result }
{
    let agreed = bucket::agreed(one, settings, bucket);
    brick::place_of(one, settings, agreed.primary)
}

// Has the brick at a place no entries of the bucket in memory?
fn none_there(one: &[u8], settings: Settings, place: usize, bucket: usize) -> bool
    requires { StoreOf settings one.now × (place < settings.places) × (0 < (decode (words one.now)).ids place) × (bucket < buckets settings) }
    ensures { result ≡ same_entries (((decode (words one.now)).bucket bucket).memory ((decode (words one.now)).ids place)) [] }
{
    words::read(place::memory(one, settings, place, bucket), 0) == 0
}

// Have the bucket's primaries the same entries in memory? A lost primary has none.
fn same_memory(one: &[u8], other: &[u8], settings: Settings, bucket: usize) -> bool
    requires { Two settings one.now other.now × (bucket < buckets settings) }
    ensures { result ≡ same_primary (decode (words one.now)) (decode (words other.now)) bucket }
{
    let places = (
        primary_place(one, settings, bucket),
        primary_place(other, settings, bucket),
    );
    match places {
        (Some(first), Some(second)) => entries::same(
            place::memory(one, settings, first, bucket),
            place::memory(other, settings, second, bucket),
            settings.entries,
        ),
        (Some(first), None) => none_there(one, settings, first, bucket),
        (None, Some(second)) => none_there(other, settings, second, bucket),
        (None, None) => true,
    }
}

fn same_memories(one: &[u8], other: &[u8], settings: Settings) -> bool
    requires { Two settings one.now other.now }
    ensures { result ≡ all_below (buckets settings) (same_primary (decode (words one.now)) (decode (words other.now))) }
{
    (0..settings.buckets()).all(|bucket| same_memory(one, other, settings, bucket))
}

// ---- the whole

// Of two sound stores of the same settings.
fn same_parts(one: &[u8], other: &[u8], settings: Settings) -> bool
    requires { Two settings one.now other.now }
    ensures { result ≡ alike (decode (words one.now)) (decode (words other.now)) }
{
    if store::view(one, settings) != store::view(other, settings) {
        return false;
    }
    if !members_in(one, other, settings) {
        return false;
    }
    if !members_in(other, one, settings) {
        return false;
    }
    same_memories(one, other, settings)
}

// Of two sound stores.
fn are_alike(one: &[u8], other: &[u8]) -> bool
    requires { SoundStore one.now × SoundStore other.now }
    ensures { result ≡ alike (decode (words one.now)) (decode (words other.now)) }
{
    let settings = store::settings(one);
    settings == store::settings(other) && same_parts(one, other, settings)
}

// Are two lent stores alike? Refused where one of them is not sound.
pub fn alike(one: &[u8], other: &[u8]) -> Result<bool, Refusal>
    ensures { result ≡ alike_answer one.now other.now }
{
    if !store_check::is_sound(one) {
        return Err(Refusal::Unsound);
    }
    if !store_check::is_sound(other) {
        return Err(Refusal::Unsound);
    }
    Ok(are_alike(one, other))
}
