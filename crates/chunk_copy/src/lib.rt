// copy,key: from the home brick to the next other member by id, circularly, unsaved; no change if it is held there or if there is none.

#![tactic(auto)]

ghost use Rattle.std.specs.Prelude.{◌≡◌};
ghost use Rattle.words.specs.Words.{words};
ghost use Rattle.rules.specs.Chunks.{held};
ghost use Rattle.rules.specs.Event.{Event};
ghost use Rattle.rules.specs.Refusals.{code_of};
ghost use Rattle.rules.specs.Question.{first_no, AllYes};
ghost use Rattle.rules.specs.Writes.{copy_asks, copy_effect};
ghost use Rattle.layout.specs.Store.{decode, render};
ghost use Rattle.lent.specs.Performs.{Performs};
ghost use Rattle.lent.specs.Stores.{StoreOf};
ghost use Rattle.chunk_copy.specs.Copies.{CopiedTo, has_room};

use lent::{Answer, brick, place};
use rules::numbers::ChunkKey;
use rules::refusal::Refusal;
use rules::settings::Settings;

// ---- questions

// The place of the member that gets the chunk: nowhere if there is none, or if it holds the chunk.
fn copied_to(store: &[u8], settings: Settings, key: ChunkKey) -> Option<usize>
    requires { StoreOf settings store.now }
    ensures { CopiedTo settings (decode (words store.now)) key.0 result }
{
    let target = holders::target(store, settings, key);
    target.filter(|&place| !holders::holds_at(store, settings, place, key))
}

// Is there nothing to copy, or room for it?
fn has_room(store: &[u8], settings: Settings, key: ChunkKey) -> bool
    requires { StoreOf settings store.now }
    ensures { result ≡ has_room (decode (words store.now)) key.0 }
{
    let most = settings.chunks as u64;
    let place = copied_to(store, settings, key);
    place.is_none_or(|place| place::chunk_count(store, settings, place) < most)
}

// Does the brick hold the chunk?
fn is_held(store: &[u8], settings: Settings, id: u64, key: ChunkKey) -> bool
    requires { StoreOf settings store.now }
    ensures { result ≡ held ((decode (words store.now)).bricks.log id) key.0 }
{
    let place = brick::place_of(store, settings, id);
    place.is_some_and(|place| holders::holds_at(store, settings, place, key))
}

fn asks(store: &[u8], settings: Settings, key: ChunkKey) -> Result<(), Refusal>
    requires { StoreOf settings store.now }
    ensures { code_of result ≡ first_no (copy_asks (decode (words store.now)) key.0) }
{
    let home = key.home();
    if home == 0 {
        return Err(Refusal::BadInput);
    }
    if !brick::up_member(store, settings, home) {
        return Err(Refusal::NoMember);
    }
    if !has_room(store, settings, key) {
        return Err(Refusal::NoRoom);
    }
    if is_held(store, settings, home, key) {
        Ok(())
    } else {
        Err(Refusal::NoChunk)
    }
}

// ---- the effect

// All was answered yes, so the home brick stands somewhere and holds the chunk.
fn effect(store: &mut [u8], settings: Settings, key: ChunkKey)
    requires { StoreOf settings store.old × AllYes (copy_asks (decode (words store.old)) key.0) }
    ensures { words store.new ≡ render (copy_effect (decode (words store.old)) key.0) (words store.old) }
{
    let Some(target) = copied_to(store, settings, key) else {
        return;
    };
    let Some(home) = brick::place_of(store, settings, key.home()) else {
        return;
    };
    let Some(row) = holders::find_at(store, settings, home, key) else {
        return;
    };
    transfer::bring(store, settings, home, row, target, key, false);
}

pub fn copy(store: &mut [u8], settings: Settings, key: u64) -> Answer
    requires { StoreOf settings store.old }
    ensures { Performs (Event.copy key) (words store.old) result (words store.new) }
{
    asks(store, settings, ChunkKey(key))?;
    effect(store, settings, ChunkKey(key));
    Ok(0)
}
