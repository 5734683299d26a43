// deliver: a relay reaches the backup, whose memory takes it, or it is set aside. It leaves the bag either way.
ghost use Rattle.std.specs.Prelude.{◌≡◌};
ghost use Rattle.words.specs.Words.{words};
ghost use Rattle.rules.specs.Event.{Event};
ghost use Rattle.rules.specs.Maps.{deliver_effect};
ghost use Rattle.rules.specs.Refusals.{code_of};
ghost use Rattle.rules.specs.Question.{first_no};
ghost use Rattle.layout.specs.Store.{decode, render};
ghost use Rattle.lent.specs.Performs.{Performs};
ghost use Rattle.lent.specs.Stores.{StoreOf};
ghost use Rattle.relays.specs.Relays.{relay_of, takes_relay, Takeable};
ghost use Rattle.relays.specs.Asks.{take_asks};

use crate::relay;
use bag::Relay;
use layout::sizes;
use lent::{Answer, brick, bucket};
use mappings::{block, copy};
use rules::refusal::Refusal;
use rules::settings::Settings;

// Is it of the present view, and its number higher than the highest taken?
fn is_taken(store: &[u8], settings: Settings, relay: Relay) -> bool
    requires { StoreOf settings store.now }
    ensures { result ≡ takes_relay (decode (words store.now)) (relay_of (decode (words store.now)) relay) }
{
    relay.view.0 == lent::store::view(store, settings)
        && block::agreed(store, settings, relay.block).taken < relay.order
}

// Is the backup an up member, and may its copy take the block?
fn asks(store: &[u8], settings: Settings, relay: Relay) -> Result<(), Refusal>
    requires { StoreOf settings store.now }
    ensures { code_of result ≡ first_no (take_asks (decode (words store.now)) (relay_of (decode (words store.now)) relay)) }
{
    let bucket = bucket::number(settings, relay.block);
    let agreed = bucket::agreed(store, settings, bucket);
    if !brick::up_member(store, settings, agreed.backup) {
        return Err(Refusal::NoMember);
    }
    if copy::takes(store, settings, bucket, agreed.backup, relay.block) {
        Ok(())
    } else {
        Err(Refusal::BackupFull)
    }
}

// The backup's memory takes it, its number is the highest taken, and it leaves the bag.
fn take(store: &mut [u8], settings: Settings, index: usize, relay: Relay)
    requires { StoreOf settings store.old × Takeable (decode (words store.old)) index (relay_of (decode (words store.old)) relay) }
    ensures { words store.new ≡ render (deliver_effect (decode (words store.old)) index) (words store.old) }
{
    let bucket = bucket::number(settings, relay.block);
    let agreed = bucket::agreed(store, settings, bucket);
    let Some(place) = brick::place_of(store, settings, agreed.backup) else {
        return;
    };
    copy::insert(store, settings, place, bucket, relay.block, relay.key);
    let span = relay::bag_span(settings);
    let from = span.from;
    let to = span.to;
    bag::remove(&mut store[from..to], index);
    words::write(
        store,
        sizes::agreed_at(settings, bucket) + sizes::TAKEN_AT,
        relay.order,
    );
}

pub fn deliver(store: &mut [u8], settings: Settings, index: u64) -> Answer
    requires { StoreOf settings store.old }
    ensures { Performs (Event.deliver index) (words store.old) result (words store.new) }
{
    if lent::store::relay_count(store, settings) <= index {
        return Err(Refusal::BadInput);
    }
    let found = relay::read(store, settings, index as usize);
    if is_taken(store, settings, found) {
        asks(store, settings, found)?;
        take(store, settings, index as usize, found);
        return Ok(1);
    }
    relay::remove(store, settings, index as usize);
    Ok(0)
}
