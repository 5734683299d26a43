// send: a relay of the primary's entry, with the bucket's next order number.

#![tactic(auto)]

ghost use Rattle.std.specs.Prelude.{◌≡◌, ◌<◌, length};
ghost use Rattle.words.specs.Words.{words};
ghost use Rattle.rules.specs.Event.{Event};
ghost use Rattle.rules.specs.Limits.{max_relays, max_view_or_order};
ghost use Rattle.rules.specs.Maps.{send_asks, send_effect};
ghost use Rattle.rules.specs.Derived.{bucket_at};
ghost use Rattle.rules.specs.Refusals.{code_of};
ghost use Rattle.rules.specs.Question.{first_no};
ghost use Rattle.layout.specs.Store.{decode, render};
ghost use Rattle.lent.specs.Performs.{Performs};
ghost use Rattle.lent.specs.Stores.{StoreOf};
ghost use Rattle.sends.specs.Asks.{primary_asks};

use bag::Relay;
use layout::sizes;
use lent::place::Span;
use lent::{Answer, bucket};
use mappings::{block, copy};
use relays::relay;
use rules::constants;
use rules::numbers::{BlockNumber, ViewNumber};
use rules::refusal::Refusal;
use rules::settings::Settings;

// Is there such a block, is the primary an up member, and is the bucket ready?
fn primary_asks(store: &[u8], settings: Settings, block: BlockNumber) -> Result<(), Refusal>
    requires { StoreOf settings store.now }
    ensures { code_of result ≡ first_no (primary_asks (decode (words store.now)) block.0) }
{
    if constants::BLOCKS <= block.0 {
        return Err(Refusal::BadInput);
    }
    if !block::primary_up(store, settings, block) {
        return Err(Refusal::NoMember);
    }
    if block::is_ready(store, settings, block) {
        Ok(())
    } else {
        Err(Refusal::NotReady)
    }
}

// Refuses with the first question that is answered no.
fn asks(store: &[u8], settings: Settings, block: BlockNumber) -> Result<(), Refusal>
    requires { StoreOf settings store.now }
    ensures { code_of result ≡ first_no (send_asks (decode (words store.now)) block.0) }
{
    primary_asks(store, settings, block)?;
    if constants::MAX_RELAYS as u64 <= lent::store::relay_count(store, settings) {
        return Err(Refusal::NoRoom);
    }
    let bucket = bucket::number(settings, block);
    let agreed = bucket::agreed(store, settings, bucket);
    if constants::MAX_VIEW_OR_ORDER <= agreed.last_sent {
        return Err(Refusal::NoNumber);
    }
    if copy::has(store, settings, bucket, agreed.primary, block) {
        Ok(())
    } else {
        Err(Refusal::WrongState)
    }
}

// The relay goes into the bag, and the bucket has sent one more.
fn relay(store: &mut [u8], settings: Settings, block: BlockNumber)
    requires { StoreOf settings store.old × (length (decode (words store.old)).bag < max_relays)
        × ((bucket_at (decode (words store.old)) block.0).last_sent < max_view_or_order) }
    ensures { words store.new ≡ render (send_effect (decode (words store.old)) block.0) (words store.old) }
{
    let bucket = bucket::number(settings, block);
    let order = bucket::agreed(store, settings, bucket).last_sent + 1;
    let view = ViewNumber(lent::store::view(store, settings));
    let key = block::mapped(store, settings, block, 0);
    let Span { from, to } = relay::bag_span(settings);
    let relay = Relay {
        view,
        bucket: bucket as u64,
        order,
        block,
        key,
    };
    bag::append(&mut store[from..to], relay);
    words::write(
        store,
        sizes::agreed_at(settings, bucket) + sizes::LAST_SENT_AT,
        order,
    );
}

pub fn send(store: &mut [u8], settings: Settings, block: u64) -> Answer
    requires { StoreOf settings store.old }
    ensures { Performs (Event.send block) (words store.old) result (words store.new) }
{
    asks(store, settings, BlockNumber(block))?;
    relay(store, settings, BlockNumber(block));
    Ok(0)
}
