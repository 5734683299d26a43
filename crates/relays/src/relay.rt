// A relay in the bag: where the bag lies, a relay that is read, and one that leaves.
ghost use Rattle.std.specs.Prelude.{◌≡◌, ◌<◌, length};
ghost use Rattle.words.specs.Words.{words};
ghost use Rattle.rules.specs.Maps.{relay_at, drop_effect};
ghost use Rattle.rules.specs.Limits.{Limits};
ghost use Rattle.layout.specs.Store.{decode, render};
ghost use Rattle.lent.specs.Stores.{StoreOf};
ghost use Rattle.relays.specs.Relays.{BagSpan, BagPart, relay_of};

use bag::Relay;
use layout::sizes;
use lent::place::Span;
use rules::settings::Settings;

// From which byte of the store to which the bag lies.
pub fn bag_span(settings: Settings) -> Span
    requires { Limits settings }
    ensures { BagSpan settings result.from result.to }
{
    Span {
        from: 8 * sizes::bag_at(settings),
        to: 8 * sizes::places_at(settings),
    }
}

// Its bytes.
pub fn bag_part<'a>(store: &'a [u8], settings: Settings) -> &'a [u8]
    requires { StoreOf settings store.now }
    ensures { BagPart (decode (words store.now)).bag result.now }
{
    let Span { from, to } = bag_span(settings);
    &store[from..to]
}

// The relay at an index.
pub fn read(store: &[u8], settings: Settings, index: usize) -> Relay
    requires { StoreOf settings store.now × (index < length (decode (words store.now)).bag) }
    ensures { relay_of (decode (words store.now)) result ≡ relay_at (decode (words store.now)) index }
{
    bag::relay_at(bag_part(store, settings), index)
}

// It leaves the bag.
pub fn remove(store: &mut [u8], settings: Settings, index: usize)
    requires { StoreOf settings store.old × (index < length (decode (words store.old)).bag) }
    ensures { words store.new ≡ render (drop_effect (decode (words store.old)) index) (words store.old) }
{
    let Span { from, to } = bag_span(settings);
    bag::remove(&mut store[from..to], index);
}
