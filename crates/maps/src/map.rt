// map: an item's key goes into the primary's memory, or, where the bucket is not ready, into the primary's append buffer.
ghost use Rattle.std.specs.Prelude.{◌≡◌, ◌<◌};
ghost use Rattle.words.specs.Words.{words};
ghost use Rattle.rules.specs.Event.{Event};
ghost use Rattle.rules.specs.Limits.{proxies};
ghost use Rattle.rules.specs.Maps.{map_asks, map_effect};
ghost use Rattle.rules.specs.Refusals.{code_of};
ghost use Rattle.rules.specs.Question.{first_no};
ghost use Rattle.layout.specs.Store.{decode, render};
ghost use Rattle.lent.specs.Performs.{Performs};
ghost use Rattle.lent.specs.Stores.{StoreOf};
ghost use Rattle.maps.specs.Asks.{room_asks, item_asks, Mappable};

use lent::{Answer, brick, bucket, proxy};
use mappings::{asks, block, buffer, copy};
use rules::numbers::BlockNumber;
use rules::refusal::Refusal;
use rules::settings::Settings;

// Has the primary's copy room for the block, or, where the bucket is not ready, its append buffer?
fn room_asks(store: &[u8], settings: Settings, block: BlockNumber) -> Result<(), Refusal>
    requires { StoreOf settings store.now }
    ensures { code_of result ≡ first_no (room_asks (decode (words store.now)) block.0) }
{
    let bucket = bucket::number(settings, block);
    let agreed = bucket::agreed(store, settings, bucket);
    let room = if agreed.ready {
        copy::takes(store, settings, bucket, agreed.primary, block)
    } else {
        buffer::has_room(store, settings, agreed.primary)
    };
    if room { Ok(()) } else { Err(Refusal::NoRoom) }
}

// Has the proxy an item, is there room for it, and is its chunk saved at two members?
fn item_asks(
    store: &[u8],
    settings: Settings,
    proxy: usize,
    block: BlockNumber,
) -> Result<(), Refusal>
    requires { StoreOf settings store.now × (proxy < proxies) }
    ensures { code_of result ≡ first_no (item_asks (decode (words store.now)) proxy block.0) }
{
    if !proxy::has_item(store, settings, proxy, block) {
        return Err(Refusal::WrongItem);
    }
    room_asks(store, settings, block)?;
    if holders::saved_twice(store, settings, proxy::item(store, settings, proxy, block)) {
        Ok(())
    } else {
        Err(Refusal::NoChunk)
    }
}

// Refuses with the first question that is answered no.
fn asks(store: &[u8], settings: Settings, proxy: u64, block: u64) -> Result<(), Refusal>
    requires { StoreOf settings store.now }
    ensures { code_of result ≡ first_no (map_asks (decode (words store.now)) proxy block) }
{
    asks::access_asks(store, settings, proxy, block)?;
    let guess = block::index_of(store, settings, BlockNumber(block));
    asks::settled_asks(store, settings, BlockNumber(block), guess)?;
    item_asks(store, settings, proxy as usize, BlockNumber(block))
}

// The item's key goes to the primary.
fn enter(store: &mut [u8], settings: Settings, proxy: usize, block: BlockNumber)
    requires { StoreOf settings store.old × (proxy < proxies) × Mappable (decode (words store.old)) block.0 }
    ensures { words store.new ≡ render (map_effect (decode (words store.old)) proxy block.0) (words store.old) }
{
    let key = proxy::item(store, settings, proxy, block);
    let bucket = bucket::number(settings, block);
    let agreed = bucket::agreed(store, settings, bucket);
    let Some(place) = brick::place_of(store, settings, agreed.primary) else {
        return;
    };
    if agreed.ready {
        copy::insert(store, settings, place, bucket, block, key);
        return;
    }
    buffer::append(store, settings, place, block, key);
}

pub fn map(store: &mut [u8], settings: Settings, proxy: u64, block: u64) -> Answer
    requires { StoreOf settings store.old }
    ensures { Performs (Event.map proxy block) (words store.old) result (words store.new) }
{
    asks(store, settings, proxy, block)?;
    enter(store, settings, proxy as usize, BlockNumber(block));
    Ok(0)
}
