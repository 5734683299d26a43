// A proxy: the view that it knows, its items, and what is asked first of a proxy and a block.
ghost use Rattle.std.specs.Prelude.{◌≡◌, true, ◌+◌, ◌≤◌, ◌<◌, length};
ghost use Rattle.words.specs.Words.{words};
ghost use Rattle.rules.specs.Entries.{insert, takes};
ghost use Rattle.rules.specs.Limits.{proxies, max_items};
ghost use Rattle.rules.specs.Maps.{item_goes};
ghost use Rattle.rules.specs.Derived.{item};
ghost use Rattle.rules.specs.Refusals.{code_of};
ghost use Rattle.rules.specs.Question.{first_no, knows_view, has_item};
ghost use Rattle.layout.specs.Layout.{items_codec, items_at, proxy_at, store_words};
ghost use Rattle.layout.specs.Store.{decode, render};
ghost use Rattle.rules.specs.Limits.{Limits};
ghost use Rattle.lent.specs.Asks.{block_asks};
ghost use Rattle.lent.specs.Parts.{CopyPart};
ghost use Rattle.lent.specs.Stores.{StoreOf};

use layout::sizes;
use rules::constants;
use rules::numbers::{BlockNumber, ChunkKey};
use rules::refusal::Refusal;
use rules::settings::Settings;

// The first questions of what a proxy does with a block.
pub fn block_asks(proxy: u64, block: u64) -> Result<(), Refusal>
    ensures { code_of result ≡ first_no (block_asks proxy block) }
{
    if constants::PROXIES as u64 <= proxy {
        return Err(Refusal::BadInput);
    }
    if constants::BLOCKS <= block {
        return Err(Refusal::BadInput);
    }
    if BlockNumber(block).proxy() == proxy {
        Ok(())
    } else {
        Err(Refusal::WrongProxy)
    }
}

// Does the proxy know the present view?
pub fn knows_view(store: &[u8], settings: Settings, proxy: usize) -> bool
    requires { StoreOf settings store.now × (proxy < proxies) }
    ensures { result ≡ knows_view (decode (words store.now)) proxy }
{
    let known = words::read(store, sizes::proxy_at(settings, proxy) + sizes::KNOWN_AT);
    known == words::read(store, sizes::VIEW_AT)
}

// ---- its items

// Where they lie, in words.
pub fn items_at(settings: Settings, proxy: usize) -> usize
    requires { Limits settings × (proxy < proxies) }
    ensures { (result ≡ proxy_at settings proxy + items_at) × (result + items_codec.size ≤ store_words settings) }
{
    sizes::proxy_at(settings, proxy) + sizes::ITEMS_AT
}

pub fn items<'a>(store: &'a [u8], settings: Settings, proxy: usize) -> &'a [u8]
    requires { StoreOf settings store.now × (proxy < proxies) }
    ensures { CopyPart max_items ((decode (words store.now)).items proxy) result.now }
{
    let at = 8 * items_at(settings, proxy);
    let end = at + 8 * sizes::ITEMS_WORDS;
    &store[at..end]
}

// Has the proxy an item for the block?
pub fn has_item(store: &[u8], settings: Settings, proxy: usize, block: BlockNumber) -> bool
    requires { StoreOf settings store.now × (proxy < proxies) }
    ensures { result ≡ has_item (decode (words store.now)) proxy block.0 }
{
    entries::has(items(store, settings, proxy), constants::MAX_ITEMS, block)
}

// The key of its item for the block; 0 where it has none.
pub fn item(store: &[u8], settings: Settings, proxy: usize, block: BlockNumber) -> ChunkKey
    requires { StoreOf settings store.now × (proxy < proxies) }
    ensures { result.0 ≡ item (decode (words store.now)) proxy block.0 }
{
    entries::key_for(items(store, settings, proxy), constants::MAX_ITEMS, block)
}

// How many items it has.
pub fn item_count(store: &[u8], settings: Settings, proxy: usize) -> u64
    requires { StoreOf settings store.now × (proxy < proxies) }
    ensures { result ≡ length ((decode (words store.now)).items proxy) }
{
    words::read(items(store, settings, proxy), 0)
}

// The item for the block goes.
pub fn remove_item(store: &mut [u8], settings: Settings, proxy: usize, block: BlockNumber)
    requires { StoreOf settings store.old × (proxy < proxies) }
    ensures { words store.new ≡ render (item_goes (decode (words store.old)) proxy block.0) (words store.old) }
{
    let at = 8 * items_at(settings, proxy);
    let end = at + 8 * sizes::ITEMS_WORDS;
    entries::remove(&mut store[at..end], constants::MAX_ITEMS, block);
}
