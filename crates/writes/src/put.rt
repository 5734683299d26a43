// put,proxy,place,block,data: an unsaved chunk under a new key, and an item; answers the key.
ghost use Rattle.std.specs.Prelude.{◌≡◌, ◌+◌, ◌≤◌, ◌<◌, ltb, leb, length};
ghost use Rattle.lists.specs.Tests.{◌or◌};
ghost use Rattle.words.specs.Words.{words};
ghost use Rattle.rules.specs.Limits.{proxies, ceiling_step};
ghost use Rattle.rules.specs.Numbers.{sequences};
ghost use Rattle.rules.specs.Event.{Event};
ghost use Rattle.rules.specs.Refusals.{code_of};
ghost use Rattle.rules.specs.Question.{first_no, AllYes};
ghost use Rattle.rules.specs.Writes.{raised, put_asks};
ghost use Rattle.codec.specs.Codec.{change};
ghost use Rattle.layout.specs.Layout.{place_codec};
ghost use Rattle.layout.specs.Store.{decode};
ghost use Rattle.lent.specs.Performs.{Performs};
ghost use Rattle.lent.specs.Stores.{StoreOf};
ghost use Rattle.writes.specs.Puts.{field_asks, store_asks, put_in, PutFits, Put};

use crate::grow;
use layout::sizes;
use lent::place::Span;
use lent::{Answer, place, proxy};
use records::status::Status;
use rules::constants;
use rules::numbers::{BlockNumber, ChunkKey};
use rules::refusal::Refusal;
use rules::settings::Settings;

// ---- questions

// Of the fields: refuses with the first that is answered no.
fn field_asks(
    settings: Settings,
    proxy: u64,
    place: u64,
    block: u64,
    bytes: &[u8],
) -> Result<(), Refusal>
    ensures { code_of result ≡ first_no (field_asks settings proxy place block bytes.now) }
{
    if settings.places as u64 <= place {
        return Err(Refusal::BadInput);
    }
    if bytes.len() != settings.size {
        return Err(Refusal::BadInput);
    }
    proxy::block_asks(proxy, block)
}

// Has the brick a sequence number left?
fn has_number(next: u64, ceiling: u64) -> bool
    requires { ceiling ≤ sequences }
    ensures { result ≡ (ltb next ceiling or leb (ceiling + ceiling_step) sequences) }
{
    (next < ceiling) | (ceiling + constants::CEILING_STEP <= constants::SEQUENCES)
}

// Of the store.
fn store_asks(
    store: &[u8],
    settings: Settings,
    proxy: usize,
    place: usize,
    block: BlockNumber,
) -> Result<(), Refusal>
    requires { StoreOf settings store.now × (proxy < proxies) × (place < settings.places) }
    ensures { code_of result ≡ first_no (store_asks (decode (words store.now)) proxy place block.0) }
{
    if !place::up_member(store, settings, place) {
        return Err(Refusal::NoMember);
    }
    if proxy::has_item(store, settings, proxy, block) {
        return Err(Refusal::WrongItem);
    }
    if constants::MAX_ITEMS as u64 <= proxy::item_count(store, settings, proxy) {
        return Err(Refusal::NoRoom);
    }
    if settings.chunks as u64 <= place::chunk_count(store, settings, place) {
        return Err(Refusal::NoRoom);
    }
    let status = place::status(store, settings, place);
    if has_number(status.next, status.ceiling) {
        Ok(())
    } else {
        Err(Refusal::NoNumber)
    }
}

// ---- the effect

// Where the next number equals the ceiling, that goes up first.
fn raised(next: u64, ceiling: u64) -> u64
    requires { ceiling ≤ sequences }
    ensures { result ≡ raised next ceiling }
{
    if next == ceiling {
        return ceiling + constants::CEILING_STEP;
    }
    ceiling
}

// The chunk comes into the log of the place's brick, which counts it.
fn put_place(part: &mut [u8], settings: Settings, key: ChunkKey, bytes: &[u8])
    requires { PutFits settings (words part.old) (length part.old) bytes.now }
    ensures { words part.new ≡ change (place_codec settings) (put_in key.0 bytes.now) (words part.old) }
{
    let old = records::place::read_status(part, settings);
    let new = Status {
        next: old.next + 1,
        ceiling: raised(old.next, old.ceiling),
        ..old
    };
    records::place::write_status(part, settings, new);
    grow::append(part, settings, key, bytes);
}

// Then the proxy gets an item.
fn effect(
    store: &mut [u8],
    settings: Settings,
    proxy: usize,
    place: usize,
    block: BlockNumber,
    bytes: &[u8],
) -> ChunkKey
    requires { StoreOf settings store.old × AllYes (put_asks (decode (words store.old)) proxy place block.0 bytes.now) }
    ensures { Put proxy place block.0 bytes.now (words store.old) result.0 (words store.new) }
{
    let id = place::id(store, settings, place);
    let status = place::status(store, settings, place);
    let key = ChunkKey::new(id, status.next);
    let Span { from, to } = place::span_of(settings, place);
    put_place(&mut store[from..to], settings, key, bytes);
    let at = 8 * proxy::items_at(settings, proxy);
    let end = at + 8 * sizes::ITEMS_WORDS;
    entries::insert(&mut store[at..end], constants::MAX_ITEMS, block, key);
    key
}

pub fn put(
    store: &mut [u8],
    settings: Settings,
    proxy: u64,
    place: u64,
    block: u64,
    bytes: &[u8],
) -> Answer
    requires { StoreOf settings store.old }
    ensures { Performs (Event.put proxy place block bytes.now) (words store.old) result (words store.new) }
{
    field_asks(settings, proxy, place, block, bytes)?;
    store_asks(
        store,
        settings,
        proxy as usize,
        place as usize,
        BlockNumber(block),
    )?;
    let key = effect(
        store,
        settings,
        proxy as usize,
        place as usize,
        BlockNumber(block),
        bytes,
    );
    Ok(key.0)
}
