// get on a lent store: the key of a block and its bytes, which are a part of the store, or of a block of zeros that the caller lends.

#![tactic(auto)]

ghost use Rattle.std.specs.Prelude.{◌≡◌, ◌%◌, length};
ghost use Rattle.words.specs.Words.{words};
ghost use Rattle.rules.specs.Call.{is_zero_block};
ghost use Rattle.rules.specs.Event.{Event};
ghost use Rattle.rules.specs.Reads.{zeros};
ghost use Rattle.rules.specs.Refusals.{code_of};
ghost use Rattle.layout.specs.Store.{decode};
ghost use Rattle.lent.specs.Stores.{StoreOf};
ghost use Rattle.reads.specs.Get.{LooksUp, found_key, found_bytes, Gets, Fills, GetsInto};

use layout::sizes;
use lent::Answer;
use mappings::{asks, block};
use rules::numbers::{BlockNumber, ChunkKey};
use rules::refusal::Refusal;
use rules::settings::Settings;

// ---- the look-up

// Where the chunk of a mapped key lies: the place of a brick that holds it, and the row of its log.
#[derive(Clone, Copy)]
struct Chunk {
    key: ChunkKey,
    place: usize,
    row: usize,
}

// get's questions in their order, the last of them by the search for the holder; none where the block has no mapping.
fn look_up(
    store: &[u8],
    settings: Settings,
    proxy: u64,
    block: u64,
) -> Result<Option<Chunk>, Refusal>
    requires { StoreOf settings store.now }
    ensures { LooksUp settings (decode (words store.now)) proxy block result }
{
    let guess = block::index_of(store, settings, BlockNumber(block));
    asks::served_asks(store, settings, proxy, block, guess)?;
    let key = block::mapped(store, settings, BlockNumber(block), guess);
    if key.0 == 0 {
        return Ok(None);
    }
    match holders::holder(store, settings, key) {
        Some(at) => Ok(Some(Chunk {
            key,
            place: at.place,
            row: at.row,
        })),
        None => Err(Refusal::NoChunk),
    }
}

// ---- get

// What an accepted get answers: a key, 0 where the block has no mapping, and the bytes.
#[derive(Clone, Copy)]
pub struct Found<'a> {
    pub key: u64,
    pub bytes: &'a [u8],
}

// The bytes are a part of the store, or the lent block of zeros.
pub fn get<'a>(
    store: &'a [u8],
    blank: &'a [u8],
    settings: Settings,
    proxy: u64,
    block: u64,
) -> Result<Found<'a>, Refusal>
    requires { StoreOf settings store.now × (blank.now ≡ zeros settings.size) }
    ensures { Gets (decode (words store.now)) proxy block (code_of result) (found_key result) (found_bytes result) }
{
    match look_up(store, settings, proxy, block)? {
        Some(chunk) => Ok(Found {
            key: chunk.key.0,
            bytes: holders::chunk(store, settings, chunk.place, chunk.row),
        }),
        None => Ok(Found {
            key: 0,
            bytes: blank,
        }),
    }
}

// ---- get into an area of a block's size

// The area becomes zeros; it is whole words.
pub fn clear(area: &mut [u8])
    requires { length area.old % 8 ≡ 0 }
    ensures { area.new ≡ zeros (length area.old) }
{
    let words = area.len() / sizes::WORD_BYTES;
    moves::fill(area, 0, words, 0)
}

// What get answers, its bytes in the area; a refusal leaves that as it was.
pub fn fill_block(
    store: &[u8],
    settings: Settings,
    proxy: u64,
    block: u64,
    area: &mut [u8],
) -> Answer
    requires { StoreOf settings store.now × (length area.old ≡ settings.size) }
    ensures { Fills (decode (words store.now)) (Event.get proxy block) area.old result area.new }
{
    match look_up(store, settings, proxy, block)? {
        Some(chunk) => {
            moves::copy_bytes(
                area,
                holders::chunk(store, settings, chunk.place, chunk.row),
            );
            Ok(chunk.key.0)
        }
        None => {
            clear(area);
            Ok(0)
        }
    }
}

// ---- for a caller in C

// Are these bytes a block of zeros? A block is whole words.
pub fn is_zero_block(bytes: &[u8], size: usize) -> bool
    requires { size % 8 ≡ 0 }
    ensures { result ≡ is_zero_block size bytes.now }
{
    if bytes.len() != size {
        return false;
    }
    for i in 0..size / sizes::WORD_BYTES {
        if words::read(bytes, i) != 0 {
            return false;
        }
    }
    true
}

// The bytes are copied to the area; a refusal leaves it as it was.
pub fn get_into(
    store: &[u8],
    blank: &[u8],
    area: &mut [u8],
    settings: Settings,
    proxy: u64,
    block: u64,
) -> Answer
    requires { StoreOf settings store.now }
    ensures { GetsInto (decode (words store.now)) blank.now area.old proxy block result area.new }
{
    if !is_zero_block(blank, settings.size) {
        return Err(Refusal::BadInput);
    }
    if area.len() != settings.size {
        return Err(Refusal::BadInput);
    }
    fill_block(store, settings, proxy, block, area)
}
