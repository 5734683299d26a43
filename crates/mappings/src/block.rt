// A block: what its bucket's record, the copies of its pair and the primary's append buffer say of it, each as the rules ask.
ghost use Rattle.std.specs.Prelude.{◌≡◌, ◌<◌};
ghost use Rattle.words.specs.Words.{words};
ghost use Rattle.rules.specs.Limits.{buckets};
ghost use Rattle.rules.specs.Entries.{has};
ghost use Rattle.rules.specs.Derived.{bucket_at, agree, pending};
ghost use Rattle.rules.specs.Question.{primary_up, is_ready};
ghost use Rattle.rules.specs.Reads.{mapped};
ghost use Rattle.layout.specs.Store.{agreed_in, decode};
ghost use Rattle.records.specs.Records.{agreed_of};
ghost use Rattle.lent.specs.Stores.{StoreOf};

use crate::{buffer, copy};
use lent::{brick, bucket};
use records::agreed::Agreed;
use rules::numbers::{BlockNumber, ChunkKey};
use rules::settings::Settings;

// The record of its bucket.
pub fn agreed(store: &[u8], settings: Settings, block: BlockNumber) -> Agreed
    requires { StoreOf settings store.now }
    ensures { agreed_of result ≡ agreed_in (bucket_at (decode (words store.now)) block.0) }
{
    bucket::agreed(store, settings, bucket::number(settings, block))
}

// Is the primary an up member?
pub fn primary_up(store: &[u8], settings: Settings, block: BlockNumber) -> bool
    requires { StoreOf settings store.now }
    ensures { result ≡ primary_up (decode (words store.now)) block.0 }
{
    brick::up_member(store, settings, agreed(store, settings, block).primary)
}

// Is its bucket ready?
pub fn is_ready(store: &[u8], settings: Settings, block: BlockNumber) -> bool
    requires { StoreOf settings store.now }
    ensures { result ≡ is_ready (decode (words store.now)) block.0 }
{
    agreed(store, settings, block).ready
}

// Where its entry is or would go in the primary's memory: a guess for the pair's other copies.
pub fn index_of(store: &[u8], settings: Settings, block: BlockNumber) -> usize
    requires { StoreOf settings store.now }
{
    let bucket = bucket::number(settings, block);
    let primary = bucket::agreed(store, settings, bucket).primary;
    copy::index_of(store, settings, bucket, primary, block)
}

// Do the pair's four copies give one key for the block?
fn agree(
    store: &[u8],
    settings: Settings,
    bucket: usize,
    agreed: Agreed,
    block: BlockNumber,
    guess: usize,
) -> bool
    requires { StoreOf settings store.now × (bucket < buckets settings)
        × (agreed_of agreed ≡ agreed_in ((decode (words store.now)).bucket bucket)) }
    ensures { result ≡ agree ((decode (words store.now)).bucket bucket) block.0 }
{
    let key = copy::in_memory(store, settings, bucket, agreed.primary, block, guess);
    copy::on_disk(store, settings, bucket, agreed.primary, block, guess) == key
        && copy::in_memory(store, settings, bucket, agreed.backup, block, guess) == key
        && copy::on_disk(store, settings, bucket, agreed.backup, block, guess) == key
}

// Is the block pending: in a ready bucket, do the four not all give one key?
pub fn pending(store: &[u8], settings: Settings, block: BlockNumber, guess: usize) -> bool
    requires { StoreOf settings store.now }
    ensures { result ≡ pending (bucket_at (decode (words store.now)) block.0) block.0 }
{
    let bucket = bucket::number(settings, block);
    let agreed = bucket::agreed(store, settings, bucket);
    if agreed.ready {
        return !agree(store, settings, bucket, agreed, block, guess);
    }
    false
}

// Does it wait in the primary's append buffer?
pub fn waits(store: &[u8], settings: Settings, block: BlockNumber) -> bool
    requires { StoreOf settings store.now }
    ensures { result ≡ has ((decode (words store.now)).bricks.buffer (bucket_at (decode (words store.now)) block.0).primary) block.0 }
{
    buffer::has(
        store,
        settings,
        agreed(store, settings, block).primary,
        block,
    )
}

// Its key in the primary's memory.
pub fn mapped(store: &[u8], settings: Settings, block: BlockNumber, guess: usize) -> ChunkKey
    requires { StoreOf settings store.now }
    ensures { result.0 ≡ mapped (decode (words store.now)) block.0 }
{
    let bucket = bucket::number(settings, block);
    let primary = bucket::agreed(store, settings, bucket).primary;
    copy::in_memory(store, settings, bucket, primary, block, guess)
}
