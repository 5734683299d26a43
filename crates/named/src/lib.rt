// Where the copies lie whose keys mend and collect go by.

#![tactic(auto)]

ghost use Rattle.std.specs.Prelude.{◌≡◌, ◌<◌, length};
ghost use Rattle.words.specs.Words.{words};
ghost use Rattle.rules.specs.Limits.{buckets};
ghost use Rattle.layout.specs.Store.{decode};
ghost use Rattle.lent.specs.Stores.{StoreOf};
ghost use Rattle.named.specs.Tables.{EntriesAt, named, AllNamed};

use layout::sizes;
use lent::{brick, bucket, place};
use rules::settings::Settings;

// The word at which a brick's copy of a bucket in memory begins, where a place holds the brick.
fn memory_at(store: &[u8], settings: Settings, bucket: usize, id: u64) -> Option<usize>
    requires { StoreOf settings store.now × (bucket < buckets settings) }
    ensures { EntriesAt settings (words store.now) bucket (((decode (words store.now)).bucket bucket).memory id) result }
{
    let place = brick::place_of(store, settings, id)?;
    Some(sizes::place_at(settings, place) + place::memory_at(settings, bucket))
}

// The word at which the entries lie whose keys a bucket names: the primary's memory, where the bucket is ready.
fn named_at(store: &[u8], settings: Settings, bucket: usize) -> Option<usize>
    requires { StoreOf settings store.now × (bucket < buckets settings) }
    ensures { EntriesAt settings (words store.now) bucket (named (decode (words store.now)) bucket) result }
{
    let agreed = bucket::agreed(store, settings, bucket);
    if agreed.ready {
        return memory_at(store, settings, bucket, agreed.primary);
    }
    None
}

// The same for every bucket.
pub fn all_named(store: &[u8], settings: Settings, tables: &mut [Option<usize>])
    requires { StoreOf settings store.now × (length tables.old ≡ buckets settings) }
    ensures { AllNamed settings store.now tables.new }
{
    for bucket in 0..settings.buckets() {
        tables[bucket] = named_at(store, settings, bucket);
    }
}
