// Up members by id.
ghost use Rattle.std.specs.Prelude.{◌≡◌, true, ◌<◌};
ghost use Rattle.words.specs.Words.{words};
ghost use Rattle.rules.specs.Limits.{buckets};
ghost use Rattle.rules.specs.Derived.{up_member};
ghost use Rattle.layout.specs.Store.{decode};
ghost use Rattle.lent.specs.Stores.{StoreOf};
ghost use Rattle.lent.specs.Places.{Stands};
ghost use Rattle.recovery.specs.Fetch.{SourceIs};

use lent::brick;
use rules::settings::Settings;

// A bucket's source: the last ready primary if that is an up member, else the last ready backup if that is one.
pub fn find_source(store: &[u8], settings: Settings, bucket: usize) -> Option<u64>
    requires { StoreOf settings store.now × (bucket < buckets settings) }
    ensures { SourceIs (decode (words store.now)) bucket result }
{
    let agreed = lent::bucket::agreed(store, settings, bucket);
    if brick::up_member(store, settings, agreed.last_primary) {
        return Some(agreed.last_primary);
    }
    if brick::up_member(store, settings, agreed.last_backup) {
        return Some(agreed.last_backup);
    }
    None
}

// The place of an up member.
pub fn place(store: &[u8], settings: Settings, id: u64) -> usize
    requires { StoreOf settings store.now × (up_member (decode (words store.now)) id ≡ true) }
    ensures { Stands settings (decode (words store.now)) id result }
{
    match brick::find_member(store, settings, id) {
        Some(place) => place,
        None => unreachable!(),
    }
}
