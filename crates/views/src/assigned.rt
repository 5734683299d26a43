// The pairs of the next view.
ghost use Rattle.std.specs.Prelude.{◌≡◌, ◌*◌, length};
ghost use Rattle.words.specs.Words.{words};
ghost use Rattle.rules.specs.Limits.{buckets};
ghost use Rattle.rules.specs.Views.{last_pairs, view_pairs};
ghost use Rattle.layout.specs.Store.{decode};
ghost use Rattle.lent.specs.Stores.{StoreOf};

use crate::members;
use rules::constants;
use rules::settings::Settings;

// The last ready pairs go into the assignments.
fn last_pairs(store: &[u8], settings: Settings, assigned: &mut [u64])
    requires { StoreOf settings store.now × (length assigned.old ≡ 2 * buckets settings) }
    ensures { assigned.new ≡ last_pairs (decode (words store.now)) }
{
    let count = settings.buckets();
    for bucket in 0..count {
        let agreed = lent::bucket::agreed(store, settings, bucket);
        assigned[2 * bucket] = agreed.last_primary;
        assigned[2 * bucket + 1] = agreed.last_backup;
    }
}

// The pairs of a view with all up bricks as its members go into the assignments.
pub fn view_pairs(store: &[u8], settings: Settings, assigned: &mut [u64])
    requires { StoreOf settings store.now × (length assigned.old ≡ 2 * buckets settings) }
    ensures { assigned.new ≡ view_pairs (decode (words store.now)) }
{
    let mut ids = [0; constants::MAX_ID as usize];
    let count = members::up_ids(store, settings, &mut ids);
    last_pairs(store, settings, assigned);
    pairing::assign(&ids[..count], assigned, settings.buckets());
}
