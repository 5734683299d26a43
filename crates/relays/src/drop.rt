// drop: a relay is lost.
ghost use Rattle.std.specs.Prelude.{◌≡◌};
ghost use Rattle.words.specs.Words.{words};
ghost use Rattle.rules.specs.Event.{Event};
ghost use Rattle.lent.specs.Performs.{Performs};
ghost use Rattle.lent.specs.Stores.{StoreOf};

use crate::relay;
use lent::Answer;
use rules::refusal::Refusal;
use rules::settings::Settings;

pub fn drop(store: &mut [u8], settings: Settings, index: u64) -> Answer
    requires { StoreOf settings store.old }
    ensures { Performs (Event.drop index) (words store.old) result (words store.new) }
{
    if lent::store::relay_count(store, settings) <= index {
        return Err(Refusal::BadInput);
    }
    relay::remove(store, settings, index as usize);
    Ok(0)
}
