// done: a write is confirmed, and its item goes.
ghost use Rattle.std.specs.Prelude.{◌≡◌};
ghost use Rattle.words.specs.Words.{words};
ghost use Rattle.rules.specs.Event.{Event};
ghost use Rattle.rules.specs.Maps.{done_asks};
ghost use Rattle.rules.specs.Refusals.{code_of};
ghost use Rattle.rules.specs.Question.{first_no};
ghost use Rattle.layout.specs.Store.{decode};
ghost use Rattle.lent.specs.Performs.{Performs};
ghost use Rattle.lent.specs.Stores.{StoreOf};

use lent::{Answer, proxy};
use mappings::{asks, block};
use rules::numbers::BlockNumber;
use rules::refusal::Refusal;
use rules::settings::Settings;

// Refuses with the first question that is answered no.
fn asks(store: &[u8], settings: Settings, proxy: u64, block: u64) -> Result<(), Refusal>
    requires { StoreOf settings store.now }
    ensures { code_of result ≡ first_no (done_asks (decode (words store.now)) proxy block) }
{
    let number = BlockNumber(block);
    let guess = block::index_of(store, settings, number);
    asks::served_asks(store, settings, proxy, block, guess)?;
    if !proxy::has_item(store, settings, proxy as usize, number) {
        return Err(Refusal::WrongItem);
    }
    let key = proxy::item(store, settings, proxy as usize, number);
    if block::mapped(store, settings, number, guess) == key {
        Ok(())
    } else {
        Err(Refusal::OtherKey)
    }
}

pub fn done(store: &mut [u8], settings: Settings, proxy: u64, block: u64) -> Answer
    requires { StoreOf settings store.old }
    ensures { Performs (Event.done proxy block) (words store.old) result (words store.new) }
{
    asks(store, settings, proxy, block)?;
    proxy::remove_item(store, settings, proxy as usize, BlockNumber(block));
    Ok(0)
}
