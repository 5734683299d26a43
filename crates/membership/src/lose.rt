// lose,place: the place is empty; the words past its id are not in use, and stay.
ghost use Rattle.std.specs.Prelude.{◌≡◌};
ghost use Rattle.words.specs.Words.{words};
ghost use Rattle.rules.specs.Event.{Event};
ghost use Rattle.rules.specs.Refusals.{code_of};
ghost use Rattle.rules.specs.Question.{first_no};
ghost use Rattle.rules.specs.Membership.{lose_asks};
ghost use Rattle.layout.specs.Store.{decode};
ghost use Rattle.lent.specs.Performs.{Performs};
ghost use Rattle.lent.specs.Stores.{StoreOf};

use lent::place::Span;
use lent::{Answer, place};
use rules::refusal::Refusal;
use rules::settings::Settings;

// Is there such a place, and a brick at it?
fn asks(store: &[u8], settings: Settings, place: u64) -> Result<(), Refusal>
    requires { StoreOf settings store.now }
    ensures { code_of result ≡ first_no (lose_asks (decode (words store.now)) place) }
{
    if settings.places as u64 <= place {
        return Err(Refusal::BadInput);
    }
    if place::id(store, settings, place as usize) == 0 {
        Err(Refusal::WrongState)
    } else {
        Ok(())
    }
}

pub fn lose(store: &mut [u8], settings: Settings, place: u64) -> Answer
    requires { StoreOf settings store.old }
    ensures { Performs (Event.lose place) (words store.old) result (words store.new) }
{
    asks(store, settings, place)?;
    let Span { from, to } = place::span_of(settings, place as usize);
    records::place::set_id(&mut store[from..to], settings, 0);
    Ok(0)
}
