// The event view.
ghost use Rattle.std.specs.Prelude.{◌≡◌};
ghost use Rattle.words.specs.Words.{words};
ghost use Rattle.rules.specs.Event.{Event};
ghost use Rattle.rules.specs.Refusals.{code_of};
ghost use Rattle.rules.specs.Question.{first_no};
ghost use Rattle.rules.specs.Views.{view_asks};
ghost use Rattle.layout.specs.Store.{decode};
ghost use Rattle.lent.specs.Performs.{Performs};
ghost use Rattle.lent.specs.Stores.{StoreOf};

use crate::{begin, members};
use lent::Answer;
use rules::constants;
use rules::refusal::Refusal;
use rules::settings::Settings;

// Its questions.
fn asks(store: &[u8], settings: Settings) -> Result<(), Refusal>
    requires { StoreOf settings store.now }
    ensures { code_of result ≡ first_no (view_asks (decode (words store.now))) }
{
    if constants::MAX_VIEW_OR_ORDER <= lent::store::view(store, settings) {
        return Err(Refusal::NoNumber);
    }
    if members::count_up(store, settings) <= 1 {
        return Err(Refusal::WrongState);
    }
    let stayed = members::count_stayed(store, settings);
    if 2 * stayed as u64 <= lent::store::started(store, settings) {
        Err(Refusal::WrongState)
    } else {
        Ok(())
    }
}

pub fn view(store: &mut [u8], settings: Settings) -> Answer
    requires { StoreOf settings store.old }
    ensures { Performs Event.view (words store.old) result (words store.new) }
{
    asks(store, settings)?;
    begin::begin(store, settings);
    Ok(0)
}
