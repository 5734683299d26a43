// join,place: a blank brick with the lowest id never given, up.
ghost use Rattle.std.specs.Prelude.{◌≡◌};
ghost use Rattle.words.specs.Words.{words};
ghost use Rattle.rules.specs.Event.{Event};
ghost use Rattle.rules.specs.Refusals.{code_of};
ghost use Rattle.rules.specs.Question.{first_no};
ghost use Rattle.rules.specs.Membership.{join_asks};
ghost use Rattle.layout.specs.Store.{decode};
ghost use Rattle.lent.specs.Performs.{Performs};
ghost use Rattle.lent.specs.Stores.{StoreOf};

use layout::sizes;
use lent::place::Span;
use lent::{Answer, place};
use records::status::Status;
use rules::constants;
use rules::refusal::Refusal;
use rules::settings::Settings;

// Is there such a place, an id left, and no brick at it?
fn asks(store: &[u8], settings: Settings, place: u64) -> Result<(), Refusal>
    requires { StoreOf settings store.now }
    ensures { code_of result ≡ first_no (join_asks (decode (words store.now)) place) }
{
    if settings.places as u64 <= place {
        return Err(Refusal::BadInput);
    }
    if constants::MAX_ID <= lent::store::given(store, settings) {
        return Err(Refusal::NoNumber);
    }
    if place::id(store, settings, place as usize) == 0 {
        Ok(())
    } else {
        Err(Refusal::WrongState)
    }
}

pub fn join(store: &mut [u8], settings: Settings, place: u64) -> Answer
    requires { StoreOf settings store.old }
    ensures { Performs (Event.join place) (words store.old) result (words store.new) }
{
    asks(store, settings, place)?;
    let id = lent::store::given(store, settings) + 1;
    let status = Status {
        up: true,
        member: false,
        began: false,
        next: 0,
        ceiling: 0,
    };
    let Span { from, to } = place::span_of(settings, place as usize);
    format::place(&mut store[from..to], settings, id, status);
    words::write(store, sizes::GIVEN_AT, id);
    Ok(0)
}
