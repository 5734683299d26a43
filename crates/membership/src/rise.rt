// rise,place: the brick is up, no member yet.
ghost use Rattle.std.specs.Prelude.{◌≡◌, length};
ghost use Rattle.words.specs.Words.{words};
ghost use Rattle.rules.specs.Event.{Event};
ghost use Rattle.rules.specs.Refusals.{code_of};
ghost use Rattle.rules.specs.Question.{first_no};
ghost use Rattle.rules.specs.Membership.{rise_asks};
ghost use Rattle.codec.specs.Codec.{change};
ghost use Rattle.layout.specs.Layout.{place_codec};
ghost use Rattle.layout.specs.Store.{decode};
ghost use Rattle.lent.specs.Performs.{Performs};
ghost use Rattle.lent.specs.Places.{HoldsBrick};
ghost use Rattle.lent.specs.Stores.{StoreOf};
ghost use Rattle.membership.specs.Places.{risen};

use lent::place::Span;
use lent::{Answer, place};
use records::status::Status;
use rules::refusal::Refusal;
use rules::settings::Settings;

// Is there such a place, and a brick at it that is down?
fn asks(store: &[u8], settings: Settings, place: u64) -> Result<(), Refusal>
    requires { StoreOf settings store.now }
    ensures { code_of result ≡ first_no (rise_asks (decode (words store.now)) place) }
{
    if settings.places as u64 <= place {
        return Err(Refusal::BadInput);
    }
    if place::id(store, settings, place as usize) == 0 {
        return Err(Refusal::WrongState);
    }
    if place::is_up(store, settings, place as usize) {
        Err(Refusal::WrongState)
    } else {
        Ok(())
    }
}

fn rise_place(part: &mut [u8], settings: Settings)
    requires { HoldsBrick settings (words part.old) (length part.old) }
    ensures { words part.new ≡ change (place_codec settings) risen (words part.old) }
{
    let old = records::place::read_status(part, settings);
    let new = Status { up: true, ..old };
    records::place::write_status(part, settings, new);
}

pub fn rise(store: &mut [u8], settings: Settings, place: u64) -> Answer
    requires { StoreOf settings store.old }
    ensures { Performs (Event.rise place) (words store.old) result (words store.new) }
{
    asks(store, settings, place)?;
    let Span { from, to } = place::span_of(settings, place as usize);
    rise_place(&mut store[from..to], settings);
    Ok(0)
}
