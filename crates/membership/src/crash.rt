// crash,place: unsaved chunks, the buffer and unsaved entries go; the brick is down and no member, and its next number is its ceiling.
ghost use Rattle.std.specs.Prelude.{◌≡◌, length};
ghost use Rattle.words.specs.Words.{words};
ghost use Rattle.rules.specs.Event.{Event};
ghost use Rattle.rules.specs.Refusals.{code_of};
ghost use Rattle.rules.specs.Question.{first_no};
ghost use Rattle.rules.specs.Membership.{crash_asks};
ghost use Rattle.codec.specs.Codec.{change};
ghost use Rattle.layout.specs.Layout.{place_codec};
ghost use Rattle.layout.specs.Store.{decode};
ghost use Rattle.lent.specs.Performs.{Performs};
ghost use Rattle.lent.specs.Places.{HoldsBrick};
ghost use Rattle.lent.specs.Stores.{StoreOf};
ghost use Rattle.membership.specs.Places.{crashed};

use layout::sizes;
use lent::place::Span;
use lent::{Answer, copies, place};
use records::status::Status;
use rules::refusal::Refusal;
use rules::settings::Settings;

// Is there such a place, and is its brick up?
fn asks(store: &[u8], settings: Settings, place: u64) -> Result<(), Refusal>
    requires { StoreOf settings store.now }
    ensures { code_of result ≡ first_no (crash_asks (decode (words store.now)) place) }
{
    if settings.places as u64 <= place {
        return Err(Refusal::BadInput);
    }
    if place::is_up(store, settings, place as usize) {
        Ok(())
    } else {
        Err(Refusal::WrongState)
    }
}

// The place's part: the status, then the buffer, the copies and the log.
fn crash_place(part: &mut [u8], settings: Settings)
    requires { HoldsBrick settings (words part.old) (length part.old) }
    ensures { words part.new ≡ change (place_codec settings) crashed (words part.old) }
{
    let log = 8 * sizes::log_at(settings);
    let end = part.len();
    let old = records::place::read_status(part, settings);
    let new = Status {
        up: false,
        member: false,
        next: old.ceiling,
        ..old
    };
    records::place::write_status(part, settings, new);
    words::write(part, sizes::BUFFER_AT, 0);
    copies::restore_all(&mut part[8 * sizes::COPIES_AT..log], settings);
    sweep::keep_saved(
        &mut part[log..end],
        settings.chunks,
        settings.size / sizes::WORD_BYTES,
    );
}

pub fn crash(store: &mut [u8], settings: Settings, place: u64) -> Answer
    requires { StoreOf settings store.old }
    ensures { Performs (Event.crash place) (words store.old) result (words store.new) }
{
    asks(store, settings, place)?;
    let Span { from, to } = place::span_of(settings, place as usize);
    crash_place(&mut store[from..to], settings);
    Ok(0)
}
