// The bag of a lent store: what is asked before it is handed out, and its bytes.
ghost use Rattle.std.specs.Prelude.{◌≡◌, true};
ghost use Rattle.rules.specs.Refusals.{code_of};
ghost use Rattle.rules.specs.Question.{first_no};
ghost use Rattle.layout.specs.Store.{decode_bytes, sound_bytes};
ghost use Rattle.relays.specs.Relays.{BagPart};
ghost use Rattle.relay_list.specs.Shown.{show_asks};

use rules::refusal::Refusal;

// A sound store, and records for so many relays?
pub fn asks(store: &[u8], room: usize) -> Result<(), Refusal>
    ensures { code_of result ≡ first_no (show_asks store.now room) }
{
    if !store_check::is_sound(store) {
        return Err(Refusal::Unsound);
    }
    let settings = lent::store::settings(store);
    if (room as u64) < lent::store::relay_count(store, settings) {
        Err(Refusal::BadInput)
    } else {
        Ok(())
    }
}

pub fn bag_bytes<'a>(store: &'a [u8]) -> &'a [u8]
    requires { sound_bytes store.now ≡ true }
    ensures { BagPart (decode_bytes store.now).bag result.now }
{
    let settings = lent::store::settings(store);
    relays::relay::bag_part(store, settings)
}
