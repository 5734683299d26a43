// A brick by its id.
ghost use Rattle.std.specs.Prelude.{◌≡◌, ◌<◌};
ghost use Rattle.words.specs.Words.{words};
ghost use Rattle.rules.specs.Derived.{up_member};
ghost use Rattle.layout.specs.Store.{decode};
ghost use Rattle.lent.specs.Stores.{StoreOf};
ghost use Rattle.lent.specs.Places.{PlaceOf, MemberOf};

use crate::place;
use rules::settings::Settings;

// The place of the brick with an id.
pub fn place_of(store: &[u8], settings: Settings, id: u64) -> Option<usize>
    requires { StoreOf settings store.now }
    ensures { PlaceOf settings (decode (words store.now)) id result }
{
    if id == 0 {
        return None;
    }
    (0..settings.places).find(|&p| place::id(store, settings, p) == id)
}

// Is the brick an up member?
pub fn up_member(store: &[u8], settings: Settings, id: u64) -> bool
    requires { StoreOf settings store.now }
    ensures { result ≡ up_member (decode (words store.now)) id }
{
    place_of(store, settings, id).is_some_and(|place| place::up_member(store, settings, place))
}

// The place of the brick, if it is an up member.
pub fn find_member(store: &[u8], settings: Settings, id: u64) -> Option<usize>
    requires { StoreOf settings store.now }
    ensures { MemberOf settings (decode (words store.now)) id result }
{
    place_of(store, settings, id).filter(|&place| place::up_member(store, settings, place))
}
