// What a place does for a named key: it is to have the key's chunk saved where it is one of the first two members from the home id upward and an up
// member holds the chunk.
ghost use Rattle.words.specs.Words.{words};
ghost use Rattle.layout.specs.Store.{decode};
ghost use Rattle.mend.specs.Fit.{UpAt};
ghost use Rattle.mend.specs.Acts.{ActOf};

use holders::Location;
use lent::place;
use rules::numbers::ChunkKey;
use rules::settings::Settings;

#[derive(Clone, Copy)]
pub enum Act {
    Nothing,
    // its own chunk becomes saved
    Save,
    // the chunk comes from where it lies
    Bring(Location),
}

pub fn for_key(store: &[u8], settings: Settings, place: usize, key: ChunkKey) -> Act
    requires { UpAt settings store.now place }
    ensures { ActOf settings (decode (words store.now)) ((decode (words store.now)).ids place) key.0 result }
{
    let id = place::id(store, settings, place);
    if !holders::of_first_two(store, settings, id, key) {
        return Act::Nothing;
    }
    if holders::holds_at(store, settings, place, key) {
        return Act::Save;
    }
    holders::holder(store, settings, key).map_or(Act::Nothing, Act::Bring)
}
