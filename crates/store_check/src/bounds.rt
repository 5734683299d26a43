// A bound for each id, filled once for each check: a key's sequence number is below its home's. 0 where the id was not given, the brick's next where a
// place holds it, all sequence numbers else.
ghost use Rattle.std.specs.Prelude.{◌≡◌, length};
ghost use Rattle.words.specs.Words.{words};
ghost use Rattle.store_check.specs.Bounds.{with_bound, GivenFit, Given, Filled, FillFit};

use layout::sizes;
use rules::constants;
use rules::settings::Settings;

// Every id given may have any sequence number.
pub fn fill_given(bounds: &mut [u64], given: u64)
    requires { GivenFit (length bounds.old) given }
    ensures { Given given bounds.old bounds.new }
{
    for i in 1..given as usize + 1 {
        bounds[i] = constants::SEQUENCES;
    }
}

// The bound of an id given.
fn set_bound(bounds: &mut [u64], given: u64, id: u64, next: u64)
    requires { GivenFit (length bounds.old) given }
    ensures { bounds.new ≡ with_bound given id next bounds.old }
{
    if 0 < id && id <= given {
        bounds[id as usize] = next;
    }
}

// The bounds of the bricks at the places.
pub fn fill_places(bounds: &mut [u64], settings: Settings, given: u64, store: &[u8])
    requires { FillFit settings given (length bounds.old) (length store.now) }
    ensures { Filled settings given (words store.now) settings.places bounds.old bounds.new }
{
    for p in 0..settings.places {
        let at = sizes::place_at(settings, p);
        set_bound(
            bounds,
            given,
            words::read(store, at),
            words::read(store, at + sizes::NEXT_AT),
        );
    }
}
