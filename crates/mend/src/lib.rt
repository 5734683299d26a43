// mend: a place gets saved every chunk that a primary of a ready bucket names in memory, where it is one of the first two members from the home id upward.

#![tactic(auto)]

ghost use Rattle.std.specs.Prelude.{◌≡◌, [], ◌∷◌, cond, leb, length};
ghost use Rattle.words.specs.Words.{words};
ghost use Rattle.rules.specs.Limits.{buckets};
ghost use Rattle.rules.specs.Event.{Event};
ghost use Rattle.rules.specs.Refusals.{code_of};
ghost use Rattle.rules.specs.Question.{◌asks◌, first_no};
ghost use Rattle.rules.specs.Upkeep.{mended, mend_effect};
ghost use Rattle.layout.specs.Store.{decode, render};
ghost use Rattle.lent.specs.Performs.{Performs};
ghost use Rattle.lent.specs.Stores.{StoreOf};
ghost use Rattle.mend.specs.Fit.{UpAt};

use lent::{Answer, place};
use rules::constants;
use rules::refusal::Refusal;
use rules::settings::Settings;

pub mod act;
pub mod chunk;
pub mod effect;
pub mod room;

// The place gets them all, or none where there is no room: question 10. `tables` has room for where the named entries lie, `area` for a chunk's bytes on their way.
fn mend_in(
    store: &mut [u8],
    settings: Settings,
    place: usize,
    tables: &mut [Option<usize>],
    area: &mut [u8],
) -> Result<(), Refusal>
    requires { UpAt settings store.old place × (length tables.old ≡ buckets settings) × (length area.old ≡ settings.size) }
    ensures { (code_of result
        ≡ first_no ((10 asks leb (length (mended (decode (words store.old)) ((decode (words store.old)).ids place))) settings.chunks) ∷ []))
        × (words store.new
        ≡ cond (leb (length (mended (decode (words store.old)) ((decode (words store.old)).ids place))) settings.chunks)
        (render (mend_effect (decode (words store.old)) ((decode (words store.old)).ids place)) (words store.old)) (words store.old)) }
{
    named::all_named(store, settings, tables);
    if !room::has_room(store, settings, place, tables) {
        return Err(Refusal::NoRoom);
    }
    effect::mend_all(store, settings, place, tables, area);
    Ok(())
}

pub fn mend(store: &mut [u8], settings: Settings, place: u64) -> Answer
    requires { StoreOf settings store.old }
    ensures { Performs (Event.mend place) (words store.old) result (words store.new) }
{
    place::asks(store, settings, place)?;
    let count = settings.buckets();
    let mut tables = [None; constants::MAX_BUCKETS];
    let size = settings.size;
    let mut area = [0u8; Settings::MAX_SIZE];
    mend_in(
        store,
        settings,
        place as usize,
        &mut tables[0..count],
        &mut area[0..size],
    )?;
    Ok(0)
}
