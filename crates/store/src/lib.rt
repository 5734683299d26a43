// The calls on a lent store.
#![tactic(auto)]

ghost use Rattle.std.specs.Prelude.{◌≡◌};
ghost use Rattle.rules.specs.Limits.{checked};
ghost use Rattle.rules.specs.Refusals.{code_of};
ghost use Rattle.store.specs.Calls.{settings, length_of, Formatted, check_answer};

use layout::sizes;
use rules::refusal::Refusal;
use rules::settings::Settings;

// Settings from a caller's numbers.
fn settings(places: u64, size: u64, entries: u64, chunks: u64) -> Result<Settings, Refusal>
    ensures { result ≡ checked places size entries chunks }
{
    Settings::new(
        places as usize,
        size as usize,
        entries as usize,
        chunks as usize,
    )
}

// The bytes to lend for a store of these settings.
pub fn length(places: u64, size: u64, entries: u64, chunks: u64) -> Result<u64, Refusal>
    ensures { result ≡ length_of (settings places size entries chunks) }
{
    let good = settings(places, size, entries, chunks)?;
    Ok(sizes::store_bytes(good) as u64)
}

// Makes the lent bytes a store, or changes nothing where the settings are out of limits or the bytes are not as many as theirs.
pub fn format_store(
    store: &mut [u8],
    places: u64,
    size: u64,
    entries: u64,
    chunks: u64,
) -> Result<(), Refusal>
    ensures { Formatted (settings places size entries chunks) store.old (code_of result) store.new }
{
    let made = settings(places, size, entries, chunks)?;
    if store.len() != sizes::store_bytes(made) {
        return Err(Refusal::BadSettings);
    }
    format::first_state(store, made);
    Ok(())
}

// Is it a sound store?
pub fn check(store: &[u8]) -> Result<(), Refusal>
    ensures { code_of result ≡ check_answer store.now }
{
    if store_check::is_sound(store) {
        Ok(())
    } else {
        Err(Refusal::Unsound)
    }
}
