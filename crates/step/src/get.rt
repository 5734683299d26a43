// get for a caller in Rattle: its bytes are a part of the lent store, or of the lent zero block, not a copy. It serves any lent bytes; who knows that the
// store is sound, as the trace does, takes the part from `reads::get`.
ghost use Rattle.rules.specs.Refusals.{code_of};
ghost use Rattle.reads.specs.Get.{found_key, found_bytes};
ghost use Rattle.step.specs.Get.{GetsPart};

use reads::Found;
use rules::refusal::Refusal;

pub fn get<'a>(
    store: &'a [u8],
    blank: &'a [u8],
    proxy: u64,
    block: u64,
) -> Result<Found<'a>, Refusal>
    ensures { GetsPart store.now blank.now proxy block (code_of result) (found_key result) (found_bytes result) }
{
    if !store_check::is_sound(store) {
        return Err(Refusal::Unsound);
    }
    let settings = lent::store::settings(store);
    if !reads::is_zero_block(blank, settings.size) {
        return Err(Refusal::BadInput);
    }
    reads::get(store, blank, settings, proxy, block)
}
