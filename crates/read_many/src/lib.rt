// Many blocks of one proxy in one call: question 2 once, and then each block as a get answers it.

#![tactic(auto)]

ghost use Rattle.std.specs.Prelude.{◌≡◌, ◌++◌, reverse, ◌*◌, ◌≤◌, ◌<◌, length, drop};
ghost use Rattle.words.specs.Words.{bytes_of};
ghost use Rattle.rules.specs.Limits.{max_size};
ghost use Rattle.rules.specs.Refusals.{code_of};
ghost use Rattle.lent.specs.Stores.{StoreOf};
ghost use Rattle.read_many.specs.Read.{head_bytes, answer_bytes, head, get_answer, answers_to, fits, read, read_outcome};

use rules::refusal::Refusal;
use rules::settings::Settings;

// blocks in one call
const MAX_BLOCKS: usize = 64;

const KEY_BYTES: usize = 8;

// bytes of an answer before the block's: the code's and the key's
const HEAD_BYTES: usize = 1 + KEY_BYTES;

// ---- one answer

// The eight bytes of a key, the highest first.
#[tactic(auto, unfolding(words::specs::Words::bytes_of))]
fn set_key(bytes: &mut [u8], key: u64)
    requires { length bytes.old ≡ 8 }
    ensures { bytes.new ≡ reverse (bytes_of 8 key) }
{
    bytes.copy_from_slice(&key.to_be_bytes())
}

// The code and the key.
fn set_head(answer: &mut [u8], code: u64, key: u64)
    requires { (head_bytes ≤ length answer.old) × (code < 256) }
    ensures { answer.new ≡ head code key ++ drop head_bytes answer.old }
{
    answer[0] = code as u8;
    set_key(&mut answer[1..HEAD_BYTES], key)
}

// What a get of the block answers; zeros for its bytes where it is refused.
fn set_answer(store: &[u8], settings: Settings, proxy: u64, block: u64, answer: &mut [u8])
    requires { StoreOf settings store.now × (length answer.old ≡ answer_bytes settings.size) }
    ensures { answer.new ≡ get_answer settings.size store.now proxy block }
{
    let answered = reads::fill_block(store, settings, proxy, block, &mut answer[HEAD_BYTES..]);
    match answered {
        Ok(key) => set_head(answer, 0, key),
        Err(refusal) => {
            reads::clear(&mut answer[HEAD_BYTES..]);
            set_head(answer, u64::from(refusal), 0)
        }
    }
}

// ---- the call

// Are there at most 64 blocks, and room for their answers?
fn fits(size: usize, blocks: usize, room: usize) -> bool
    requires { size ≤ max_size }
    ensures { result ≡ fits size blocks room }
{
    if MAX_BLOCKS < blocks {
        return false;
    }
    blocks * (HEAD_BYTES + size) <= room
}

// One answer for each block, from the first byte on.
fn set_answers(store: &[u8], settings: Settings, proxy: u64, blocks: &[u64], answers: &mut [u8])
    requires { StoreOf settings store.now × (length blocks.now * answer_bytes settings.size ≤ length answers.old) }
    ensures { answers.new ≡ answers_to settings.size store.now proxy blocks.now answers.old }
{
    let size = HEAD_BYTES + settings.size;
    let mut at = 0;
    for block in blocks {
        let end = at + size;
        set_answer(store, settings, proxy, *block, &mut answers[at..end]);
        at = end;
    }
}

// An answer for each block; the bytes past the last answer stay. Refused where the store is not sound, and where there are more than 64 blocks or too few
// bytes for the answers; then no lent byte changes.
pub fn read(store: &[u8], proxy: u64, blocks: &[u64], answers: &mut [u8]) -> Result<(), Refusal>
    ensures { read (code_of result) answers.new
        ≡ read_outcome store.now proxy blocks.now answers.old }
{
    if !store_check::is_sound(store) {
        return Err(Refusal::Unsound);
    }
    let settings = lent::store::settings(store);
    if fits(settings.size, blocks.len(), answers.len()) {
        set_answers(store, settings, proxy, blocks, answers);
        return Ok(());
    }
    Err(Refusal::BadInput)
}
