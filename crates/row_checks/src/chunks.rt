// A brick's chunk log.
ghost use Rattle.std.specs.Prelude.{◌≡◌, ℕ, suc, ◌-◌, ◌<◌, length};
ghost use Rattle.std.specs.Option.{MatchOption};
ghost use Rattle.words.specs.Words.{words};
ghost use Rattle.lists.specs.Tests.{all_below};
ghost use Rattle.row_checks.specs.Rows.{key_below};
ghost use Rattle.row_checks.specs.Chunks.{Descent, KeyUnder, row_passes, log_sound, KeyFit, DescendFit, PassFit, LogFit};

use crate::rows;
use rules::constants;
use rules::numbers::ChunkKey;
use rules::settings::Settings;

// A position that was reached, the key there, and the bits of the flags on the way.
#[derive(Clone, Copy)]
struct Reached {
    at: usize,
    key: u64,
    flags: u64,
}

// The position below, if it names a row in use whose key is below the next.
fn key_under(log: &[u8], chunks: usize, n: usize, next: Reached) -> Option<Reached>
    requires { KeyFit (length log.now) chunks n (next.at - 1) × (0 < next.at) }
    ensures { MatchOption result (Unit {0}) (λ r. (suc r.at ≡ next.at) × KeyUnder chunks n (words log.now) r.at next.key next.flags r.key r.flags) }
{
    let at = next.at - 1;
    let row = words::read(log, 1 + 2 * chunks + at);
    if n as u64 <= row {
        return None;
    }
    let p = row as usize;
    let key = words::read(log, 1 + 2 * p);
    if next.key <= key {
        return None;
    }
    let flags = next.flags | words::read(log, 2 + 2 * p);
    Some(Reached { at, key, flags })
}

// Four positions down, if they name rows in use whose keys descend and stay above the floor: the last of the four tells of all.
fn four_under(log: &[u8], chunks: usize, n: usize, floor: u64, next: Reached) -> Option<Reached>
    requires { KeyFit (length log.now) chunks n next.at }
    ensures { MatchOption result (Unit {0}) (λ r. (r.at < next.at) × ((i : ℕ) → Descent chunks n (words log.now) floor i next.at next.key next.flags
        → Descent chunks n (words log.now) floor i r.at r.key r.flags)) }
{
    if next.at < 4 {
        return None;
    }
    let one = key_under(log, chunks, n, next)?;
    let two = key_under(log, chunks, n, one)?;
    let three = key_under(log, chunks, n, two)?;
    let four = key_under(log, chunks, n, three)?;
    if four.key <= floor {
        return None;
    }
    Some(four)
}

// From position i down, four at a time, as long as rows in use have keys that descend and stay above the floor: those have the id of the key at i.
fn descend(log: &[u8], chunks: usize, n: usize, i: usize, floor: u64, key: u64) -> Reached
    requires { DescendFit log.now chunks n i floor key }
    ensures { Descent chunks n (words log.now) floor i result.at result.key result.flags }
{
    let mut here = Reached {
        at: i,
        key,
        flags: 0,
    };
    while let Some(lower) = four_under(log, chunks, n, floor, here) {
        here = lower;
    }
    here
}

// One pass along the positions of a log of n chunks: each names a row in use whose flag is 0 or 1 and whose key is below its bound, and keys ascend. From the
// last to the first, so that a limit is looked up only where the id changes.
fn pass(bounds: &[u64], log: &[u8], chunks: usize, n: usize) -> bool
    requires { PassFit bounds.now (length log.now) chunks n }
    ensures { result ≡ all_below n (row_passes (key_below bounds.now) chunks n (words log.now)) }
{
    let mut top = u64::MAX;
    let mut i = n;
    // stays: each turn goes down past a stretch of rows, as far as that reaches, so a `for` doesn't count the turns
    while 0 < i {
        i -= 1;
        let at = words::read(log, 1 + 2 * chunks + i);
        if n as u64 <= at {
            return false;
        }
        let row = at as usize;
        if 1 < words::read(log, 2 + 2 * row) {
            return false;
        }
        let key = words::read(log, 1 + 2 * row);
        if top < key {
            return false;
        }
        if !rows::key_below(bounds, key) {
            return false;
        }
        let floor = ChunkKey(key).home() * constants::SEQUENCES - 1;
        let reached = descend(log, chunks, n, i, floor, key);
        if 1 < reached.flags {
            return false;
        }
        i = reached.at;
        top = reached.key - 1;
    }
    true
}

pub fn log_good(settings: Settings, bounds: &[u64], log: &[u8]) -> bool
    requires { LogFit settings bounds.now (length log.now) }
    ensures { result ≡ log_sound settings (key_below bounds.now) (words log.now) }
{
    let count = words::read(log, 0);
    let chunks = settings.chunks;
    count <= chunks as u64 && pass(bounds, log, chunks, count as usize)
}
