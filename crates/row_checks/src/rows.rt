// Keys, entries, and tables of entries: bucket copies, items, append buffers.
ghost use Rattle.std.specs.Prelude.{◌≡◌, ℕ, suc, ◌<◌, length};
ghost use Rattle.std.specs.Option.{MatchOption};
ghost use Rattle.words.specs.Words.{words};
ghost use Rattle.rules.specs.Entries.{entry};
ghost use Rattle.layout.specs.Layout.{entries_codec};
ghost use Rattle.row_checks.specs.Rows.{ids, key_below, belongs_to, ceiling_below, entry_fits, rows_good, first_entries, table_sound, RowsFit, TableFit};
ghost use Rattle.row_checks.specs.Stretches.{block_at, RowUnder, Stretch};

use rules::constants;
use rules::numbers::{BlockNumber, ChunkKey};
use rules::settings::Settings;

// Whose blocks a table has: a bucket's or a proxy's, ascending, or anyone's, in arrival order.
#[derive(Clone, Copy)]
pub enum Whose {
    Bucket(u64),
    Proxy(u64),
    Anyone,
}

pub fn key_below(bounds: &[u64], key: u64) -> bool
    requires { length bounds.now ≡ ids }
    ensures { result ≡ key_below bounds.now key }
{
    let home = ChunkKey(key).home() as usize;
    ChunkKey(key).sequence() < bounds[home]
}

fn belongs(settings: Settings, whose: Whose, block: u64) -> bool
    ensures { result ≡ belongs_to settings whose block }
{
    match whose {
        Whose::Bucket(g) => BlockNumber(block).bucket(settings) == g,
        Whose::Proxy(p) => BlockNumber(block).proxy() == p,
        Whose::Anyone => true,
    }
}

// The block before this one is below it in an ascending table, and below the number of blocks in any.
fn ceiling_below(whose: Whose, block: u64) -> u64
    ensures { result ≡ ceiling_below whose block }
{
    match whose {
        Whose::Bucket(_) | Whose::Proxy(_) => block,
        Whose::Anyone => constants::BLOCKS,
    }
}

// An entry whose block is in range.
fn entry_fits(settings: Settings, bounds: &[u64], whose: Whose, block: u64, key: u64) -> bool
    requires { length bounds.now ≡ ids }
    ensures { result ≡ entry_fits settings (key_below bounds.now) whose (entry block key) }
{
    belongs(settings, whose, block) && key_below(bounds, key)
}

// A row that was reached, and the block there.
#[derive(Clone, Copy)]
struct Reached {
    at: usize,
    block: u64,
}

// The row below, if its block is below the next and its key below its bound.
fn row_under(bounds: &[u64], table: &[u8], next: Reached) -> Option<Reached>
    requires { RowsFit (length bounds.now) (length table.now) next.at × (0 < next.at) }
    ensures { MatchOption result (Unit {0}) (λ r. (suc r.at ≡ next.at) × RowUnder bounds.now (words table.now) r.at next.block r.block) }
{
    let at = next.at - 1;
    let block = words::read(table, 1 + 2 * at);
    if next.block <= block || !key_below(bounds, words::read(table, 2 + 2 * at)) {
        return None;
    }
    Some(Reached { at, block })
}

// Four rows down, if their blocks descend and stay above the floor and their keys are below their bounds. The lowest is looked at first: where it is not above
// the floor the others need not be looked at.
fn four_under(bounds: &[u64], table: &[u8], floor: u64, next: Reached) -> Option<Reached>
    requires { RowsFit (length bounds.now) (length table.now) next.at }
    ensures { MatchOption result (Unit {0}) (λ r. (r.at < next.at) × ((i : ℕ) → Stretch bounds.now (words table.now) floor i next.at next.block
        → Stretch bounds.now (words table.now) floor i r.at r.block)) }
{
    if next.at < 4 || words::read(table, 1 + 2 * (next.at - 4)) <= floor {
        return None;
    }
    let one = row_under(bounds, table, next)?;
    let two = row_under(bounds, table, one)?;
    let three = row_under(bounds, table, two)?;
    row_under(bounds, table, three)
}

// From row i down, four at a time, as long as blocks descend and stay above the floor and keys are below their bounds.
fn stretch(bounds: &[u64], table: &[u8], i: usize, floor: u64, block: u64) -> Reached
    requires rows_fit { RowsFit (length bounds.now) (length table.now) i }
    requires block_value { block ≡ block_at (words table.now) i }
    ensures { Stretch bounds.now (words table.now) floor i result.at result.block }
{
    let mut here = Reached { at: i, block };
    while let Some(lower) = four_under(bounds, table, floor, here) {
        here = lower;
    }
    here
}

// The first n rows of a table, from the last to the first: one comparison tells that a block is in range and below the next. Blocks of one run belong alike.
fn rows_good(settings: Settings, bounds: &[u64], whose: Whose, table: &[u8], n: usize) -> bool
    requires { RowsFit (length bounds.now) (length table.now) n }
    ensures { result ≡ rows_good settings (key_below bounds.now) whose 0 (first_entries n (words table.now)) }
{
    let mut ceiling = constants::BLOCKS;
    let mut i = n;
    // stays: each turn goes down past a stretch of rows, as far as that reaches, so a `for` doesn't count the turns
    while 0 < i {
        i -= 1;
        let block = words::read(table, 1 + 2 * i);
        if ceiling <= block {
            return false;
        }
        let key = words::read(table, 2 + 2 * i);
        if !entry_fits(settings, bounds, whose, block, key) {
            return false;
        }
        let floor = block / constants::RUN_BLOCKS * constants::RUN_BLOCKS;
        let reached = stretch(bounds, table, i, floor, block);
        i = reached.at;
        ceiling = ceiling_below(whose, reached.block);
    }
    true
}

// A table of at most so many rows.
pub fn table_good(
    settings: Settings,
    bounds: &[u64],
    whose: Whose,
    bytes: &[u8],
    most: usize,
) -> bool
    requires { TableFit (length bounds.now) (length bytes.now) most }
    ensures { result ≡ table_sound settings (key_below bounds.now) whose most ((entries_codec most).dec (words bytes.now)) }
{
    let count = words::read(bytes, 0);
    count <= most as u64 && rows_good(settings, bounds, whose, bytes, count as usize)
}
