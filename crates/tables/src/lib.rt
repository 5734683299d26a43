// Tables in a lent slice, in 64-bit words: a count, then at most `most` rows of `width` words. Rows past the count keep what they hold. A table may be
// sorted by the first words of its rows, or be a queue in arrival order.

#![tactic(auto)]

ghost use Rattle.std.specs.Prelude.{◌≡◌, true, ◌+◌, ◌*◌, ◌≤◌, ◌<◌, length, get_or};
ghost use Rattle.lists.specs.Tests.{all_below};
ghost use Rattle.words.specs.Words.{words};
ghost use Rattle.lists.specs.Rows.{table_dec, row_words};
ghost use Rattle.tables.specs.Tables.{change_table, cell_at, set_cell, insert_at, without_index, copied, same_at, same_rows};
ghost use Rattle.tables.specs.Tables.{TwoTables, IsTable, Sorted, RowsBelow, RowsFrom, LowerBound};
ghost use Rattle.tables.specs.Spots.{SpotOf};

// ---- look-up

// Word j of row i.
pub fn cell(t: &[u8], width: usize, most: usize, i: usize, j: usize) -> u64
    requires table { IsTable width most (words t.now) (length t.now) }
    requires i_bound { (i < get_or (words t.now) 0 0) × (j < width) }
    ensures { result ≡ cell_at i j (table_dec width row_words (words t.now)) }
{
    words::read(t, 1 + words::offset(i, width, most) + j)
}

// The first index whose row does not begin below x.
fn lower_bound(t: &[u8], width: usize, most: usize, x: u64) -> usize
    requires { Sorted width most (words t.now) (length t.now) }
    ensures { LowerBound width (words t.now) x result }
{
    let n = words::read(t, 0) as usize;
    words::lower_bound(n, x, |i| words::read(t, 1 + words::offset(i, width, most)))
}

// Does the row before index p begin below x? Before the first there is none.
fn is_after(t: &[u8], width: usize, most: usize, x: u64, p: usize) -> bool
    requires { Sorted width most (words t.now) (length t.now) × (p ≤ get_or (words t.now) 0 0) }
    ensures { result ≡ true → RowsBelow width (words t.now) x p }
{
    p == 0 || words::read(t, 1 + words::offset(p - 1, width, most)) < x
}

// Does row p not begin below x? Past the last there is none.
fn is_before(t: &[u8], width: usize, most: usize, x: u64, p: usize) -> bool
    requires { Sorted width most (words t.now) (length t.now) × (p ≤ get_or (words t.now) 0 0) }
    ensures { result ≡ true → RowsFrom width (words t.now) x p }
{
    p == words::read(t, 0) as usize || x <= words::read(t, 1 + words::offset(p, width, most))
}

// The same index as `lower_bound` gives, looked for at a guess first.
fn lower_bound_near(t: &[u8], width: usize, most: usize, x: u64, guess: usize) -> usize
    requires { Sorted width most (words t.now) (length t.now) }
    ensures { LowerBound width (words t.now) x result }
{
    if guess <= words::read(t, 0) as usize
        && is_after(t, width, most, x, guess)
        && is_before(t, width, most, x, guess)
    {
        return guess;
    }
    lower_bound(t, width, most, x)
}

// Ok, the index of the row that begins with x, or Err, the index before which it would go; that index is p.
fn spot_at(t: &[u8], width: usize, most: usize, x: u64, p: usize) -> Result<usize, usize>
    requires { Sorted width most (words t.now) (length t.now) × LowerBound width (words t.now) x p }
    ensures { SpotOf width (words t.now) x result }
{
    if p < words::read(t, 0) as usize {
        let at = words::offset(p, width, most);
        if words::read(t, 1 + at) == x {
            return Ok(p);
        }
    }
    Err(p)
}

// Where the row that begins with x is, or would go.
pub fn find(t: &[u8], width: usize, most: usize, x: u64) -> Result<usize, usize>
    requires { Sorted width most (words t.now) (length t.now) }
    ensures { SpotOf width (words t.now) x result }
{
    spot_at(t, width, most, x, lower_bound(t, width, most, x))
}

// The same, looked for at a guess first: a table like one in which the row was found has it at the same index.
pub fn find_near(t: &[u8], width: usize, most: usize, x: u64, guess: usize) -> Result<usize, usize>
    requires { Sorted width most (words t.now) (length t.now) }
    ensures { SpotOf width (words t.now) x result }
{
    spot_at(
        t,
        width,
        most,
        x,
        lower_bound_near(t, width, most, x, guess),
    )
}

// ---- comparison

// Do the n words after the first agree? All are looked at: the compiler compares several at a time in a loop with no other way out.
fn same_words(a: &[u8], b: &[u8], n: usize) -> bool
    requires { (8 * (1 + n) ≤ length a.now) × (8 * (1 + n) ≤ length b.now) }
    ensures { result ≡ all_below n (same_at (words a.now) (words b.now)) }
{
    let mut other = 0;
    for i in 0..n {
        other |= words::read(a, 1 + i) ^ words::read(b, 1 + i);
    }
    other == 0
}

// Have two tables the same rows?
pub fn same(a: &[u8], b: &[u8], width: usize, most: usize) -> bool
    requires table { IsTable width most (words a.now) (length a.now) }
    requires table_2 { IsTable width most (words b.now) (length b.now) }
    ensures { result ≡ same_rows width (words a.now) (words b.now) }
{
    let n = words::read(a, 0);
    n == words::read(b, 0) && same_words(a, b, n as usize * width)
}

// ---- changes

// Word j of row i becomes v.
pub fn set_cell(t: &mut [u8], width: usize, most: usize, i: usize, j: usize, v: u64)
    requires table { IsTable width most (words t.old) (length t.old) }
    requires i_bound { (i < get_or (words t.old) 0 0) × (j < width) }
    ensures { words t.new ≡ change_table width (set_cell i j v) (words t.old) }
{
    words::write(t, 1 + words::offset(i, width, most) + j, v)
}

// A row more, before index p; at the end, where p is the count.
pub fn insert_row(t: &mut [u8], width: usize, most: usize, p: usize, list: &[u64])
    requires table { IsTable width most (words t.old) (length t.old) }
    requires p_bound { (p ≤ get_or (words t.old) 0 0) × (get_or (words t.old) 0 0 < most) × (length list.now ≡ width) }
    ensures { words t.new ≡ change_table width (insert_at p list.now) (words t.old) }
{
    let n = words::read(t, 0) as usize;
    let at = words::offset(p, width, most);
    let end = words::offset(n, width, most);
    moves::move_up(t, 1 + at, 1 + at + width, end - at);
    moves::put_words(t, 1 + at, list);
    words::write(t, 0, (n + 1) as u64);
}

// Row p goes.
pub fn remove_row(t: &mut [u8], width: usize, most: usize, p: usize)
    requires table { IsTable width most (words t.old) (length t.old) }
    requires p_bound { p < get_or (words t.old) 0 0 }
    ensures { words t.new ≡ change_table width (without_index p) (words t.old) }
{
    let last = words::read(t, 0) as usize - 1;
    let at = words::offset(p, width, most);
    let end = words::offset(last, width, most);
    moves::move_down(t, 1 + at + width, 1 + at, end - at);
    words::write(t, 0, last as u64);
}

// The table from word `from` on is copied to the one from word `to` on: its count and its rows in use.
pub fn copy_table(s: &mut [u8], from: usize, to: usize, width: usize, most: usize)
    requires { TwoTables width most from to (words s.old) (length s.old) }
    ensures { words s.new ≡ copied width most from to (words s.old) }
{
    let n = words::read(s, from) as usize;
    moves::move_words(s, from, to, 1 + n * width);
}
