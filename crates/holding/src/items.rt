// Check 20 on an arena of any contents: one pass over the list that it holds, which lays the items out in a row.
ghost use Rattle.std.specs.Prelude.{◌≡◌, ◌≤◌, length, option_copied};
ghost use Rattle.checks.specs.Limits.{buffer_words, most_sizes};
ghost use Rattle.arena.specs.Arena.{level, m_word};
ghost use Rattle.arena.specs.Lazy.{lazy_list};
ghost use Rattle.arena.specs.inside.Sums.{Summable, TrueP};
ghost use Rattle.forwards.specs.inside.Due.{Decides};
ghost use Rattle.holding.specs.inside.Pass.{Stands, Follows, arena_list, LaidOut};

use arena::sums::{enter, true_p};
use arena::words::{BACK, FORWARD, LEVEL, M, get};
use checks::Check;
use checks::limits::{SIZES, WORDS};
use forwards::due::{due_from_head, none_due, pass_links};

// m and true p of a record on the list.
#[derive(Clone, Copy, PartialEq, Eq, Default)]
pub struct Item {
    pub m: u32,
    pub p: u32,
}

// Whether record r may stand on a list after `count` others, of which `last` is the last: by their number, its own, its
// back word and its level. The back word is compared, and never followed.
fn may_stand(arena: &[u32], count: usize, last: usize, r: usize) -> bool
    requires { buffer_words ≤ length arena.now }
    ensures { Decides result (Stands arena.now count last r) }
{
    count < SIZES
        && r <= SIZES
        && get(arena, r, BACK) as usize == last
        && (1..=8).contains(&get(arena, r, LEVEL))
}

// The item in the record that the sums lead to.
fn item_at(arena: &[u32], r: usize, sums: &[u32]) -> Item
    requires { Summable arena.now r sums.now }
    ensures m_value { result.m ≡ m_word arena.now r }
    ensures true_p { TrueP arena.now r sums.now result.p }
{
    Item {
        m: get(arena, r, M),
        p: true_p(arena, r, sums),
    }
}

// Whether an item may follow the one before it, where there is one.
fn may_follow(before: Option<&Item>, item: Item) -> bool
    ensures { Decides result (Follows (option_copied before.entry) item) }
{
    match before {
        None => true,
        Some(before) => item.m < before.m && before.p < item.p,
    }
}

// The walk from the head, which lays the items out in the row, and answers how many there are: `next` is the record that
// it has come to, `last` the one before it, `due` those that the higher links must come to, and `sums` the sums that lead
// there.
fn lay_out(arena: &[u32], items: &mut [Item]) -> Result<usize, Check>
    requires arena_long { (buffer_words ≤ length arena.now) × (level arena.now 0 ≡ 8) }
    requires row_long { length items.old ≡ most_sizes }
    ensures { LaidOut (lazy_list arena.now) items.new result }
{
    let mut due = [0u32; 8];
    let mut sums = [0u32; 9];
    due_from_head(arena, &mut due);
    enter(arena, 0, &mut sums);
    let mut next = get(arena, 0, FORWARD) as usize;
    let mut last = 0;
    let mut count = 0;
    while next != 0 {
        if !may_stand(arena, count, last, next) {
            return Err(Check::LazyList);
        }
        let item = item_at(arena, next, &sums);
        if !may_follow(items[..count].last(), item) {
            return Err(Check::LazyList);
        }
        if !pass_links(arena, next, &mut due, &mut sums) {
            return Err(Check::LazyList);
        }
        items[count] = item;
        count += 1;
        last = next;
        next = get(arena, next, FORWARD) as usize;
    }
    if get(arena, 0, BACK) as usize != last {
        return Err(Check::LazyList);
    }
    if !none_due(&due) {
        return Err(Check::LazyList);
    }
    Ok(count)
}

// Checks 17 and 20 on any arena, and the items of its list in the row: how many there are.
pub fn items_of(arena: &[u32], items: &mut [Item]) -> Result<usize, Check>
    requires { length items.old ≡ most_sizes }
    ensures { LaidOut (arena_list arena.now) items.new result }
{
    if arena.len() < WORDS {
        return Err(Check::Buffers);
    }
    if get(arena, 0, LEVEL) != 8 {
        return Err(Check::LazyList);
    }
    lay_out(arena, items)
}
