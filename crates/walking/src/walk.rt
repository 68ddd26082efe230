// The walk of a catalogue: once over a list of outer sizes, tallest first, for heights that fall.
ghost use Rattle.std.specs.Prelude.{ℕ, ◌+◌, ◌*◌, ◌≤◌, ◌<◌, length, get_or};
ghost use Rattle.walking.specs.inside.Walking.{most_looks, Closed, ClosedOver, Passed, Walkable, WalkedOver};

// The item that is reached, and the looks of the walk so far.
#[derive(Clone, Copy)]
struct Stop {
    pub item: usize,
    pub looks: usize,
}

// Gives the item after the last the height 0. No height is less, so that every search ends there at the latest.
fn close(list: &mut [u32], items: usize)
    requires { 2 * items + 1 < length list.old }
    ensures { ClosedOver list.old items list.new }
{
    list[2 * items] = 0;
}

// Passes the items from a place on that are taller than a height, with a look at each, and counts on from the looks before.
// The height 0 after the last item ends it, so that no turn asks for the list's end, as a `for` would.
fn pass_taller(list: &[u32], from: usize, height: u32, before: usize) -> Stop
    requires { ((items : ℕ) × (from ≤ items) × Closed list.now items) × (before ≤ most_looks) }
    ensures { Passed list.now from height before result.item result.looks × (get_or list.now (2 * result.item) 0 ≤ height) }
{
    let mut item = from;
    let mut looks = before;
    while height < list[2 * item] {
        item += 1;
        looks += 1;
    }
    Stop { item, looks }
}

// Writes the width for each height from the output's start, and answers how many looks it took. A height begins at the item
// where the last one stopped. Once the list has run out, later heights take no look, and their width is 0.
pub fn walk(list: &mut [u32], items: usize, heights: &[u32], output: &mut [u32]) -> usize
    requires { Walkable list.old items heights.now output.old }
    ensures { WalkedOver list.old items heights.now output.old output.new result }
{
    close(list, items);
    let mut item = 0;
    let mut looks = 0;
    for (i, height) in heights.iter().enumerate() {
        let stop = pass_taller(list, item, *height, looks);
        item = stop.item;
        if item == items {
            output[i..heights.len()].fill(0);
            return stop.looks;
        }
        looks = stop.looks + 1;
        output[i] = list[2 * item + 1];
    }
    looks
}
