// Items in a heap: the children of place k are at 2k + 1 and 2k + 2, and none ranks before its parent. The ranking is passed
// to each call, and never held beside the items.
ghost use Rattle.std.specs.Prelude.{◌≡◌, ◌-◌, ◌/◌, ◌<◌, length, take, slice_index_or};
ghost use Rattle.std.specs.List.Sorted.{IsPermutation};
ghost use Rattle.queue.specs.Order.{Heaped, Parted};
ghost use Rattle.queue.specs.Sifting.{Rising, Sinking, FirstChild};

use crate::ranking::Ranking;

// Lets the last item rise to where it does not rank before its parent.
#[tactic(auto, using(crate::proofs::Heaps::rise_rest))]
pub(crate) fn rise<T: Copy, R: Ranking<T>>(items: &mut [T], ranking: &R)
    requires { 0 < length items.old }
    ensures items { IsPermutation items.old items.new }
    ensures order { Rising (R.before ranking.now) items.old (length items.old - 1) → Heaped (R.before ranking.now) items.new }
{
    let mut at = items.len() - 1;
    // An iterator over the places to the top would be no plainer: each step exchanges items, and the last one ends it early.
    while at > 0 {
        let parent = (at - 1) / 2;
        if !ranks_before(items, ranking, at, parent) {
            return;
        }
        items.swap(parent, at);
        at = parent;
    }
}

// Takes the first item out. The last one takes its place and sinks there.
pub(crate) fn take_first<T: Copy, R: Ranking<T>>(items: &mut [T], ranking: &R) -> T
    requires { 0 < length items.old }
    ensures { Parted (R.before ranking.now) items.old result (take (length items.old - 1) items.new) }
{
    let first = items[0];
    let last = items.len() - 1;
    items.swap(0, last);
    sink(&mut items[..last], ranking);
    first
}

// Lets the first item sink to where no child ranks before it.
#[tactic(auto, using(crate::proofs::Heaps::sink_rest))]
fn sink<T: Copy, R: Ranking<T>>(items: &mut [T], ranking: &R)
    ensures items { IsPermutation items.old items.new }
    ensures order { Sinking (R.before ranking.now) items.old 0 → Heaped (R.before ranking.now) items.new }
{
    let mut at = 0;
    // Nor would one over the places down: which child is next is known once the one before was exchanged.
    while at < items.len() / 2 {
        let child = first_child(items, ranking, at);
        if !ranks_before(items, ranking, child, at) {
            return;
        }
        items.swap(at, child);
        at = child;
    }
}

// The child of a place that the other one does not rank before.
#[tactic(auto, using(crate::proofs::Heaps::left_child, crate::proofs::Heaps::right_child))]
fn first_child<T: Copy, R: Ranking<T>>(items: &[T], ranking: &R, at: usize) -> usize
    requires { at < length items.now / 2 }
    ensures { FirstChild (R.before ranking.now) items.now at result }
{
    let left = 2 * at + 1;
    let right = left + 1;
    if right < items.len() && ranks_before(items, ranking, right, left) {
        right
    } else {
        left
    }
}

fn ranks_before<T: Copy, R: Ranking<T>>(items: &[T], ranking: &R, a: usize, b: usize) -> bool
    requires { (a < length items.now) × (b < length items.now) }
    ensures { (d : T) → R.before ranking.now (slice_index_or items.now a d) (slice_index_or items.now b d) ≡ result }
{
    ranking.before(items[a], items[b])
}
