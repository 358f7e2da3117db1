// 71: whether the order list is a permutation of the triangle numbers, and where not.
ghost use Rattle.std.specs.Prelude.{◌≡◌, ◌≤◌, length};
ghost use Rattle.lists.specs.Values as Verdicts;
ghost use Rattle.spec_lists.specs.Limits as Limits;
ghost use Rattle.spec_tree.specs.Order as Order;
ghost use Rattle.spec_tree.specs.Reasons as Reasons;

use lists::limits::MAX_TRIANGLES;
use lists::refusal::{Refusal, refused_if};

// So many marks are cleared for a list that is no longer: over a small drawing, clearing all would take longer than the check.
const FEW: usize = 256;

const SOME: usize = 4096;

// Marks each entry in `seen`, up to the first that is too large or marked already. Answers that one, the list's length where there is none.
fn mark_all(n: usize, order: &[u32], seen: &mut [bool]) -> usize
    requires { Order.Unmarked n seen.old }
    ensures { result ≡ Reasons.first_failing (Reasons.is_new n order.now) (length order.now) }
{
    for (i, entry) in order.iter().enumerate() {
        let k = *entry as usize;
        if k >= n {
            return i;
        }
        if seen[k] {
            return i;
        }
        seen[k] = true;
    }
    order.len()
}

// The same by fresh marks, of which each triangle has one.
fn bad_entry_by<const MARKS: usize>(n: usize, order: &[u32]) -> usize
    requires marks { MARKS ≤ Limits.max_triangles }
    requires enough { n ≤ MARKS }
    ensures { result ≡ Reasons.first_failing (Reasons.is_new n order.now) (length order.now) }
{
    mark_all(n, order, &mut [false; MARKS])
}

// The first entry that is no triangle's number or stands there a second time, the list's length where there is none.
fn first_bad_entry(n: usize, order: &[u32]) -> usize
    requires { n ≤ Limits.max_triangles }
    ensures { result ≡ Reasons.first_failing (Reasons.is_new n order.now) (length order.now) }
{
    if n <= FEW {
        return bad_entry_by::<FEW>(n, order);
    }
    if n <= SOME {
        return bad_entry_by::<SOME>(n, order);
    }
    bad_entry_by::<MAX_TRIANGLES>(n, order)
}

// 71: at the first entry that is out of range or repeated; else, where there are not n entries, at the smaller of the two numbers.
pub fn order_refusal(n: usize, order: &[u32]) -> Result<(), Refusal>
    requires { n ≤ Limits.max_triangles }
    ensures { Verdicts.as_verdict result ≡ Reasons.order_refusal n order.now }
{
    let place = first_bad_entry(n, order);
    refused_if(place < order.len(), Refusal::BadOrder(place))?;
    refused_if(order.len() != n, Refusal::BadOrder(order.len().min(n)))
}
