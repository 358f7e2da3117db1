// The leaf reader: a struct that lends a caller a leaf's slice of the order list, and functions over it.
// Plain functions do the work; `entry_of` takes a slice and numbers.
ghost use Rattle.std.specs.Prelude.{◌≡◌, ◌-◌, length};
ghost use Rattle.spec_tables.specs.Tables as Tables;
ghost use Rattle.spec_tree.specs.Leaves as Leaves;
ghost use Rattle.leaves.specs.Values as Values;

#[derive(Clone, Copy)]
pub struct Leaf<'a> {
    pub slice: &'a [u32],
}

// The order list from `first` up to `last`, the end not included, as far as the list goes.
pub fn slice_of(order: &[u32], first: usize, last: usize) -> &[u32]
    ensures { result.now ≡ Tables.slice order.now first (last - first) }
{
    let end = last.min(order.len());
    let start = first.min(end);
    &order[start..end]
}

// The triangle at a place of a leaf's slice, nothing past its end.
pub fn entry_at(slice: &[u32], i: usize) -> Option<u32>
    ensures { Values.as_entry result ≡ Leaves.entry_at slice.now i }
{
    if i < slice.len() {
        Some(slice[i])
    } else {
        None
    }
}

impl<'a> Leaf<'a> {
    // The reader of the leaf with the entries from `first` up to `last`, the end not included.
    pub fn of(order: &'a [u32], first: usize, last: usize) -> Leaf<'a>
        ensures { result.slice.now ≡ Tables.slice order.now first (last - first) }
    {
        Leaf {
            slice: slice_of(order, first, last),
        }
    }

    // How many triangles the leaf has.
    pub fn len(self) -> usize
        ensures { result ≡ length self.entry.slice.now }
    {
        self.slice.len()
    }

    // The i-th triangle of the leaf, counted from 0.
    pub fn entry(self, i: usize) -> Option<u32>
        ensures { Values.as_entry result ≡ Leaves.entry_at self.entry.slice.now i }
    {
        entry_at(self.slice, i)
    }
}

// The i-th triangle of the leaf with these entries, by way of its reader.
pub fn entry_of(order: &[u32], first: usize, last: usize, i: usize) -> Option<u32>
    ensures { Values.as_entry result ≡ Leaves.entry_at (Tables.slice order.now first (last - first)) i }
{
    Leaf::of(order, first, last).entry(i)
}
