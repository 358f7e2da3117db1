// The tries to split a slice: it is sorted by the centres on an axis and handed to the rule, on one axis after the other.
ghost use Rattle.std.specs.Prelude.{◌≡◌};
ghost use Rattle.std.specs.Float.{binary32};
ghost use Rattle.shapes.specs.Values as Shapes;
ghost use Rattle.spec_sort.specs.Sort.{by_key, sorted};
ghost use Rattle.spec_splits.specs.Splits as Splits;
ghost use Rattle.splits.specs.Values as Rules;
ghost use Rattle.spec_build.specs.Tries as Tries;
ghost use Rattle.spec_build.specs.Growing.{keys_on, SortNeeds, RuleNeeds, Triable};

use crate::axes::axes_by_size;
use crate::tables::first_key;
use shapes::box3::Box3;
use shapes::vec3::Axis;
use sort::stable::sort_by_key;
use splits::area::area_split;
use splits::median::median_split;
use splits::strategy::Strategy;
use splits::table::union_of;

// What cuts slices, the same all the way down: the table of the triangles' boxes, that of their centres, the strategy,
// and up to how many triangles make a leaf.
// Kept: (a) the strategy by its number, since `GrownIs` says what is grown for any number; `rule` reads it.
#[derive(Clone, Copy)]
pub struct Cutter<'a> {
    pub bounds: &'a [f32],
    pub centres: &'a [f32],
    pub strategy: usize,
    pub leaf_minimum: usize,
}

impl Cutter<'_> {
    // Sorts the slice stably by the centres on the axis.
    fn sort_on(&self, axis: Axis, slice: &mut [u32], scratch: &mut [u32])
        requires { SortNeeds (Shapes.as_axis axis) self.now.centres.now slice.old scratch.old }
        ensures { slice.new ≡ sorted (by_key (keys_on (Shapes.as_axis axis) self.now.centres.now)) slice.old }
    {
        let rows = self.centres.len() / 3;
        let first = first_key(axis, rows);
        sort_by_key(&self.centres[first..first + rows], slice, scratch);
    }

    // Where the rule cuts the slice as it stands.
    fn rule(&self, axis: Axis, parent: Box3, slice: &[u32]) -> Option<usize>
        requires { RuleNeeds binary32 self.now.bounds.now slice.now }
        ensures { Rules.as_split result
            ≡ Tries.rule binary32 self.now.strategy (Shapes.as_axis axis) (Shapes.as_box parent) (Splits.boxes_in self.now.bounds.now slice.now) }
    {
        match Strategy::of_number(self.strategy) {
            Strategy::Median => median_split(self.bounds, slice, axis, parent),
            Strategy::Area => area_split(self.bounds, slice, axis, parent),
        }
    }

    // One try. Where it fails the slice stays as it was sorted.
    fn try_on(
        &self,
        axis: Axis,
        parent: Box3,
        slice: &mut [u32],
        scratch: &mut [u32],
    ) -> Option<usize>
        requires { Triable binary32 self.now.bounds.now self.now.centres.now slice.old scratch.old }
        ensures { Tries.split_as slice.new (Rules.as_split result)
            ≡ Tries.tried_on binary32 (Splits.box_in self.now.bounds.now) self.now.strategy (Shapes.as_axis axis) (Shapes.as_box parent) slice.old }
    {
        self.sort_on(axis, slice, scratch);
        self.rule(axis, parent, slice)
    }

    // Tries to split a slice whose boxes have this union, on the largest axis first.
    fn try_axes(&self, parent: Box3, slice: &mut [u32], scratch: &mut [u32]) -> Option<usize>
        requires { Triable binary32 self.now.bounds.now self.now.centres.now slice.old scratch.old }
        ensures { Tries.split_as slice.new (Rules.as_split result)
            ≡ Tries.tried_within binary32 (Splits.box_in self.now.bounds.now) self.now.strategy (Shapes.as_box parent) slice.old }
    {
        for axis in axes_by_size(parent.sizes()) {
            if let Some(cut) = self.try_on(axis, parent, slice, scratch) {
                return Some(cut);
            }
        }
        None
    }

    // Where the slice is cut. The slice is left as the last try sorted it.
    pub fn try_slice(&self, slice: &mut [u32], scratch: &mut [u32]) -> Option<usize>
        requires { Triable binary32 self.now.bounds.now self.now.centres.now slice.old scratch.old }
        ensures { Tries.split_as slice.new (Rules.as_split result)
            ≡ Tries.tried binary32 (Splits.box_in self.now.bounds.now) self.now.strategy slice.old }
    {
        let parent = union_of(self.bounds, slice);
        self.try_axes(parent, slice, scratch)
    }
}
