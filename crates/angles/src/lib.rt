// Square roots and arc tangents by whole numbers, solid angles, winding numbers. Each contract is an equation with a definition of `spec_angles`.
#![tactic(auto)]

pub mod arc_tangent;
pub mod root;
pub mod solid_angle;
pub mod winding;
