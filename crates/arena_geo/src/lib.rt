//! Vectors, axis-aligned boxes and regions of boxes, in sub-units, and the root of a whole number.
#![tactic(auto)]

pub use aabb::{Aabb, FARTHEST, LIMIT};
pub use laws::{
    contained_is_touched, containment_is_all_points, hull_is_least, overlap_is_common_cube,
    overlap_is_touch, root_is_greatest, touch_is_common_point,
};
pub use region::{REGION_BOXES, Region};
pub use root::isqrt;
pub use vec3::Vec3;

mod aabb;
mod laws;
mod region;
mod root;
mod vec3;
