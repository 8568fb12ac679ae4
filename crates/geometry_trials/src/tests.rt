use arena_geo::{Aabb, Vec3};

mod boxes;
mod regions;
mod roots;
mod traces;
mod trees;
mod walls;

/// The corner with these coordinates.
fn corner(v: [i32; 3]) -> Vec3 {
    Vec3 {
        x: v[0],
        y: v[1],
        z: v[2],
    }
}

/// The box between two corners, the low one first.
fn box_of(b: [i32; 6]) -> Option<Aabb> {
    Aabb::new(corner([b[0], b[1], b[2]]), corner([b[3], b[4], b[5]]))
}
