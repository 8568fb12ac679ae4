ghost use Rattle.std.specs.Prelude.{◌≡◌, ◌↔◌, IsTrue};
ghost use Rattle.arena_geo.specs.Vectors.{IsNear};

use arena_geo::Vec3;

mod items;
mod moves;
mod shots;
mod speeds;
mod ticks;
mod touches;

fn vec3(v: [i32; 3]) -> Vec3 {
    Vec3 {
        x: v[0],
        y: v[1],
        z: v[2],
    }
}

fn at(x: i32, y: i32, z: i32) -> Vec3
    ensures { result ≡ record { x = x; y = y; z = z } }
{
    Vec3 { x, y, z }
}

fn is_near(v: Vec3, far: u32) -> bool
    ensures { IsTrue result ↔ IsNear far v }
{
    v.x.unsigned_abs() <= far && v.y.unsigned_abs() <= far && v.z.unsigned_abs() <= far
}
