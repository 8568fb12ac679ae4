ghost use Rattle.std.specs.Prelude.{◌≡◌, IfOk};
ghost use Rattle.std.specs.Result.{ForErr};
ghost use Rattle.arena_map.specs.declared.map_fault.MapRefusal.TheVariants.{NoMemory};
ghost use Rattle.demo_make.specs.GeneratedMap as made;

use crate::map_lines::{MAP_LINES, map_line};
use arena_map::{ArenaMap, MapRefusal};
use std::alloc::{AllocError, Global};

/// What an answer of the map is where no rule is broken.
fn value_or_no_memory<T>(answer: Result<T, MapRefusal>) -> Result<T, AllocError>
    requires { ForErr answer (λ refusal. refusal ≡ NoMemory) }
    ensures { IfOk result (λ value. answer ≡ Ok value) }
{
    match answer {
        Ok(value) => Ok(value),
        Err(_) => Err(AllocError),
    }
}

/// The map of every generated recording, which the text of one gives too. The only error is that memory is refused.
pub fn generated_map(alloc: Global) -> Result<ArenaMap, AllocError>
    ensures { IfOk result (λ map. map ≡ made.generated_map) }
{
    let mut map = value_or_no_memory(ArenaMap::new(alloc, &map_line(0)))?;
    for index in 1..MAP_LINES {
        value_or_no_memory(map.add(&map_line(index)))?;
    }
    Ok(map)
}
