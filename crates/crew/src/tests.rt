use crate::{Crew, Task, play_with};
use std::alloc::{AllocError, Global};
use std::sync::Wait;
use std::test::*;
use std::thread::Threads;

/// How often it was run.
#[derive(Drop)]
struct Tally {
    runs: u32,
}

impl Task for Tally {
    ghost use Rattle.std.specs.Prelude.{◌≡◌, ◌+◌, ◌%◌, ◌^◌, ⊤};

    ghost may_run = { λ t. ⊤ };

    ghost changes = { λ t u. u.runs ≡ (t.runs + 1) % 2 ^ 32 };

    fn run<R: Wait>(&mut self, _rt: &R) {
        self.runs = self.runs.wrapping_add(1);
    }
}

fn tallies(alloc: Global, count: usize) -> Result<Vec<Tally>, AllocError> {
    let mut tallies = Vec::with_capacity(alloc, count)?;
    for _ in 0..count {
        tallies.push(Tally { runs: 0 })?;
    }
    Ok(tallies)
}

/// Runs each item in each of so many rounds, by a crew with so many helpers.
fn play<R: Threads + Wait + Sync>(
    rt: &R,
    alloc: Global,
    helpers: usize,
    items: &mut [Tally],
    rounds: u32,
) -> Result<(), AllocError> {
    let (mut crew, helpers) = Crew::new(alloc, tallies(alloc, helpers)?)?;
    play_with(
        rt,
        helpers,
        &mut || run_rounds(rt, &mut crew, items, rounds),
    );
    Ok(())
}

fn run_rounds<R: Wait>(rt: &R, crew: &mut Crew<Tally>, items: &mut [Tally], rounds: u32) {
    for _ in 0..rounds {
        crew.run_each(rt, items);
    }
    crew.stop();
}

#[test]
fn three_helpers_change_each_item_once_a_round(rt: HostRuntime) -> Result<(), Fail> {
    let mut items = tallies(rt.alloc(), 16)?;
    play(&rt, rt.alloc(), 3, items.as_mut_slice(), 100)?;
    for item in &items {
        assert_eq!(rt; item.runs, 100);
    }
    Ok(())
}

#[test]
fn crew_of_one_changes_each_item(rt: HostRuntime) -> Result<(), Fail> {
    let mut items = tallies(rt.alloc(), 3)?;
    play(&rt, rt.alloc(), 0, items.as_mut_slice(), 5)?;
    for item in &items {
        assert_eq!(rt; item.runs, 5);
    }
    Ok(())
}
