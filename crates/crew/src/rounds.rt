ghost use Rattle.std.specs.Prelude.{◌≡◌, ◌≤◌, [], All, length, IfOk};
ghost use Rattle.crew.specs.Plays.{IsFree, IsRested};
ghost use Rattle.crew.specs.Rounds.{AreChanges, ChangesEach};

use crate::desk::Desk;
use crate::helper::{Helper, Helpers};
use crate::post::Post;
use crate::task::Task;
use std::alloc::{AllocError, Global};
use std::marker::Model;
use std::sync::{Arc, Wait};

/// The leader of a crew. Between two rounds none of its helpers has an item. Dropping it sends the helpers away.
pub struct Crew<T: Task> {
    desks: Vec<Desk<T>>,
    ghost rested: { All (λ d. IsRested d.seat.me) desks.items },
}

// Clauses see how many helpers it has.
impl<T: Task> Model for Crew<T> {
    ghost use Rattle.std.specs.Prelude.{ℕ, length};

    ghost Value = { ℕ };

    ghost view = { λ c. length c.desks.items };
}

impl<T: Task> Crew<T> {
    ghost use Rattle.std.specs.Prelude.{◌≡◌, ◌+◌, length, IfOk};

    /// A crew with a helper for each of these spare items, which lies where the helper's item would, while it has none.
    /// The only error is that memory is refused.
    pub fn new(alloc: Global, spares: Vec<T>) -> Result<(Crew<T>, Helpers<T>), AllocError>
        ensures crew { IfOk result (λ r. r.0 ≡ length spares.items) }
        ensures helpers { IfOk result (λ r. r.1 ≡ length spares.items) }
    {
        let mut helpers = Vec::with_capacity(alloc, spares.len())?;
        let mut crew = Crew::alone(alloc);
        for spare in spares {
            helpers.push(crew.add_helper(alloc, spare)?)?;
        }
        Ok((crew, Helpers { helpers }))
    }

    /// A crew without helpers. It takes no memory.
    pub fn alone(alloc: Global) -> Crew<T>
        ensures { result ≡ 0 }
    {
        Crew {
            desks: Vec::new(alloc),
        }
    }

    fn add_helper(&mut self, alloc: Global, spare: T) -> Result<Helper<T>, AllocError>
        ensures { IfOk result (λ _. self.new ≡ self.old + 1) }
    {
        self.desks.reserve(1)?;
        let (desk, helper) = sides(alloc, spare)?;
        self.desks.push_reserved(desk);
        Ok(helper)
    }
}

/// The two sides of a new post.
#[tactic(auto, using(crate::proofs::Handing::rested_from_free))]
fn sides<T: Task>(alloc: Global, spare: T) -> Result<(Desk<T>, Helper<T>), AllocError>
    ensures { IfOk result (λ r. IsRested r.0.seat.me) }
{
    let (post, leader, helper) = Post::new(alloc, spare)?;
    let post = Arc::new(alloc, post)?;
    let desk = Desk {
        post: Arc::try_clone(&post)?,
        seat: leader,
    };
    let helper = Helper { post, seat: helper };
    Ok((desk, helper))
}

impl<T: Task> Crew<T> {
    /// Runs each item once: in each turn one in this thread, and one by each helper that begins it before this thread
    /// has come to it.
    pub fn run_each<R: Wait>(&mut self, rt: &R, items: &mut [T])
        requires { All T.may_run items.old }
        ensures helpers { self.new ≡ self.old }
        ensures changed { ChangesEach T.changes items.old items.new }
    {
        run_turns(rt, self.desks.as_mut_slice(), items);
    }

    /// Sends the helpers away. Later rounds run without them.
    pub fn stop(&mut self)
        ensures { self.new ≡ 0 }
    {
        stop_all(&mut self.desks);
    }
}

impl<T: Task> Drop for Crew<T> {
    fn drop(self) {
        let Crew { mut desks } = self;
        stop_all(&mut desks);
        desks.destroy_empty();
    }
}

/// Ends the turns at each of these desks.
fn stop_all<T: Task>(desks: &mut Vec<Desk<T>>)
    requires { All (λ d. IsRested d.seat.me) desks.old.items }
    ensures { desks.new.items ≡ [] }
{
    while let Some(desk) = desks.pop() {
        desk.stop();
    }
}

/// Runs each item once, with as many helpers as there are desks.
fn run_turns<T: Task, R: Wait>(rt: &R, desks: &mut [Desk<T>], items: &mut [T])
    requires free { All (λ d. IsFree d.seat.me) desks.old }
    requires may { All T.may_run items.old }
    ensures free { All (λ d. IsFree d.seat.me) desks.new }
    ensures changed { AreChanges T.changes items.old items.new }
{
    let Some((own, others)) = items.split_first_mut() else {
        return;
    };
    let (lent, later) = others.split_at_mut(desks.len().min(others.len()));
    run_turn(rt, desks, lent, own);
    run_turns(rt, desks, later);
}

/// Runs each of these items once: this one here, and the lent ones at the first desks.
fn run_turn<T: Task, R: Wait>(rt: &R, desks: &mut [Desk<T>], lent: &mut [T], own: &mut T)
    requires free { All (λ d. IsFree d.seat.me) desks.old }
    requires may { All T.may_run lent.old × T.may_run own.old }
    requires enough { length lent.old ≤ length desks.old }
    ensures free { All (λ d. IsFree d.seat.me) desks.new }
    ensures lent { AreChanges T.changes lent.old lent.new }
    ensures own { T.changes own.old own.new }
{
    let Some((item, lent)) = lent.split_first_mut() else {
        own.run(rt);
        return;
    };
    let Some((desk, desks)) = desks.split_first_mut() else {
        unreachable!();
    };
    desk.offer(item);
    run_turn(rt, desks, lent, own);
    desk.take_back(rt, item);
}
