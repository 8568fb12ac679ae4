ghost use Rattle.std.specs.Prelude.{◌≡◌};
ghost use denote.Param.Send.{IsSend, IsSync};
ghost use Rattle.std.specs.Arc.{arc_value};
ghost use Rattle.crew.specs.Plays.{IsIdle};

use crate::post::{Post, Seat};
use crate::steps::{begin, end, work};
use crate::task::Task;
use std::alloc::Global;
use std::marker::Model;
use std::sync::{Arc, Wait};
use std::thread;
use std::thread::Threads;

/// The helper's side of a post.
#[derive(Drop)]
pub struct Helper<T: Task> {
    pub post: Arc<Post<T>, Global>,
    pub seat: Seat<T>,
    ghost at_post: { seat.table_id ≡ (arc_value post).table.shared.table_id },
    ghost idle: { IsIdle seat.me },
}

/// The helpers of a crew, before they help.
#[derive(Drop)]
pub struct Helpers<T: Task> {
    pub(crate) helpers: Vec<Helper<T>>,
}

// Clauses see how many they are.
impl<T: Task> Model for Helpers<T> {
    ghost use Rattle.std.specs.Prelude.{ℕ, length};

    ghost Value = { ℕ };

    ghost view = { λ h. length h.helpers.items };
}

impl<T: Task> Helpers<T> {
    ghost use Rattle.std.specs.Prelude.{◌≡◌, ◌==◌};

    /// No helper. It takes no memory.
    pub fn none(alloc: Global) -> Helpers<T>
        ensures { result ≡ 0 }
    {
        Helpers {
            helpers: Vec::new(alloc),
        }
    }

    /// Whether there is none.
    pub fn is_empty(&self) -> bool
        ensures { result ≡ (self.now == 0) }
    {
        self.helpers.is_empty()
    }
}

impl<T: Task + Send> Helpers<T> {
    /// Helps in a thread for each helper, and returns when all are done.
    pub(crate) fn help<R: Threads + Wait + Sync>(self, rt: &R) {
        let Helpers { mut helpers } = self;
        let Some(helper) = helpers.pop() else {
            return;
        };
        if helpers.is_empty() {
            helper.help(rt);
            return;
        }
        let rest = Helpers { helpers };
        let one = move ||
            requires { IsSync R.row }
        { helper.help(rt) };
        let others = move ||
            requires { IsSync R.row × IsSend T.row }
        { rest.help(rt) };
        thread::join(rt, one, others);
    }
}

impl<T: Task> Helper<T> {
    /// Runs each item that is handed over, until there are no more turns.
    fn help<R: Wait>(mut self, rt: &R) {
        for _ in rt.forever() {
            if !self.post.wait_for_offer(rt) {
                return;
            }
            self.run(rt);
        }
        unreachable!()
    }

    /// Runs the item that was handed over, if the leader hasn't taken it back.
    fn run<R: Wait>(&mut self, rt: &R) {
        if begin(&self.post, &mut self.seat) {
            work(rt, &self.post, &mut self.seat);
            end(&self.post, &mut self.seat);
        }
    }
}
