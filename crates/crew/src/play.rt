use crate::helper::Helpers;
use crate::task::Task;
use std::sync::Wait;
use std::thread;
use std::thread::Threads;

/// Calls the closure while the helpers help, each in a thread of its own where one can be made, and returns once they
/// have ended too. They end when their crew is stopped or dropped, which the closure sees to. With no helper it starts
/// no thread.
pub fn play_with<R: Threads + Wait + Sync, T: Task + Send, A, F: FnMut() -> A>(
    rt: &R,
    helpers: Helpers<T>,
    play: &mut F,
) -> A
    requires { F.pre play.old }
    ensures { F.step play.old result play.new }
{
    if helpers.is_empty() {
        return play();
    }
    let mut waiting = Some(helpers);
    let mut help = || {
        if let Some(helpers) = waiting.take() {
            helpers.help(rt);
        }
    };
    let (_, played) = thread::join_mut(rt, &mut help, play);
    played
}
