ghost use Rattle.std.specs.Prelude.{◌≡◌, [], IfOk};
ghost use Rattle.crew.specs.Views.{alone};
ghost use Rattle.crew.specs.Plays.{IsFree, IsIdle};

use crate::task::Task;
use crate::turns::{Hires, Opens, Turns};
use crate::view::View;
use atomic_table::{Refused, Shared, Table};
use std::alloc::{AllocError, Global};
use std::hint::spin_loop;
use std::sync::Wait;
use std::sync::atomic::{AtomicBool, Ordering};

/// The leader has nothing handed over.
pub const FREE: u64 = 0;

/// An item lies in the slot for the helper.
pub const OFFERED: u64 = 1;

/// The helper has taken it.
pub const BEGUN: u64 = 2;

/// The changed item lies in the slot for the leader.
pub const DONE: u64 = 3;

/// There are no more turns.
pub const STOPPED: u64 = 4;

/// How often an idle helper looks before it sleeps.
const LOOKS: u32 = 2000;

/// A seat at a post.
pub type Seat<T> = atomic_table::Seat<T, View<T>>;

/// Where a leader and a helper hand an item to each other.
#[derive(Drop)]
pub struct Post<T: Task> {
    pub table: Table<T, View<T>, (), Turns, Global>,
    is_asleep: AtomicBool,
    ghost one_word: { table.shared.table_id.words ≡ 1 },
    ghost one_slot: { table.shared.table_id.slots ≡ 1 },
}

impl<T: Task> Post<T> {
    /// A post, with this in its slot for the time that nothing is handed over, and the seats of its leader and its helper.
    pub fn new(alloc: Global, spare: T) -> Result<(Post<T>, Seat<T>, Seat<T>), AllocError>
        ensures leader { IfOk result (λ r. (r.1.table_id ≡ r.0.table.shared.table_id) × IsFree r.1.me) }
        ensures helper { IfOk result (λ r. (r.2.table_id ≡ r.0.table.shared.table_id) × IsIdle r.2.me) }
    {
        let mut slots = Vec::with_capacity(alloc, 1)?;
        slots.push_reserved(spare);
        match Table::new(alloc, &[FREE], slots, &()) {
            Ok((table, seat)) => Ok(Post::open(table, seat)),
            Err(Refused { slots: _ }) => Err(AllocError),
        }
    }
}

impl<T: Task> Post<T> {
    fn open(
        table: Table<T, View<T>, (), Turns, Global>,
        mut leader: Seat<T>,
    ) -> (Post<T>, Seat<T>, Seat<T>)
        requires table { leader.table_id ≡ table.shared.table_id }
        requires words { table.shared.table_id.words ≡ 1 }
        requires slots { table.shared.table_id.slots ≡ 1 }
        requires alone { leader.me ≡ (alone, []) }
        ensures leader { (result.1.table_id ≡ result.0.table.shared.table_id) × IsFree result.1.me }
        ensures helper { (result.2.table_id ≡ result.0.table.shared.table_id) × IsIdle result.2.me }
    {
        let helper = table.shared.split_seat::<Hires>(&mut leader);
        table.shared.store::<Opens>(&mut leader, 0, FREE);
        let post = Post {
            table,
            is_asleep: AtomicBool::new(false),
        };
        (post, leader, helper)
    }

    /// The word as it is now, which another thread may change.
    pub fn look(&self) -> u64 {
        self.table.shared.peek(0)
    }

    /// Wakes the helper, if it sleeps.
    pub fn wake(&self) {
        if self.is_asleep.load(Ordering::SeqCst) {
            self.table.shared.wake_all(0);
        }
    }

    /// Waits until an item is handed over, or there are no more turns, and gives which: true for an item.
    pub fn wait_for_offer<R: Wait>(&self, rt: &R) -> bool {
        let mut looks = 0;
        for _ in rt.forever() {
            let word = self.look();
            if word == OFFERED {
                return true;
            }
            if word == STOPPED {
                return false;
            }
            if looks < LOOKS {
                looks += 1;
                spin_loop();
            } else if let Ok(word) = u32::try_from(word) {
                self.sleep(rt, word);
            }
        }
        unreachable!()
    }

    /// Sleeps while the word is this, for as long as it likes.
    fn sleep<R: Wait>(&self, rt: &R, word: u32) {
        self.is_asleep.store(true, Ordering::SeqCst);
        self.table.shared.park(rt, 0, word);
        self.is_asleep.store(false, Ordering::SeqCst);
    }
}
