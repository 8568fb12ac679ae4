use arrayvec::ArrayVec;
use std::marker::Model;

/// How many waypoints there are at most: as many as a map has spawns.
pub const MOST_WAYPOINTS: usize = 64;

/// A list of at most [`MOST_WAYPOINTS`] lengths, one for each waypoint, which lie in the value itself and take no memory.
#[derive(Debug, Drop)]
pub struct LeastList {
    lengths: ArrayVec<Option<u32>, MOST_WAYPOINTS>,
}

impl Model for LeastList {
    ghost use Rattle.std.specs.Prelude.{ℕ, List, Option};

    ghost Value = { List (Option ℕ) };

    ghost view = { λ l. l.lengths.items };
}

impl LeastList {
    ghost use Rattle.std.specs.Prelude.{◌≡◌, ◌<◌, ◌≤◌, ◌↔◌, [], ◌∷◌, ◌++◌, length, replicate, slice_set, IsTrue};
    ghost use Rattle.std.specs.Prelude.{None};
    ghost use Rattle.std.specs.Bool.{OnTrue, OnFalse};
    ghost use Rattle.bot_ways.specs.Walks.{length_to};

    /// No lengths.
    pub fn new() -> Self
        ensures { result ≡ [] }
    {
        LeastList {
            lengths: ArrayVec::new(),
        }
    }

    /// Lengths for so many waypoints, each none.
    pub(crate) fn unreached(count: usize) -> Self
        requires { count ≤ MOST_WAYPOINTS }
        ensures { result ≡ replicate count None }
    {
        let mut lengths = ArrayVec::new();
        for _ in 0..count {
            lengths.push(None);
        }
        LeastList { lengths }
    }

    /// The lengths in order.
    pub fn as_slice(&self) -> &[Option<u32>]
        ensures value { result.now ≡ self.now }
        ensures bound { length result.now ≤ 64 }
    {
        self.lengths.as_slice()
    }

    /// Puts a length last. `false` exactly where there are [`MOST_WAYPOINTS`] already; the list is then unchanged.
    pub fn push(&mut self, least: Option<u32>) -> bool
        ensures room { IsTrue result ↔ (length self.old < 64) }
        ensures pushed { OnTrue result (self.new ≡ self.old ++ least ∷ []) }
        ensures unchanged { OnFalse result (self.new ≡ self.old) }
    {
        self.lengths.try_push(least).is_ok()
    }

    /// The length for a waypoint. `None` where it has none, or there is no such waypoint.
    pub(crate) fn length_to(&self, waypoint: usize) -> Option<u32>
        ensures value { result ≡ length_to self.now waypoint }
        ensures bound { length self.now ≤ 64 }
    {
        self.as_slice().get(waypoint).copied().flatten()
    }

    /// Sets the length for a waypoint.
    pub(crate) fn set(&mut self, waypoint: usize, least: Option<u32>)
        requires { waypoint < length self.old }
        ensures { self.new ≡ slice_set self.old waypoint least }
    {
        self.lengths[waypoint] = least;
    }
}

/// A list of at most [`MOST_WAYPOINTS`] numbers of waypoints, which lie in the value itself and take no memory.
#[derive(Debug, Drop)]
pub struct WayList {
    waypoints: ArrayVec<u8, MOST_WAYPOINTS>,
}

impl Model for WayList {
    ghost use Rattle.std.specs.Prelude.{ℕ, List};

    ghost Value = { List ℕ };

    ghost view = { λ l. l.waypoints.items };
}

impl WayList {
    ghost use Rattle.std.specs.Prelude.{◌≡◌, ◌<◌, ◌≤◌, ◌↔◌, [], ◌∷◌, ◌++◌, length, IsTrue};
    ghost use Rattle.std.specs.Bool.{OnTrue, OnFalse};

    /// No waypoints.
    pub fn new() -> Self
        ensures { result ≡ [] }
    {
        WayList {
            waypoints: ArrayVec::new(),
        }
    }

    /// The waypoints in order.
    pub fn as_slice(&self) -> &[u8]
        ensures value { result.now ≡ self.now }
        ensures bound { length result.now ≤ 64 }
    {
        self.waypoints.as_slice()
    }

    /// Puts a waypoint last. `false` exactly where there are [`MOST_WAYPOINTS`] already; the list is then unchanged.
    pub fn push(&mut self, waypoint: u8) -> bool
        ensures room { IsTrue result ↔ (length self.old < 64) }
        ensures pushed { OnTrue result (self.new ≡ self.old ++ waypoint ∷ []) }
        ensures unchanged { OnFalse result (self.new ≡ self.old) }
    {
        self.waypoints.try_push(waypoint).is_ok()
    }

    /// Puts a waypoint first.
    pub(crate) fn push_first(&mut self, waypoint: u8)
        requires { length self.old < 64 }
        ensures { self.new ≡ waypoint ∷ self.old }
    {
        self.waypoints.insert(0, waypoint);
    }
}
