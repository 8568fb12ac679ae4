ghost use Rattle.std.specs.Prelude.{◌≡◌};

use crate::moment::Moment;
use entity_recs::Entry;

/// Who is called while moves run, by the thread that runs them: a test that holds a worker, for example.
pub trait Gate {
    /// The move is at this moment. It goes on once this returns.
    fn at(&self, moment: &Moment);

    /// Whether passes are offered to helpers, as many as there are passes but one, however few moves a frame has: so
    /// for a test that holds one. A pass that no helper has begun in time is run by the calling thread.
    fn needs_threads(&self) -> bool {
        false
    }
}

/// Calls the gate at this moment, and gives the moment's entry back, if it has one.
pub(crate) fn show_moment<G: Gate>(moment: Moment, gate: &G) -> Option<Entry>
    ensures { result ≡ moment.entry }
{
    gate.at(&moment);
    moment.into_entry()
}

/// A gate that does nothing.
#[derive(Clone, Copy, Debug, Default)]
pub struct NoGate;

impl Gate for NoGate {
    fn at(&self, moment: &Moment) {
        let _ = moment;
    }
}
