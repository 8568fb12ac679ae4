ghost use Rattle.std.specs.Prelude.{◌≡◌};
ghost use Rattle.core_seats.specs.Starts.{record_at};

use entity_recs::Rec;

/// The first of the records with this id, if there is one.
pub fn find_record(start: &[Rec], id: u16) -> Option<Rec>
    ensures { result ≡ record_at start.now id }
{
    for r in start {
        if r.id == id {
            return Some(*r);
        }
    }
    None
}
