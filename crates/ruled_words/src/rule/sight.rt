use std::marker::Model;

/// What a seat of the table has in view. No value of it is made.
#[derive(Drop)]
pub struct Sight(());

impl Model for Sight {
    ghost use Rattle.ruled_words.specs.Sights.{SightView, no_sight};

    ghost Value = { SightView };

    ghost view = { λ _. no_sight };
}
