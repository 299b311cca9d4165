//! A list of places.

ghost use Rattle.std.specs.Prelude.{◌≡◌};

use pipe_columns::Place;
use std::marker::Model;

/// Places in order. Contracts see it as the list of them.
#[derive(Debug, Drop)]
pub struct Places {
    places: Vec<Place>,
}

impl Model for Places {
    ghost use Rattle.std.specs.Prelude.{List};
    ghost use Rattle.pipe_columns.specs.declared.place.Place.{Place};

    ghost Value = { List Place };

    ghost view = { λ a. a.places.items };
}

impl Places {
    /// The list of these places. It takes no memory.
    pub fn new(items: Vec<Place>) -> Places
        ensures { result ≡ items.items }
    {
        Places { places: items }
    }

    /// The places, lent. It takes no memory.
    pub fn as_slice(&self) -> &[Place]
        ensures { result.now ≡ self.now }
    {
        &self.places
    }

    /// Gives the places back. It takes no memory.
    pub fn into_vec(self) -> Vec<Place>
        ensures { result.items ≡ self }
    {
        self.places
    }
}
