// A map, and what an opening or a change of the radius answers at the border.
ghost use Rattle.std.specs.Prelude.{◌≡◌};
ghost use Rattle.held.specs.Holds.{no_map};

use limits::refusal::Refusal;

// A map, whose cells, points and pairs are in lent tables.
#[repr(C)]
#[derive(Clone, Copy)]
pub struct Map {
    pub size: f64,
    pub radius: f64,
    pub cells: usize,
    pub points: usize,
}

impl Map {
    // All zero: what C gets of a refused call.
    pub fn none() -> Map
        ensures { result ≡ no_map }
    {
        Map {
            size: 0.0,
            radius: 0.0,
            cells: 0,
            points: 0,
        }
    }
}

// As C has it: 0 and a map; or the refusal's number, and a map that is all zero.
#[repr(C)]
#[derive(Clone, Copy)]
pub struct Outcome {
    pub refusal: u8,
    pub map: Map,
}

impl From<Result<Map, Refusal>> for Outcome {
    ghost use Rattle.held.specs.Told.{told};

    ghost from_gives = { λ r o. o ≡ told r };

    fn from(answer: Result<Map, Refusal>) -> Outcome {
        match answer {
            Ok(map) => Outcome { refusal: 0, map },
            Err(refusal) => Outcome {
                refusal: refusal.number(),
                map: Map::none(),
            },
        }
    }
}
