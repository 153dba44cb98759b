//! Places of a board that give, or refuse.

use spf_board::{BoardPlaces, Pass, PlaceFault, Places};
use spiffe::X509;

/// Gives passes the places that they have, or none.
#[derive(Drop)]
pub struct EitherPlaces {
    is_refusing: bool,
    places: BoardPlaces,
}

impl EitherPlaces {
    pub fn giving() -> EitherPlaces {
        EitherPlaces {
            is_refusing: false,
            places: BoardPlaces::new(),
        }
    }

    pub fn refusing() -> EitherPlaces {
        EitherPlaces {
            is_refusing: true,
            places: BoardPlaces::new(),
        }
    }
}

impl Places<X509> for EitherPlaces {
    ghost refusals = { λ p. p.places };

    fn take(&mut self, giver: &mut Pass<X509>) -> Result<Pass<X509>, PlaceFault> {
        if self.is_refusing {
            Err(self.places.refuse())
        } else {
            self.places.take(giver)
        }
    }
}
