// A set of three has the roles fill, next, held, always a permutation.
ghost use Rattle.std.specs.Prelude.{◌≡◌};
ghost use Rattle.buffers.specs.Roles.{fill_of, next_of, held_of};
ghost use Rattle.buffers.specs.Triple.{initial, published, taken, handed_over, brought, shown, dropped};
ghost use Rattle.buffers.specs.Number.{number_of, places_of, numbered};

// One value holding its roles: the places of fill, next and held in this order, and whether next is new.
// Not one Set<N> with Quad: document 01 names the [u8; 3], and each method that the two share would ask that N be 3 or more.
#[derive(Clone, Copy, PartialEq, Eq, Debug)]
pub struct Triple {
    pub place: [u8; 3],
    pub fresh: bool,
}

impl Triple {
    // Each role at its own place, nothing new.
    pub fn new() -> Self
        ensures { result ≡ initial }
    {
        Self {
            place: [0, 1, 2],
            fresh: false,
        }
    }

    // The place of the buffer that is filled.
    pub fn fill(self) -> u8
        ensures { result ≡ fill_of self.place }
    {
        self.place[0]
    }

    // The place of the buffer that comes next.
    pub fn next(self) -> u8
        ensures { result ≡ next_of self.place }
    {
        self.place[1]
    }

    // The place of the buffer that is held.
    pub fn held(self) -> u8
        ensures { result ≡ held_of self.place }
    {
        self.place[2]
    }

    // Fill and next change places, and next is new.
    pub fn publish(mut self) -> Self
        ensures { result ≡ published self }
    {
        self.place.swap(0, 1);
        self.fresh = true;
        self
    }

    // Next and held change places, and nothing is new.
    pub fn take(mut self) -> Self
        ensures { result ≡ taken self }
    {
        self.place.swap(1, 2);
        self.fresh = false;
        self
    }

    // Held and next change places, and next is new.
    pub fn hand_over(mut self) -> Self
        ensures { result ≡ handed_over self }
    {
        self.place.swap(1, 2);
        self.fresh = true;
        self
    }

    // Fill and next change places, and nothing is new: new inputs come to the buffer that is sent from.
    pub fn bring(mut self) -> Self
        ensures { result ≡ brought self }
    {
        self.place.swap(0, 1);
        self.fresh = false;
        self
    }

    // Fill and held change places: a received set is shown because none is open.
    pub fn show(mut self) -> Self
        ensures { result ≡ shown self }
    {
        self.place.swap(0, 2);
        self
    }

    // Nothing is new any more, and no role moves.
    pub fn drop(mut self) -> Self
        ensures { result ≡ dropped self }
    {
        self.fresh = false;
        self
    }

    // The roles as one number, 0 to 5.
    pub fn number(self) -> u8
        ensures { result ≡ number_of self.place }
    {
        let later = self.place[2] < self.place[1];
        2 * (self.place[0] % 3) + u8::from(later)
    }

    // The set whose roles have that number.
    pub fn numbered(n: u8, fresh: bool) -> Self
        ensures { result ≡ numbered n fresh }
    {
        Self {
            place: places(n),
            fresh,
        }
    }
}

// The places of fill, next and held that have that number; past the last number those of the first.
// A match and no table: this is one load of a word, and a row of a table is one for each octet on Cortex-M0.
#[tactic(auto, unfolding(crate::specs::Number::places_of))]
fn places(n: u8) -> [u8; 3]
    ensures { result ≡ places_of n }
{
    match n {
        1 => [0, 2, 1],
        2 => [1, 0, 2],
        3 => [1, 2, 0],
        4 => [2, 0, 1],
        5 => [2, 1, 0],
        _ => [0, 1, 2],
    }
}
