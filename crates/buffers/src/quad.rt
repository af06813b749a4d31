// A set of four, the output set, has the roles fill, next, held, back, always a permutation.
ghost use Rattle.std.specs.Prelude.{◌≡◌};
ghost use Rattle.buffers.specs.Roles.{fill_of, next_of, held_of};
ghost use Rattle.buffers.specs.Quad.{initial, published, taken, held_back, released, renewed};
ghost use Rattle.buffers.specs.Number.{number_of4, places_of4, numbered4};

// One value holding its roles: the places of fill, next, held and back in this order, whether next is new, and whether back holds
// outputs that sync holds back.
// Not one Set<N> with Triple: the reason stands there.
#[derive(Clone, Copy, PartialEq, Eq, Debug)]
pub struct Quad {
    pub place: [u8; 4],
    pub fresh: bool,
    pub withheld: bool,
}

impl Quad {
    // Each role at its own place, nothing new, nothing held back.
    pub fn new() -> Self
        ensures { result ≡ initial }
    {
        Self {
            place: [0, 1, 2, 3],
            fresh: false,
            withheld: false,
        }
    }

    // The place of the buffer that is filled.
    pub fn fill(self) -> u8
        ensures { result ≡ fill_of self.place }
    {
        self.place[0]
    }

    // The place of the buffer that comes next.
    pub fn next(self) -> u8
        ensures { result ≡ next_of self.place }
    {
        self.place[1]
    }

    // The place of the buffer that is held.
    pub fn held(self) -> u8
        ensures { result ≡ held_of self.place }
    {
        self.place[2]
    }

    // Fill and next change places, and next is new.
    pub fn publish(mut self) -> Self
        ensures { result ≡ published self }
    {
        self.place.swap(0, 1);
        self.fresh = true;
        self
    }

    // Next and held change places, and nothing is new.
    pub fn take(mut self) -> Self
        ensures { result ≡ taken self }
    {
        self.place.swap(1, 2);
        self.fresh = false;
        self
    }

    // Fill and back change places, and back is held back: it replaces what was. Next stays as it is.
    pub fn hold_back(mut self) -> Self
        ensures { result ≡ held_back self }
    {
        self.place.swap(0, 3);
        self.withheld = true;
        self
    }

    // Next and back change places, next is new, and nothing is held back any more.
    pub fn release(mut self) -> Self
        ensures { result ≡ released self }
    {
        self.place.swap(1, 3);
        self.fresh = true;
        self.withheld = false;
        self
    }

    // Next is new where it lies, written in place, and nothing is held back any more.
    pub fn renew(mut self) -> Self
        ensures { result ≡ renewed self }
    {
        self.fresh = true;
        self.withheld = false;
        self
    }

    // The roles as one number, 0 to 23.
    pub fn number(self) -> u8
        ensures { result ≡ number_of4 self.place }
    {
        let behind = self.place[0] < self.place[1];
        let later = self.place[3] < self.place[2];
        6 * (self.place[0] % 4) + 2 * ((self.place[1] - u8::from(behind)) % 3) + u8::from(later)
    }

    // The set whose roles have that number.
    pub fn numbered(n: u8, fresh: bool, withheld: bool) -> Self
        ensures { result ≡ numbered4 n fresh withheld }
    {
        Self {
            place: places(n),
            fresh,
            withheld,
        }
    }
}

// The places of fill, next, held and back that have that number; past the last number those of the first.
// A match and no table: this is one load of a word, and a row of a table is one for each octet on Cortex-M0.
#[tactic(auto, unfolding(crate::specs::Number::places_of4))]
fn places(n: u8) -> [u8; 4]
    ensures { result ≡ places_of4 n }
{
    match n {
        1 => [0, 1, 3, 2],
        2 => [0, 2, 1, 3],
        3 => [0, 2, 3, 1],
        4 => [0, 3, 1, 2],
        5 => [0, 3, 2, 1],
        6 => [1, 0, 2, 3],
        7 => [1, 0, 3, 2],
        8 => [1, 2, 0, 3],
        9 => [1, 2, 3, 0],
        10 => [1, 3, 0, 2],
        11 => [1, 3, 2, 0],
        12 => [2, 0, 1, 3],
        13 => [2, 0, 3, 1],
        14 => [2, 1, 0, 3],
        15 => [2, 1, 3, 0],
        16 => [2, 3, 0, 1],
        17 => [2, 3, 1, 0],
        18 => [3, 0, 1, 2],
        19 => [3, 0, 2, 1],
        20 => [3, 1, 0, 2],
        21 => [3, 1, 2, 0],
        22 => [3, 2, 0, 1],
        23 => [3, 2, 1, 0],
        _ => [0, 1, 2, 3],
    }
}
