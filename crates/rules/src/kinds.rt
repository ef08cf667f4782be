// Place numbers, session numbers and proposition numbers are kinds that can't be mixed.
ghost use Rattle.std.specs.Prelude.{◌≡◌, min};
ghost use Rattle.rules.specs.Kinds.{most_number};

#[derive(Clone, Copy)]
pub struct Place(pub u16);

#[derive(Clone, Copy)]
pub struct Session(pub u8);

#[derive(Clone, Copy)]
pub struct Proposition(pub u8);

impl Proposition {
    // The number in a left field. One that no proposition can have is the largest.
    pub fn from_left(left: Place) -> Proposition
        ensures { result.0 ≡ min left.0 most_number }
    {
        if left.0 < 255 {
            Proposition(left.0 as u8)
        } else {
            Proposition(255)
        }
    }

    // The left field of a proposition's node.
    pub fn to_left(self) -> Place
        ensures { result.0 ≡ self.0 }
    {
        Place(self.0 as u16)
    }
}
