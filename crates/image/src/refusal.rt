// What a save or a restore is refused by, and the number that a host gets back for it (document 02, P2).
ghost use Rattle.std.specs.Prelude.{◌≡◌};
ghost use Rattle.image.specs.Refusals.{number};

#[derive(Clone, Copy)]
pub enum Refusal {
    // A state with no unit, or with more than six.
    Count = 1,
    // The image's length.
    Length = 8,
    // A block's check.
    Check = 9,
    // Its fields, and the rules across blocks.
    Fields = 10,
}

impl Refusal {
    // By name, and no `From`, as chip's.
    pub fn number(self) -> u8
        ensures { result ≡ number self }
    {
        self as u8
    }
}
