//! How many ports a reader has.

ghost use Rattle.std.specs.Prelude.{◌≡◌, ◌⊎◌};
ghost use Rattle.irig_vote.specs.Vote.{f_of, ports_in, redundancy_of};

/// How many ports a reader has: in a plant one for each generator, three or five; a reader alone may
/// have one.
#[derive(Clone, Copy, PartialEq, Eq)]
pub enum Redundancy {
    /// One, which may not be untrue.
    One,
    /// Three, of which one may be untrue.
    Three,
    /// Five, of which two may be untrue.
    Five,
}

impl Redundancy {
    /// The redundancy of so many generators, three or five.
    pub fn of_ports(ports: usize) -> Redundancy
        requires { (ports ≡ 3) ⊎ (ports ≡ 5) }
        ensures value { result ≡ redundancy_of ports }
        ensures ports { ports ≡ ports_in result }
    {
        match ports {
            3 => Redundancy::Three,
            _ => Redundancy::Five,
        }
    }

    /// The number of ports: 1, 3 or 5.
    pub fn ports(&self) -> u8
        ensures { result ≡ ports_in self.now }
    {
        match self {
            Redundancy::One => 1,
            Redundancy::Three => 3,
            Redundancy::Five => 5,
        }
    }

    /// How many of them may be untrue: 0, 1 or 2.
    pub fn f(&self) -> u8
        ensures { result ≡ f_of self.now }
    {
        match self {
            Redundancy::One => 0,
            Redundancy::Three => 1,
            Redundancy::Five => 2,
        }
    }
}
