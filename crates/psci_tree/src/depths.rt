//! The depths of a power domain.

ghost use Rattle.std.specs.Prelude.{◌≡◌, ◌==◌, if◌then◌else◌};
ghost use Rattle.psci_tree.specs.DepthRows.{depth_of};

use psci_state::POWER_DOWN;

/// What a power domain was granted, and what of it is confirmed.
#[derive(Clone, Copy)]
pub struct Depths {
    /// The granted depth.
    pub granted: u8,
    /// The depth that is confirmed, 0 where none is.
    pub confirmed: u8,
}

/// One of the two depths of a power domain.
#[derive(Clone, Copy)]
pub enum Which {
    /// What it was granted.
    Granted,
    /// What of it is confirmed.
    Confirmed,
}

impl Depths {
    /// Nothing is granted, and nothing confirmed.
    pub const NONE: Depths = Depths {
        granted: 0,
        confirmed: 0,
    };

    /// Power-down is granted, which is confirmed.
    pub const DEEPEST: Depths = Depths {
        granted: POWER_DOWN,
        confirmed: POWER_DOWN,
    };

    /// This depth is granted from now on. Another one than before is not confirmed.
    pub fn grant(self, depth: u8) -> Depths
        ensures { result ≡ record {
          granted = depth;
          confirmed = if self.granted == depth then self.confirmed else 0;
        } }
    {
        let confirmed = if self.granted == depth {
            self.confirmed
        } else {
            0
        };
        Depths {
            granted: depth,
            confirmed,
        }
    }

    /// What is granted is confirmed from now on.
    pub fn confirm(self) -> Depths
        ensures { result ≡ record { granted = self.granted; confirmed = self.granted } }
    {
        Depths {
            granted: self.granted,
            confirmed: self.granted,
        }
    }

    /// One of the two.
    pub fn get(self, which: Which) -> u8
        ensures { result ≡ depth_of which self }
    {
        match which {
            Which::Granted => self.granted,
            Which::Confirmed => self.confirmed,
        }
    }
}
