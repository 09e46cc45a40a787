//! What became of a storm.

ghost use Rattle.std.specs.Prelude.{◌≡◌, length};
ghost use Rattle.psci_world.specs.psci_world_spec.Legal.{sent};

use psci_world::{Settled, World};

/// What became of a storm.
#[derive(Clone, Copy, Debug, PartialEq, Eq)]
pub struct Storm {
    /// How many events happened, those of settling included.
    pub events: u64,
    /// How many messages the firmware sent.
    pub sent: u64,
    /// How the world settled.
    pub settled: Settled,
}

impl Storm {
    /// What became of this world, which settled so.
    pub fn of(world: &World, settled: Settled) -> Storm
        ensures { result ≡ record {
          events = length world.now.past;
          sent = length (sent world.now.past);
          settled = settled;
        } }
    {
        Storm {
            events: world.records().len() as u64,
            sent: world.messages().len() as u64,
            settled,
        }
    }
}

/// A storm, and the world that it left.
#[derive(Drop)]
pub struct StormedWorld {
    /// What became of the storm.
    pub storm: Storm,
    /// The world after it, with all records.
    pub world: World,
}
