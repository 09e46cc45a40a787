//! A body without threads, which makes the first two calls of cores 0 and 1.

use psci_bench::{BenchFault, Core, Gate};
use psci_fw::Regs;
use psci_world::{Event, Place, World};

/// One core of the body, and how many calls it has made.
#[derive(Drop)]
struct Server {
    number: u16,
    made: u64,
}

/// Serves two cores in this order, each with so many calls at once, until both have made two.
pub(crate) fn serve<G: Gate>(
    world: &mut World,
    order: [u16; 2],
    at_once: u32,
    gate: &G,
) -> Result<(), BenchFault> {
    let [one, other] = order;
    let mut first = Server {
        number: one,
        made: 0,
    };
    let mut second = Server {
        number: other,
        made: 0,
    };
    for _ in 0..4u32 {
        first.serve(world, at_once, gate)?;
        second.serve(world, at_once, gate)?;
    }
    Ok(())
}

impl Server {
    /// The core enters if it is started, makes its next calls, and what it sends is delivered.
    fn serve<G: Gate>(
        &mut self,
        world: &mut World,
        at_once: u32,
        gate: &G,
    ) -> Result<(), BenchFault> {
        if self.is_at(world, Place::Started) {
            world.step(Event::Enter(u64::from(self.number)))?;
        }
        for _ in 0..at_once {
            self.call(world, gate)?;
        }
        world.step(Event::Deliver(0))?;
        Ok(())
    }

    /// The core makes its next call, if it runs and has one left.
    fn call<G: Gate>(&mut self, world: &mut World, gate: &G) -> Result<(), BenchFault> {
        if self.made >= 2 || !self.is_at(world, Place::Running) {
            return Ok(());
        }
        let core = Core {
            number: self.number,
        };
        if !gate.may(core, self.made) {
            return Err(BenchFault::Gate);
        }
        world.step(Event::Call(u64::from(self.number), self.registers()))?;
        gate.done(core, self.made);
        self.made += 1;
        Ok(())
    }

    /// The registers of the next call: core 0 asks core 1 on, and all others are PSCI_VERSION.
    fn registers(&self) -> Regs {
        if self.number == 0 && self.made == 0 {
            return Regs {
                x0: 0xc400_0003,
                x1: 1,
                x2: 0x4000_0000,
                x3: 1,
            };
        }
        Regs {
            x0: 0x8400_0000,
            x1: 0,
            x2: 0,
            x3: 0,
        }
    }

    fn is_at(&self, world: &World, place: Place) -> bool {
        match world.board().core(self.number) {
            Some(core) => world.place(core) == place,
            None => false,
        }
    }
}
