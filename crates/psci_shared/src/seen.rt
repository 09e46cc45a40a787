//! Passes of the firmware, and what they have seen.

use crate::entry::FwItem;
use crate::named::Named;
use crate::pass::PassOf;
use crate::touching::touch;
use psci_fw::{FwCall, FwReply};
use psci_status::{Core, Reader, Reading, StatusWords, Writer};
use std::marker::{Model, PhantomData};

/// What a pass has seen of the status of each core.
#[derive(Drop)]
pub struct Seen<N: Named> {
    pub(crate) reader: Reader,
    of: PhantomData<N>,
}

impl<N: Named> Model for Seen<N> {
    ghost use Rattle.std.specs.Prelude.{◌≡◌, List};
    ghost use Rattle.psci_status.specs.Lists.{Item};
    ghost use Rattle.psci_status.specs.Seats.{seen, table_of_reader};

    ghost Value = { List (List Item) };

    ghost view = { λ s. seen s.reader };

    ghost invariant = { λ s. table_of_reader s.reader ≡ N.table };
}

/// A pass for one core. It keeps what the thread asked and was answered, and what it has seen of
/// the status of each core.
pub type Pass<N> = PassOf<N, Core, Seen<N>, FwCall, FwReply>;

ghost use Rattle.std.specs.Prelude.{◌≡◌, ◌<◌};
ghost use Rattle.psci_status.specs.Seats.{table, table_of_writer, written};
ghost use Rattle.psci_shared.specs.Passes.{IsReadAt};

impl<N: Named> Seen<N> {
    /// The last status of each core.
    pub(crate) fn of(words: &StatusWords, writer: &mut Writer) -> Seen<N>
        requires { (table words.now ≡ N.table) × (table_of_writer writer.old ≡ N.table) }
        ensures table { table_of_writer writer.new ≡ N.table }
        ensures log { written writer.new ≡ written writer.old }
    {
        let reader = words.reader(writer);
        Seen {
            reader,
            of: PhantomData,
        }
    }
}

impl<N: Named> Pass<N> {
    /// Writes to the memory of all calls to come, so that none of them is the first to touch it.
    pub fn touch(&mut self)
        ensures { self.new ≡ self.old }
    {
        touch(&mut self.items, self.room, || FwItem::blank());
    }

    /// The core that it is for.
    pub fn core(&self) -> Core
        ensures { result ≡ self.now.core }
    {
        self.core
    }

    /// The status of a core with its serial, by one load of its word.
    pub(crate) fn read(&mut self, words: &StatusWords, core: Core) -> Reading
        requires words { table words.now ≡ N.table }
        requires core { core.number < N.table.words }
        ensures { IsReadAt self.old self.new core.number result.serial result.status }
    {
        words.read(&mut self.seen.reader, core)
    }
}
