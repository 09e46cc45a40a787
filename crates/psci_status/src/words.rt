//! The status words.

ghost use Rattle.std.specs.Prelude.{◌%◌, ◌*◌, ◌+◌, ◌<◌, ◌^◌, ◌∷◌, ◌≡◌, ◌≢◌, ◌≤◌, [], false, IfOk};
ghost use Rattle.std.specs.Prelude.{length, List, map, replicate, slice_set, true, ℕ};
ghost use Rattle.psci_board.specs.Board.{cores};
ghost use Rattle.psci_fw_spec.specs.declared.status.Status.{Status};
ghost use Rattle.psci_fw_spec.specs.declared.status.Status.TheVariants.{Off};
ghost use Rattle.psci_fw_spec.specs.PowerCalls.{status_code};
ghost use Rattle.psci_fw_spec.specs.Statuses.{added};
ghost use Rattle.psci_status.specs.Lists.{Begins, gain, gains, IsLast, IsWord, item_of, newest};
ghost use Rattle.psci_status.specs.Lists.{Rises, row, status_of, Within};
ghost use Rattle.psci_status.specs.Seats.{AreOf, MayRead, MayWrite, seen, table, table_of_reader};
ghost use Rattle.psci_status.specs.Seats.{table_of_writer, written};

use crate::coding::{number_of, status_of};
use crate::rule::{Loads, Looks, Notes, Stores};
use crate::seats::{Reader, Reading, StatusWords, Writer};
use atomic_table::Table;
use psci_board::{Board, Core, Memory};
use psci_fw_spec::Status;
use std::alloc::Global;

impl StatusWords {
    /// The status words of this board, and their writer. Each core is OFF.
    pub fn new(alloc: Global, board: &Board) -> Result<(StatusWords, Writer), Memory>
        ensures words { IfOk result (λ r. (table r.0).words ≡ cores board.now) }
        ensures writer { IfOk result (λ r. table_of_writer r.1 ≡ table r.0) }
        ensures log { IfOk result (λ r. written r.1 ≡ replicate (cores board.now) (Off ∷ [])) }
    {
        let cores = board.cores();
        let words = Vec::from_elem(alloc, number_of(Status::Off), cores as usize)?;
        let (table, seat) = Table::of_words(alloc, words.as_slice(), &u64::from(cores))?;
        Ok((StatusWords { table }, Writer { seat }))
    }

    /// A reader. It has seen the last item of each core.
    pub fn reader(&self, writer: &mut Writer) -> Reader
        requires { table_of_writer writer.old ≡ table self.now }
        ensures table { table_of_reader result ≡ table self.now }
        ensures writer { table_of_writer writer.new ≡ table_of_writer writer.old }
        ensures log { written writer.new ≡ written writer.old }
        ensures seen { seen result ≡ map newest (written writer.old) }
    {
        let seat = self.table.shared.split_seat::<Notes>(&mut writer.seat);
        Reader { seat }
    }

    /// Writes the status of a core, one item more.
    pub fn set(&self, writer: &mut Writer, core: Core, status: Status)
        requires table { table_of_writer writer.old ≡ table self.now }
        requires core { core.number < (table self.now).words }
        requires few { length (row (written writer.old) core.number) < 2 ^ 61 }
        ensures table { table_of_writer writer.new ≡ table_of_writer writer.old }
        ensures log { written writer.new ≡ slice_set (written writer.old) core.number
            (status ∷ row (written writer.old) core.number) }
    {
        let found = self.word(writer, core);
        self.write(writer, core, found, status);
    }

    /// The word of a core.
    fn word(&self, writer: &mut Writer, core: Core) -> u64
        requires here { MayWrite self.now writer.old core.number }
        ensures table { table_of_writer writer.new ≡ table_of_writer writer.old }
        ensures log { written writer.new ≡ written writer.old }
        ensures word { IsWord (row (written writer.old) core.number) result }
    {
        let place = core.number as usize;
        self.table.shared.load::<Looks>(&mut writer.seat, place)
    }

    /// Writes the status of a core, one item more than its word holds.
    fn write(&self, writer: &mut Writer, core: Core, found: u64, status: Status)
        requires here { MayWrite self.now writer.old core.number }
        requires few { length (row (written writer.old) core.number) < 2 ^ 61 }
        requires word { IsWord (row (written writer.old) core.number) found }
        ensures table { table_of_writer writer.new ≡ table_of_writer writer.old }
        ensures log { written writer.new ≡ slice_set (written writer.old) core.number
            (status ∷ row (written writer.old) core.number) }
    {
        let place = core.number as usize;
        let next = (found / 4 + 1) * 4 + number_of(status);
        self.table
            .shared
            .store::<Stores>(&mut writer.seat, place, next);
    }

    /// Writes the status of a core, unless it is the last that was written.
    pub fn update(&self, writer: &mut Writer, core: Core, status: Status)
        requires here { MayWrite self.now writer.old core.number }
        requires few { length (row (written writer.old) core.number) < 2 ^ 61 }
        ensures table { table_of_writer writer.new ≡ table_of_writer writer.old }
        ensures here { row (written writer.new) core.number
            ≡ added status (row (written writer.old) core.number) }
        ensures others { (other : ℕ) → other ≢ core.number
            → row (written writer.new) other ≡ row (written writer.old) other }
    {
        let found = self.word(writer, core);
        if found % 4 != number_of(status) {
            self.write(writer, core, found, status);
        }
    }

    /// How many cores there are.
    pub fn cores(&self) -> usize
        ensures { result ≡ (table self.now).words }
    {
        self.table.word_count()
    }

    /// The status of a core, by one load: that of the last item that the reader has now seen of
    /// the core.
    pub fn get(&self, reader: &mut Reader, core: Core) -> Status
        requires table { table_of_reader reader.old ≡ table self.now }
        requires core { core.number < (table self.now).words }
        ensures table { table_of_reader reader.new ≡ table_of_reader reader.old }
        ensures seen { (serial : ℕ)
            × (seen reader.new ≡ slice_set (seen reader.old) core.number
            (gain (serial, result) (row (seen reader.old) core.number)))
            × Begins (serial, result) (row (seen reader.new) core.number) }
        ensures rises { Rises (row (seen reader.new) core.number) }
    {
        self.read(reader, core).status
    }

    /// The same, with the serial: the last item that the reader has now seen of the core.
    pub fn read(&self, reader: &mut Reader, core: Core) -> Reading
        requires here { MayRead self.now reader.old core.number }
        ensures table { table_of_reader reader.new ≡ table_of_reader reader.old }
        ensures seen { seen reader.new ≡ slice_set (seen reader.old) core.number
            (gain (result.serial, result.status) (row (seen reader.old) core.number)) }
        ensures last { Begins (result.serial, result.status) (row (seen reader.new) core.number) }
        ensures rises { Rises (row (seen reader.new) core.number) }
    {
        let place = core.number as usize;
        let found = self.table.shared.load::<Loads>(&mut reader.seat, place);
        Reading {
            serial: found / 4,
            status: status_of(found % 4),
        }
    }

    /// What the reader had seen was written, and the last item that was written of each core is
    /// now the last that it has seen.
    pub fn meet(&self, writer: &mut Writer, reader: &mut Reader)
        requires writer { table_of_writer writer.old ≡ table self.now }
        requires reader { table_of_reader reader.old ≡ table self.now }
        ensures writer { table_of_writer writer.new ≡ table_of_writer writer.old }
        ensures reader { table_of_reader reader.new ≡ table_of_reader reader.old }
        ensures log { written writer.new ≡ written writer.old }
        ensures stands { (core : ℕ)
            → Within (row (written writer.old) core) (row (seen reader.old) core) }
        ensures seen { seen reader.new
            ≡ gains (seen reader.old) (map newest (written writer.old)) }
        ensures stand { (core : ℕ)
            → Within (row (written writer.old) core) (row (seen reader.new) core) }
        ensures last { (core : ℕ) → core < (table self.now).words
            → IsLast (row (written writer.old) core) (row (seen reader.new) core) }
    {
        self.trade(writer, reader);
    }

    // The writer is told what the reader has seen, and the reader what was written last.
    fn trade(&self, writer: &mut Writer, reader: &mut Reader)
        requires tables { AreOf self.now writer.old reader.old }
        ensures tables { AreOf self.now writer.new reader.new }
        ensures log { written writer.new ≡ written writer.old }
        ensures stands { (core : ℕ)
            → Within (row (written writer.old) core) (row (seen reader.old) core) }
        ensures seen { seen reader.new
            ≡ gains (seen reader.old) (map newest (written writer.old)) }
    {
        let note = self.table.shared.split_seat::<Notes>(&mut reader.seat);
        self.table.shared.join_seat::<Notes>(&mut writer.seat, note);
        let _found = self.table.shared.load::<Looks>(&mut writer.seat, 0);
        let note = self.table.shared.split_seat::<Notes>(&mut writer.seat);
        self.table.shared.join_seat::<Notes>(&mut reader.seat, note);
    }
}
