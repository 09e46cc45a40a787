//! The names of the cores and power domains of a level, each in a slot that its fields say.

ghost use Rattle.std.specs.Prelude.{◌≡◌, option_map, slice_set};
ghost use Rattle.psci_platform.specs.Names.{AreAmong, name_in, slot_of};

use psci_board::Core;

/// A core by the affinity fields of its MPIDR from some level up, of which it is the first one in
/// the order of the tree.
#[derive(Clone, Copy, Debug, PartialEq, Eq)]
pub struct Name {
    /// The fields of the MPIDR.
    pub fields: u64,
    /// The affinity word of the board for the core.
    pub word: u64,
    /// The core, by the firmware's number.
    pub core: Core,
}

/// The names of a level, in slots. The product of the fields and a factor says the slot.
#[derive(Drop)]
pub struct Table {
    /// The slots. Each has some name, and a name may be in many.
    pub slots: Vec<Name>,
    /// The factor.
    pub factor: u64,
    /// Which bits of the upper half of the product are the slot's number.
    pub mask: u64,
}

impl Table {
    /// The name that the slot of these fields has, if it is theirs.
    #[inline(always)]
    pub fn name(&self, fields: u64) -> Option<&Name>
        ensures { option_map (λ name. name.now) result
            ≡ name_in self.now.slots.items self.now.factor self.now.mask fields }
    {
        name_in(&self.slots, self.factor, self.mask, fields)
    }
}

/// The name that the slot of these fields has, if it is theirs.
#[inline(always)]
pub fn name_in(slots: &[Name], factor: u64, mask: u64, fields: u64) -> Option<&Name>
    ensures { option_map (λ name. name.now) result ≡ name_in slots.now factor mask fields }
{
    match slots.get(slot_of(factor, mask, fields)) {
        Some(name) if name.fields == fields => Some(name),
        _ => None,
    }
}

/// The number of the slot of these fields.
#[inline(always)]
fn slot_of(factor: u64, mask: u64, fields: u64) -> usize
    ensures { result ≡ slot_of factor mask fields }
{
    (fields.wrapping_mul(factor) >> 32 & mask) as usize
}

/// Puts each name into its slot, over what is there.
pub fn put_names(slots: &mut [Name], names: &[Name], factor: u64, mask: u64)
    requires { AreAmong names.now slots.old }
    ensures { AreAmong names.now slots.new }
{
    for name in names {
        put(slots, slot_of(factor, mask, name.fields), *name);
    }
}

/// Puts a name into the slot of this number, if there is one.
fn put(slots: &mut [Name], place: usize, name: Name)
    ensures { slots.new ≡ slice_set slots.old place name }
{
    if place < slots.len() {
        slots[place] = name;
    }
}
