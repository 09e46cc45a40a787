//! Whether MPIDRs can be those of a platform.

ghost use Rattle.std.specs.Prelude.{◌≡◌, ◌==◌, slice_index};
ghost use Rattle.std.specs.List.{count_by, list_all};
ghost use Rattle.psci_platform.specs.Faults.{has_boot, has_same, is_mpidr};

/// Whether each is an MPIDR: only its affinity fields have bits.
pub fn are_mpidrs(mpidrs: &[u64]) -> bool
    ensures { result ≡ list_all is_mpidr mpidrs.now }
{
    mpidrs.iter().all(|mpidr| is_mpidr(*mpidr))
}

/// Whether only the affinity fields have bits.
fn is_mpidr(mpidr: u64) -> bool
    ensures { result ≡ is_mpidr mpidr }
{
    mpidr >> 40 == 0 && (mpidr >> 24) % 256 == 0
}

/// Whether two cores have one MPIDR.
pub fn has_same(mpidrs: &[u64]) -> bool
    ensures { result ≡ has_same mpidrs.now }
{
    mpidrs.iter().any(|mpidr| count(mpidrs, *mpidr) > 1)
}

/// How many cores have this MPIDR.
fn count(mpidrs: &[u64], mpidr: u64) -> usize
    ensures { result ≡ count_by (λ y. y == mpidr) mpidrs.now }
{
    mpidrs.iter().filter(|other| **other == mpidr).count()
}

/// Whether some core is the boot core.
pub fn has_boot(mpidrs: &[u64], boot: u64) -> bool
    ensures { result ≡ has_boot mpidrs.now boot }
{
    mpidrs.iter().any(|mpidr| *mpidr == boot)
}

/// The MPIDR of the first core, 0 where there is none.
pub fn first_of(mpidrs: &[u64]) -> u64
    ensures { result ≡ slice_index mpidrs.now 0 }
{
    match mpidrs.first() {
        Some(mpidr) => *mpidr,
        None => 0,
    }
}
