//! A status as a number.

ghost use Rattle.std.specs.Prelude.{◌≡◌, ◌<◌};
ghost use Rattle.psci_fw_spec.specs.PowerCalls.{status_code};
ghost use Rattle.psci_status.specs.Lists.{status_of};

use psci_fw_spec::Status;

/// The number of a status.
pub(crate) fn number_of(status: Status) -> u64
    ensures number { result ≡ status_code status }
    ensures small { result < 3 }
{
    match status {
        Status::On => 0,
        Status::Off => 1,
        Status::Pending => 2,
    }
}

/// The status of this number.
pub(crate) fn status_of(number: u64) -> Status
    ensures { result ≡ status_of number }
{
    match number {
        0 => Status::On,
        1 => Status::Off,
        _ => Status::Pending,
    }
}
