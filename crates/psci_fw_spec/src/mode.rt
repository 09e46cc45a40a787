//! Who coordinates the power domains.

/// The suspend mode (DEN0022D, PSCI_SET_SUSPEND_MODE).
#[derive(Clone, Copy, Debug, PartialEq)]
pub enum SuspendMode {
    /// Platform-coordinated: the firmware finds the deepest state that all cores below a domain
    /// allow. Every life begins so.
    Platform,
    /// OS-initiated: the operating system asks for each domain with its last core.
    OsInitiated,
}
