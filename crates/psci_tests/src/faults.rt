//! What the firmware's faults say.

use psci_fw::FwFault;
use std::test::Fail;

const FAULTS: [(FwFault, &str); 4] = [
    (FwFault::NoCore, "the board has no such core"),
    (FwFault::NoLife, "there is no such life"),
    (FwFault::NotRunning, "the calling core is not running"),
    (FwFault::OldStart, "the start is not a new one of the core"),
];

#[test]
fn faults_are_shown(rt: HostRuntime) -> Result<(), Fail> {
    for (fault, text) in FAULTS {
        let said = format!(in rt.alloc(); "{fault}")?;
        assert_eq!(rt; said.as_str(), text);
    }
    Ok(())
}
