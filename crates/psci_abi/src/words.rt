//! The function words of DEN0022D that are read.

/// PSCI_VERSION.
pub const PSCI_VERSION: u32 = 0x8400_0000;

/// CPU_SUSPEND in the SMC32 convention.
pub const CPU_SUSPEND_32: u32 = 0x8400_0001;

/// CPU_SUSPEND in the SMC64 convention.
pub const CPU_SUSPEND_64: u32 = 0xC400_0001;

/// CPU_OFF.
pub const CPU_OFF: u32 = 0x8400_0002;

/// CPU_ON in the SMC32 convention.
pub const CPU_ON_32: u32 = 0x8400_0003;

/// CPU_ON in the SMC64 convention.
pub const CPU_ON_64: u32 = 0xC400_0003;

/// AFFINITY_INFO in the SMC32 convention.
pub const AFFINITY_INFO_32: u32 = 0x8400_0004;

/// AFFINITY_INFO in the SMC64 convention.
pub const AFFINITY_INFO_64: u32 = 0xC400_0004;

/// MIGRATE in the SMC32 convention, which is not supported.
pub const MIGRATE: u32 = 0x8400_0005;

/// MIGRATE_INFO_TYPE.
pub const MIGRATE_INFO_TYPE: u32 = 0x8400_0006;

/// SYSTEM_OFF.
pub const SYSTEM_OFF: u32 = 0x8400_0008;

/// SYSTEM_RESET.
pub const SYSTEM_RESET: u32 = 0x8400_0009;

/// PSCI_FEATURES.
pub const PSCI_FEATURES: u32 = 0x8400_000A;

/// NODE_HW_STATE in the SMC32 convention.
pub const NODE_HW_STATE_32: u32 = 0x8400_000D;

/// NODE_HW_STATE in the SMC64 convention.
pub const NODE_HW_STATE_64: u32 = 0xC400_000D;

/// SYSTEM_SUSPEND in the SMC32 convention.
pub const SYSTEM_SUSPEND_32: u32 = 0x8400_000E;

/// SYSTEM_SUSPEND in the SMC64 convention.
pub const SYSTEM_SUSPEND_64: u32 = 0xC400_000E;

/// PSCI_SET_SUSPEND_MODE.
pub const PSCI_SET_SUSPEND_MODE: u32 = 0x8400_000F;

/// SYSTEM_RESET2 in the SMC32 convention.
pub const SYSTEM_RESET2_32: u32 = 0x8400_0012;

/// SYSTEM_RESET2 in the SMC64 convention.
pub const SYSTEM_RESET2_64: u32 = 0xC400_0012;
