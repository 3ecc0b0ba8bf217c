use crate::Octets;

/// Which state is asked for (ISO 9506-2, Status-Request).
#[derive(Clone, Copy)]
pub struct Status {
    /// extendedDerivation: whether the device is to find its state out anew.
    pub derivation: bool,
}

/// The state of the device (ISO 9506-2, Status-Response).
#[derive(Clone, Copy)]
pub struct StatusAnswer {
    /// vmdLogicalStatus, by its number: 0, state-changes-allowed, is the one of the form.
    pub logical: u8,
    /// vmdPhysicalStatus, by its number: 0, operational, is the one of the form.
    pub physical: u8,
}

/// The texts that identify the device (ISO 9506-2, Identify-Response).
#[derive(Drop)]
pub struct IdentifyAnswer {
    pub vendor: Octets,
    pub model: Octets,
    pub revision: Octets,
}
