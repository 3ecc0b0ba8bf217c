use mms_types::{Edition, Octets};

/// What never changes of a client's part: the edition that its PDUs are of, and what the device
/// answers to Identify (ISO 9506-1, VMD support).
pub struct Constants {
    pub edition: Edition,
    pub vendor: Octets,
    pub model: Octets,
    pub revision: Octets,
}

impl Drop for Constants {
    fn drop(self) {
        let Constants {
            edition: _,
            vendor: _vendor,
            model: _model,
            revision: _revision,
        } = self;
    }
}
