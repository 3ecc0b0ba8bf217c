use mms_types::{Data, Identifier, Listed, TypeSpec};

/// A cell: a variable that has an address (ISO 9506-1, unnamed variable).
pub struct StoredCell {
    /// Its type, which stays.
    pub of: TypeSpec,
    /// Its value, which is of the type.
    pub value: Data,
    /// The semaphore of the VMD that guards it, where one does: only a client that owns a token of it may write.
    pub guard: Option<Identifier>,
}

/// A name of a cell (ISO 9506-1, named variable).
#[derive(Clone, Copy)]
pub struct Variable {
    /// The number of the cell.
    pub cell: u16,
    /// Whether it was configured: then it can't be deleted.
    pub configured: bool,
}

/// The value that a cell gets.
#[derive(Drop)]
pub struct NewValue {
    /// The number of the cell.
    pub cell: u16,
    /// The value.
    pub value: Data,
}

/// Values that cells get, in order. Contracts see the list of them.
pub type NewValues = Listed<NewValue>;

impl Drop for StoredCell {
    fn drop(self) {
        let StoredCell {
            of: _of,
            value: _value,
            guard: _guard,
        } = self;
    }
}
