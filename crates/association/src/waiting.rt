ghost use Rattle.std.specs.Prelude.{◌≡◌, ◌≤◌, false, vec_len, vec_capacity};
ghost use Rattle.association.specs.Waiting.{is_waiting, without, AreDistinct};

use mms_types::Key;

/// A request of the client that waits at the server for a semaphore (ISO 9506-1, TakeControl).
#[derive(Drop)]
pub struct Waiting {
    /// The invokeID of the request.
    pub invoke: u32,
    /// The name of the semaphore.
    pub key: Key,
    /// The number of the entry that waits there.
    pub entry: u64,
}

/// Whether the request of that invokeID waits.
pub(crate) fn has_waiting(rows: &[Waiting], invoke: u32) -> bool
    ensures { result ≡ is_waiting invoke rows.now }
{
    rows.iter().any(|row| row.invoke == invoke)
}

/// Removes the request of that invokeID. False exactly where it does not wait.
#[tactic(auto, using(crate::proofs::Rows::without_none))]
pub(crate) fn remove_waiting(rows: &mut Vec<Waiting>, invoke: u32) -> bool
    ensures found { result ≡ is_waiting invoke rows.old.items }
    ensures rows { rows.new.items ≡ without invoke rows.old.items }
    ensures kept { result ≡ false → rows.new.items ≡ rows.old.items }
    ensures distinct { AreDistinct rows.old.items → AreDistinct rows.new.items }
    ensures len { vec_len rows.new ≤ vec_len rows.old }
    ensures capacity { vec_capacity rows.new ≡ vec_capacity rows.old }
{
    if !has_waiting(rows, invoke) {
        return false;
    }
    rows.retain(|row| row.invoke != invoke);
    true
}
