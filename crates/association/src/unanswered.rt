ghost use Rattle.std.specs.Prelude.{◌≡◌, ◌≤◌, ℕ, false, option_copied, vec_len, vec_capacity};
ghost use Rattle.association.specs.Asked.{is_asked, row_asked, unsettled, AreApart, AreBelow};

use mms_types::{Asked, Identifier};

/// A request of the server that the client has not answered (ISO 9506-1, environment and general
/// management).
pub struct Unanswered {
    /// The number of the request: the invokeID that the server gave it.
    pub invoke: u32,
    /// What is asked.
    pub kind: Asked,
    /// The name of the domain that it is asked of.
    pub domain: Identifier,
}

/// The request of that number, where it is unanswered.
pub(crate) fn find_asked(rows: &[Unanswered], invoke: u32) -> Option<&Unanswered>
    ensures { option_copied result ≡ row_asked invoke rows.now }
{
    rows.iter().find(|row| row.invoke == invoke)
}

/// Whether the request of that number is unanswered.
fn has_asked(rows: &[Unanswered], invoke: u32) -> bool
    ensures { result ≡ is_asked invoke rows.now }
{
    rows.iter().any(|row| row.invoke == invoke)
}

/// Removes the request of that number. False exactly where none of that number is unanswered.
#[tactic(auto, using(crate::proofs::Rows::unsettled_none))]
pub(crate) fn remove_asked(rows: &mut Vec<Unanswered>, invoke: u32) -> bool
    ensures found { result ≡ is_asked invoke rows.old.items }
    ensures rows { rows.new.items ≡ unsettled invoke rows.old.items }
    ensures kept { result ≡ false → rows.new.items ≡ rows.old.items }
    ensures apart { AreApart rows.old.items → AreApart rows.new.items }
    ensures below { (next : ℕ) → AreBelow next rows.old.items → AreBelow next rows.new.items }
    ensures len { vec_len rows.new ≤ vec_len rows.old }
    ensures capacity { vec_capacity rows.new ≡ vec_capacity rows.old }
{
    if !has_asked(rows, invoke) {
        return false;
    }
    rows.retain(|row| row.invoke != invoke);
    true
}

impl Drop for Unanswered {
    fn drop(self) {
        let Unanswered {
            invoke: _,
            kind: _kind,
            domain: _domain,
        } = self;
    }
}
