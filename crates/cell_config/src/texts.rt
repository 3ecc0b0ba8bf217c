ghost use Rattle.std.specs.Prelude.{◌≡◌, not, is_some, IsTrue, IfSome};
ghost use Rattle.std.specs.List.{list_all};
ghost use Rattle.toml.specs.View.{table_view};
ghost use Rattle.cell_config.specs.Rules.{is_shown, is_short_text, vendor_of, model_of, revision_of, breaks_texts};

use crate::table::text_at;
use toml::Table;

fn is_shown(octet: u8) -> bool
    ensures { result ≡ is_shown octet }
{
    0x20 <= octet && octet <= 0x7E
}

fn are_shown(octets: &[u8]) -> bool
    ensures { result ≡ list_all is_shown octets.now }
{
    octets.iter().all(|&octet| is_shown(octet))
}

fn is_short_text(text: &str) -> bool
    ensures { result ≡ is_short_text text.now }
{
    1 <= text.len() && text.len() <= 32 && are_shown(text.as_bytes())
}

/// The text, where it is 1 to 32 octets that are shown.
fn short(text: &str) -> Option<&str>
    ensures found { is_some result ≡ is_short_text text.now }
    ensures value { IfSome result (λ found. found.now ≡ text.now) }
    ensures short { IfSome result (λ found. IsTrue (is_short_text found.now)) }
{
    if is_short_text(text) {
        return Some(text);
    }
    None
}

/// The texts of a configuration.
#[derive(Clone, Copy)]
pub(crate) struct Texts<'a> {
    pub(crate) vendor: &'a str,
    pub(crate) model: &'a str,
    pub(crate) revision: &'a str,
}

/// The texts that a table tells, or those that stand where it tells none. None where one is too short or too
/// long, or has an octet that is not shown.
pub(crate) fn read_texts(table: &Table) -> Option<Texts<'_>>
    ensures texts { is_some result ≡ not (breaks_texts (table_view table.now)) }
    ensures vendor { IfSome result (λ t. t.vendor.now ≡ vendor_of (table_view table.now)) }
    ensures model { IfSome result (λ t. t.model.now ≡ model_of (table_view table.now)) }
    ensures revision { IfSome result (λ t. t.revision.now ≡ revision_of (table_view table.now)) }
    ensures short_vendor { IfSome result (λ t. IsTrue (is_short_text t.vendor.now)) }
    ensures short_model { IfSome result (λ t. IsTrue (is_short_text t.model.now)) }
    ensures short_revision { IfSome result (λ t. IsTrue (is_short_text t.revision.now)) }
{
    Some(Texts {
        vendor: short(text_at(table, "vendor").unwrap_or("VMD"))?,
        model: short(text_at(table, "model").unwrap_or("CELL"))?,
        revision: short(text_at(table, "revision").unwrap_or("1"))?,
    })
}
