//! Requests for journals, on the part of their client and that of the journals, as they are held.

ghost use Rattle.std.specs.Prelude.{◌≡◌};

use crate::placing::{OnParts, Serving};
use cell_client::{Client, ClientTold};
use mms_journal::Journals;
use mms_types::{JournalRequest, Memory};
use part_table::Hand;
use step_parts::held::live_held;
use step_parts::tables::JOURNALS;
use step_parts::{Cell, Part};

impl OnParts for JournalRequest<'_> {
    ghost use Rattle.std.proofs.Common.{ap, refl};
    ghost use Rattle.mms_types.specs.Areas.{journal_request};
    ghost use Rattle.parted_state.specs.Cut.{is_in};
    ghost use Rattle.serve_journals.specs.Journals as of_journals;
    ghost use Rattle.cell_client.specs.Association.{Takes};
    ghost use Rattle.cell_services.specs.Facts.{is_domain_live};
    ghost use Rattle.cell_services.specs.Services.{asks_of};
    ghost use Rattle.cell_services.specs.Tables.{own_journals};
    ghost use Rattle.cell_services.proofs.AreaTableLaws.{in_journals};
    ghost use Rattle.step_parts.specs.AfterLaws.{is_journals};

    type Table = Journals;

    /// Whether the domain is live that has to be.
    type Facts = bool;

    type Rest = ();

    ghost own = { λ asked. own_journals };

    ghost its = { λ asked. is_journals };

    ghost verdict = { λ asked invoke. Takes invoke (journal_request asked) };

    ghost is_told = { λ asked live client t. live
        ≡ is_domain_live (of_journals.domain_asked asked) t.domains };

    fn place(&self, _clients: u32) -> u32 {
        u32::from(JOURNALS)
    }

    fn facts(&self, _who: Serving, held: &Hand<Cell>) -> Result<bool, Memory> {
        Ok(live_held(held, serve_journals::domain_asked(*self)))
    }

    #[tactic(auto, using(cell_services::proofs::AreaLaws::journals_served))]
    fn serve(
        &self,
        who: Serving,
        _held: &Hand<Cell>,
        invoke: u32,
        live: bool,
        client: &mut Client,
        table: &mut Part,
    ) -> Result<Option<(Vec<(u32, ClientTold)>, ())>, Memory> {
        match table {
            Part::Journals(rows) => {
                serve_journals::serve(who.alloc, client, rows, live, invoke, *self)?;
                Ok(None)
            }
            _ => unreachable!(),
        }
    }

    fn finish(&self, _client: u32, _live: bool, _rest: &(), _table: &mut Part) {}

    ghost stands = { λ asked t. refl };

    ghost asks = { λ asked invoke. ap (λ a. is_in (asks_of a) 5) (in_journals asked) };
}
