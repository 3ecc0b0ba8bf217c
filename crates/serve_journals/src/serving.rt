//! A request for journals is served.

ghost use Rattle.std.specs.Prelude.{◌≡◌, OnErr, OnOk};
ghost use Rattle.cell_client.specs.Areas.{IsServedIn};
ghost use Rattle.cell_client.specs.Effects.{settled};
ghost use Rattle.cell_client.specs.Facts.{Facts};
ghost use Rattle.serve_journals.specs.Journals.{request_in};

use crate::entries::{initialize, read, write};
use crate::making::{create, delete, status};
use cell_client::Client;
use mms_journal::Journals;
use mms_types::{JournalRequest, Memory};
use std::alloc::Global;

/// Serves a request for journals, on the table of them and the part of its client: it is refused, or done and answered.
/// `live` is whether the domain is live that has to be. Without memory all is as before.
pub fn serve(
    alloc: Global,
    own: &mut Client,
    journals: &mut Journals,
    live: bool,
    invoke: u32,
    asked: JournalRequest<'_>,
) -> Result<(), Memory>
    requires settled { own.old ≡ settled own.old.row }
    ensures served { OnOk result ((facts : Facts) → facts.live ≡ live
        → IsServedIn (request_in asked.entry) facts invoke own.old.row
        journals.old journals.new own.new) }
    ensures kept { OnErr result (own.new ≡ own.old) }
    ensures same { OnErr result (journals.new ≡ journals.old) }
{
    match asked {
        JournalRequest::ReadJournal(asked) => read(alloc, own, journals, invoke, asked),
        JournalRequest::WriteJournal(asked) => write(alloc, own, journals, invoke, asked),
        JournalRequest::InitializeJournal(asked) => {
            initialize(alloc, own, journals, invoke, asked)
        }
        JournalRequest::ReportJournalStatus(name) => status(alloc, own, journals, invoke, name),
        JournalRequest::CreateJournal(name) => create(alloc, own, journals, live, invoke, name),
        JournalRequest::DeleteJournal(name) => delete(alloc, own, journals, invoke, name),
    }
}
