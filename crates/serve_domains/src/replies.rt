//! A client answers what the server asked of it (ISO 9506-1, DownloadSegment and TerminateDownloadSequence).

ghost use Rattle.std.specs.Prelude.{◌≡◌, ◌∷◌, [], IfOk, None, OnErr, OnOk, Some, ℕ, false, is_none, true};
ghost use Rattle.association.specs.Asked.{is_open};
ghost use Rattle.association.specs.Client.{next_ask};
ghost use Rattle.domain_load.specs.Loading.{answers_load, domain_of, is_of_load, reply_after};
ghost use Rattle.cell_client.specs.Areas.{IsServedIn, lacks_number_in};
ghost use Rattle.cell_client.specs.Effects.{felt_all, settled};
ghost use Rattle.cell_client.specs.Facts.{Facts};
ghost use Rattle.cell_client.specs.Meant.{came};
ghost use Rattle.serve_domains.specs.Domains.{replied, reply_of, reply_told, AnswersLoad};

use crate::DomainTables;
use cell_client::{Came, Client};
use mms_types::{Asked, Identifier, Memory, Reply};
use std::alloc::Global;

/// What a client answers, by what was asked, and of which domain. Its octets are copied.
fn reply_of(
    alloc: Global,
    answer: Came<'_>,
    asked: Asked,
    domain: &Identifier,
) -> Result<Reply, Memory>
    ensures { IfOk result (λ reply. reply ≡ reply_of (came answer.entry) (asked, domain.now)) }
{
    let domain = domain.copy(alloc)?;
    Ok(match answer {
        Came::Arrives(segment) => Reply::Segment {
            domain,
            octets: segment.octets.copy(alloc)?,
            more: segment.more,
        },
        Came::Ends => Reply::Ended { domain },
        Came::Fails => Reply::Failed { domain, asked },
    })
}

/// The domain that is answered of.
fn domain_of(reply: &Reply) -> &Identifier
    ensures { result.now ≡ domain_of reply.now }
{
    match reply {
        Reply::Segment { domain, .. } => domain,
        Reply::Ended { domain } => domain,
        Reply::Failed { domain, .. } => domain,
    }
}

/// The request of that number is answered, after which nothing is asked.
fn reply_alone(
    alloc: Global,
    own: &mut Client,
    tables: &mut DomainTables,
    number: u32,
    reply: &Reply,
) -> Result<(), Memory>
    requires settled { own.old ≡ settled own.old.row }
    requires loads { answers_load own.old.row.client reply.now tables.old.domains ≡ true }
    requires of_load { is_of_load reply.now ≡ true }
    ensures told { OnOk result (own.new ≡ settled
        (felt_all (reply_told number None (domain_of reply.now)) own.old.row)) }
    ensures after { OnOk result (tables.new
        ≡ record tables.old { domains = reply_after reply.now tables.old.domains }) }
    ensures kept { OnErr result (own.new ≡ own.old) }
    ensures same { OnErr result (tables.new ≡ tables.old) }
{
    let client = own.part().client();
    tables.replied(alloc, client, reply)?;
    own.settles(number);
    Ok(())
}

/// The request of that number is answered, and then that is asked about the same domain, under the next number.
fn reply_and_ask(
    alloc: Global,
    own: &mut Client,
    tables: &mut DomainTables,
    number: u32,
    reply: &Reply,
    kind: Asked,
) -> Result<(), Memory>
    requires settled { own.old ≡ settled own.old.row }
    requires open { is_open own.old.row.association ≡ true }
    requires next { is_none (next_ask own.old.row) ≡ false }
    requires loads { answers_load own.old.row.client reply.now tables.old.domains ≡ true }
    requires of_load { is_of_load reply.now ≡ true }
    ensures told { OnOk result (own.new ≡ settled
        (felt_all (reply_told number (Some kind) (domain_of reply.now)) own.old.row)) }
    ensures after { OnOk result (tables.new
        ≡ record tables.old { domains = reply_after reply.now tables.old.domains }) }
    ensures kept { OnErr result (own.new ≡ own.old) }
    ensures same { OnErr result (tables.new ≡ tables.old) }
{
    let Some(next) = own.part().next_ask() else {
        unreachable!()
    };
    let client = own.part().client();
    let asking = own.spelled_ask(alloc, next, kind, domain_of(reply))?;
    let domain = domain_of(reply).copy(alloc)?;
    own.reserve_to_ask(1)?;
    if let Err(error) = tables.replied(alloc, client, reply) {
        own.release();
        return Err(error);
    }
    own.settles(number);
    own.ask(kind, domain, asking);
    Ok(())
}

/// A client answers the server's request of that number, which is of a load, or won't: what is loaded changes so, the
/// request isn't unanswered any more, and what comes next is asked. Without memory all is as before.
pub fn reply(
    alloc: Global,
    own: &mut Client,
    tables: &mut DomainTables,
    number: u32,
    answer: Came<'_>,
) -> Result<(), Memory>
    requires settled { own.old ≡ settled own.old.row }
    requires open { is_open own.old.row.association ≡ true }
    requires load { AnswersLoad own.old.row number (came answer) tables.old }
    requires number { (facts : Facts) (invoke : ℕ)
        → lacks_number_in (replied number (came answer)) facts own.old.row invoke tables.old
        ≡ false }
    ensures served { OnOk result ((facts : Facts) (invoke : ℕ)
        → IsServedIn (replied number (came answer.entry)) facts invoke own.old.row
        tables.old tables.new own.new) }
    ensures kept { OnErr result (own.new ≡ own.old) }
    ensures same { OnErr result (tables.new ≡ tables.old) }
{
    let Some((asked, domain)) = own.part().asked(number) else {
        unreachable!()
    };
    let reply = reply_of(alloc, answer, asked, domain)?;
    match tables.domains().asked_next(&reply) {
        None => reply_alone(alloc, own, tables, number, &reply),
        Some(kind) => reply_and_ask(alloc, own, tables, number, &reply, kind),
    }
}
