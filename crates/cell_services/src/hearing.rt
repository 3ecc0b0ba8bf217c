//! What is heard from a client, and what is left of it to be done on the tables.

ghost use Rattle.std.specs.Prelude.{◌≡◌, is_none, true, Some, OnErr, OnOk, IfSome};
ghost use Rattle.association.specs.Client.{ClientRow};
ghost use Rattle.cell_client.specs.Meant.{act_verdict, meant, uses_no_table};
ghost use Rattle.cell_services.specs.Meant.{IsPlainlyHeard};

use cell_client::{Act, Client, Found};
use mms_types::{Memory, Request};
use std::alloc::Global;

/// What is to be done on the tables where a client's octets come to that; nothing, where no table is used.
pub fn left_of<'a>(found: &Found<'a>) -> Option<Act<'a>>
    ensures left { IfSome result (λ act. act_verdict act ≡ Some (meant found.now)) }
    ensures exact { (row : ClientRow) → is_none result ≡ uses_no_table row (meant found.now) }
{
    match *found {
        Found::Tells(_) | Found::Takes(_, Request::Status(_) | Request::Identify) => None,
        Found::Takes(invoke, asked) => Some(Act::Request { invoke, asked }),
        Found::Replies(number, answer) => Some(Act::Reply { number, answer }),
        Found::Concludes => Some(Act::Conclusion),
        Found::Cancels(invoke) => Some(Act::Cancel { invoke }),
        Found::Aborts => Some(Act::Abort),
    }
}

/// Hears what the octets of a client come to, where no table is used. Without memory all stays as it was.
pub fn hear(alloc: Global, own: &mut Client, found: &Found<'_>) -> Result<(), Memory>
    requires alone { uses_no_table own.old.row (meant found.now) ≡ true }
    ensures done { OnOk result (IsPlainlyHeard own.old.row own.new (meant found.now)) }
    ensures kept { OnErr result (own.new ≡ own.old) }
{
    let _none = own.hear(alloc, found)?;
    Ok(())
}
