//! The part of a client, and what becomes of it.

ghost use Rattle.std.specs.Prelude.{◌≡◌, ◌≤◌, ◌-◌, is_none, is_some, true, false, OnOk, OnErr, OnSome, IfOk, IsOk, IfNone, IfSome, Option, None, Some};
ghost use Rattle.association.specs.Asked.{is_open};
ghost use Rattle.association.specs.Client.{drained_row, new_row, next_ask, row_with_room};
ghost use Rattle.association.specs.Negotiation.{negotiation};
ghost use Rattle.mms_pdu.specs.Pdus.{pdu_octets};
ghost use Rattle.mms_types.specs.Serves.{Serves};
ghost use Rattle.mms_types.specs.declared.pdu.Pdu.TheVariants as pdu;
ghost use Rattle.cell_client.specs.Association.{further_error, negotiated, other_error, sends, unknown_error, Takes};
ghost use Rattle.cell_client.specs.Effects.{asking_octets, felt, felt_all, server_request, settled, Asks, Sends, Settles};
ghost use Rattle.cell_client.specs.Meant.{act_verdict, effects_of, meant, told_alone, uses_no_table};
ghost use Rattle.cell_client.specs.Requests.{fits, identity, is_done, plain_answer, refuses, request_told, size_of};
ghost use Rattle.cell_client.specs.Telling.{effect_of, output_count, told_row, wait_count};

use crate::plain::{STATUS, identity};
use crate::{Act, AtOnce, ClientTold, Found};
use association::{ClientPart, Constants, outcome_of};
use mms_pdu::{
    Writer, put_answer, put_cancel_error, put_conclude_error, put_confirmed_error,
    put_initiate_error, put_initiate_response, put_reject, put_server_request,
};
use mms_types::{
    Answer, Asked, CancelError, ConfirmedError, Identifier, Initiate, Memory, Octets, Refuse,
    Reject, Request, ServerRequest, ServiceError, TerminateDownloadSequence, What,
};
use std::alloc::Global;
use std::marker::Model;

/// The part of a client: its association, and what is to be sent to it. Contracts see it as they see a `ClientPart`.
pub struct Client {
    part: ClientPart,
    /// What a PDU is spelled into before it goes to the outbox.
    out: Writer,
}

impl Model for Client {
    ghost use Rattle.association.specs.Client.{Client as RoomyRow};

    ghost Value = { RoomyRow };

    ghost view = { λ client. client.part };
}

/// The negotiated size of a PDU, and 0 where there is no association.
pub fn size_of(part: &ClientPart) -> u32
    ensures { result ≡ size_of part.now.row.association }
{
    match part.negotiated() {
        None => 0,
        Some(values) => values.size,
    }
}

/// The request by which that is asked about a domain. A discard says why: the state of the device, a problem of the
/// transfer.
fn server_request(kind: Asked, domain: Identifier) -> ServerRequest
    ensures { result ≡ server_request kind domain }
{
    match kind {
        Asked::Segment => ServerRequest::DownloadSegment(domain),
        Asked::Terminate => ServerRequest::TerminateDownloadSequence(TerminateDownloadSequence {
            domain,
            discard: None,
        }),
        Asked::Discard => ServerRequest::TerminateDownloadSequence(TerminateDownloadSequence {
            domain,
            discard: Some(ServiceError::DOMAIN_TRANSFER_PROBLEM),
        }),
    }
}

/// Appends a PDU, as it is spelled there, to what is to be sent.
fn push_spelled(alloc: Global, part: &mut ClientPart, out: &Writer) -> Result<(), Memory>
    ensures sent { OnOk result (part.new
        ≡ settled (felt (Sends (What.Octets out.now)) part.old.row)) }
    ensures kept { OnErr result (part.new ≡ part.old) }
{
    let octets = Octets::from_slice(alloc, out.octets())?;
    part.reserve(1, 0)?;
    part.push(What::Octets(octets));
    Ok(())
}

impl Client {
    /// The part of a client of that number, with which there is no association.
    pub fn new(alloc: Global, client: u32, device: Constants) -> Client
        ensures { result ≡ settled (new_row client device) }
    {
        Client {
            part: ClientPart::new(alloc, client, device),
            out: Writer::new(alloc),
        }
    }

    /// The association, and what is to be sent.
    pub fn part(&self) -> &ClientPart
        ensures { result.now ≡ self.now }
    {
        &self.part
    }

    /// The octets of a positive answer.
    pub fn spelled_answer(
        &mut self,
        alloc: Global,
        invoke: u32,
        answer: &Answer,
    ) -> Result<Octets, Memory>
        ensures octets { IfOk result (λ octets.
            octets ≡ pdu_octets (pdu.ConfirmedResponse invoke answer.now)) }
        ensures kept { self.new ≡ self.old }
    {
        self.out.truncate(0);
        put_answer(&mut self.out, invoke, answer)?;
        Octets::from_slice(alloc, self.out.octets())
    }

    /// Appends an abort to what is to be sent.
    fn abort(&mut self) -> Result<(), Memory>
        ensures sent { OnOk result (self.new ≡ settled (felt (Sends What.Abort) self.old.row)) }
        ensures kept { OnErr result (self.new ≡ self.old) }
    {
        self.part.reserve(1, 0)?;
        self.part.push(What::Abort);
        Ok(())
    }

    /// Refuses a proposal.
    fn decline(&mut self, alloc: Global, error: ServiceError) -> Result<(), Memory>
        ensures sent { OnOk result (self.new
            ≡ settled (felt (sends (pdu.InitiateError error)) self.old.row)) }
        ensures kept { OnErr result (self.new ≡ self.old) }
    {
        self.out.truncate(0);
        put_initiate_error(&mut self.out, &error)?;
        push_spelled(alloc, &mut self.part, &self.out)
    }

    /// Negotiates a proposal.
    fn negotiate(&mut self, alloc: Global, proposal: &Initiate) -> Result<(), Memory>
        ensures negotiated { OnOk result
            (self.new ≡ settled (felt_all (negotiated (negotiation proposal.now)) self.old.row)) }
        ensures kept { OnErr result (self.new ≡ self.old) }
    {
        match outcome_of(proposal) {
            Err(error) => self.decline(alloc, error),
            Ok(answer) => {
                self.out.truncate(0);
                put_initiate_response(&mut self.out, &answer)?;
                let octets = Octets::from_slice(alloc, self.out.octets())?;
                self.part.reserve(1, 0)?;
                let _ = self.part.negotiate(proposal);
                self.part.push(What::Octets(octets));
                Ok(())
            }
        }
    }

    /// Rejects what was sent.
    fn reject(&mut self, alloc: Global, reject: Reject) -> Result<(), Memory>
        ensures sent { OnOk result (self.new
            ≡ settled (felt (sends (pdu.Reject reject)) self.old.row)) }
        ensures kept { OnErr result (self.new ≡ self.old) }
    {
        self.out.truncate(0);
        put_reject(&mut self.out, &reject)?;
        push_spelled(alloc, &mut self.part, &self.out)
    }

    /// Refuses a conclusion.
    fn keep_open(&mut self, alloc: Global) -> Result<(), Memory>
        ensures sent { OnOk result (self.new
            ≡ settled (felt (sends (pdu.ConcludeError further_error)) self.old.row)) }
        ensures kept { OnErr result (self.new ≡ self.old) }
    {
        self.out.truncate(0);
        put_conclude_error(&mut self.out, &ServiceError::FURTHER_COMMUNICATION_REQUIRED)?;
        push_spelled(alloc, &mut self.part, &self.out)
    }

    /// Refuses to cancel a request that doesn't wait.
    fn deny_cancel(&mut self, alloc: Global, invoke: u32) -> Result<(), Memory>
        ensures sent { OnOk result (self.new ≡ settled (felt
            (sends (pdu.CancelError (record { invoke = invoke; error = unknown_error })))
            self.old.row)) }
        ensures kept { OnErr result (self.new ≡ self.old) }
    {
        let error = ServiceError::INVOKE_ID_UNKNOWN;
        self.out.truncate(0);
        put_cancel_error(&mut self.out, &CancelError { invoke, error })?;
        push_spelled(alloc, &mut self.part, &self.out)
    }

    /// Tells the client something.
    fn say(&mut self, alloc: Global, said: &AtOnce<'_>) -> Result<(), Memory>
        ensures told { OnOk result (self.new
            ≡ settled (felt_all (effects_of said.now) self.old.row)) }
        ensures kept { OnErr result (self.new ≡ self.old) }
    {
        match *said {
            AtOnce::Nothing => {
                self.part.release();
                Ok(())
            }
            AtOnce::Abort => self.abort(),
            AtOnce::Reject(reject) => self.reject(alloc, reject),
            AtOnce::Negotiation(proposal) => self.negotiate(alloc, proposal),
            AtOnce::NoConclusion => self.keep_open(alloc),
            AtOnce::NoCancel(invoke) => self.deny_cancel(alloc, invoke),
            AtOnce::Settles(number) => {
                let _settled = self.part.settled(number);
                self.part.release();
                Ok(())
            }
        }
    }

    /// Refuses a confirmed request.
    pub fn refuse(&mut self, alloc: Global, invoke: u32, error: ServiceError) -> Result<(), Memory>
        ensures sent { OnOk result (self.new ≡ settled (felt (refuses invoke error) self.old.row)) }
        ensures kept { OnErr result (self.new ≡ self.old) }
    {
        let error = ConfirmedError {
            invoke,
            modifier: None,
            error,
        };
        self.out.truncate(0);
        put_confirmed_error(&mut self.out, &error)?;
        push_spelled(alloc, &mut self.part, &self.out)
    }

    /// Answers a confirmed request, or refuses it where the answer is too long.
    pub fn answer(
        &mut self,
        alloc: Global,
        size: u32,
        invoke: u32,
        answer: &Answer,
    ) -> Result<bool, Memory>
        ensures sent { OnOk result (self.new
            ≡ settled (felt_all (request_told size invoke None (Some answer.now)) self.old.row)) }
        // Whether it is answered.
        ensures fits { IfOk result (λ answered. answered ≡ fits size invoke (Some answer.now)) }
        ensures kept { OnErr result (self.new ≡ self.old) }
    {
        let octets = self.spelled_answer(alloc, invoke, answer)?;
        if octets.len() > size as usize {
            self.refuse(alloc, invoke, ServiceError::OTHER)?;
            return Ok(false);
        }
        self.part.reserve(1, 0)?;
        self.part.push(What::Octets(octets));
        Ok(true)
    }

    /// Spells the answer to a confirmed request, and makes room for it. None where it is longer than was negotiated: the
    /// request is refused.
    pub fn ready(
        &mut self,
        alloc: Global,
        invoke: u32,
        answer: &Answer,
    ) -> Result<Option<Octets>, Memory>
        ensures fits { IfOk result (λ ready. is_some ready
            ≡ fits (size_of self.old.row.association) invoke (Some answer.now)) }
        ensures octets { IfOk result (λ ready. IfSome ready (λ octets.
            octets ≡ pdu_octets (pdu.ConfirmedResponse invoke answer.now))) }
        ensures room { IfOk result (λ ready. OnSome ready (self.new
            ≡ row_with_room self.old.row 1 0 0)) }
        ensures refused { IfOk result (λ ready. IfNone ready (self.new
            ≡ settled (felt (refuses invoke other_error) self.old.row))) }
        ensures kept { OnErr result (self.new ≡ self.old) }
    {
        let octets = self.spelled_answer(alloc, invoke, answer)?;
        if octets.len() > size_of(&self.part) as usize {
            self.refuse(alloc, invoke, ServiceError::OTHER)?;
            return Ok(None);
        }
        self.part.reserve(1, 0)?;
        Ok(Some(octets))
    }

    /// Answers a confirmed request by what its service says, or refuses it: for its cause, or where the answer is longer
    /// than was negotiated. Whether it is answered.
    pub fn settle(
        &mut self,
        alloc: Global,
        invoke: u32,
        said: &Result<Answer, Refuse>,
    ) -> Result<bool, Memory>
        ensures told { OnOk result ((why : Option ServiceError) (answer : Option Answer)
            → Serves said.now why answer → self.new ≡ settled (felt_all
            (request_told (size_of self.old.row.association) invoke why answer) self.old.row)) }
        ensures done { IfOk result (λ done. (why : Option ServiceError) (answer : Option Answer)
            → Serves said.now why answer
            → done ≡ is_done (size_of self.old.row.association) invoke why answer) }
        ensures kept { OnErr result (self.new ≡ self.old) }
    {
        match said {
            Err(Refuse::Memory) => Err(Memory::wanting()),
            Err(Refuse::Service(error)) => {
                self.refuse(alloc, invoke, *error)?;
                Ok(false)
            }
            Ok(answer) => {
                let size = size_of(&self.part);
                self.answer(alloc, size, invoke, answer)
            }
        }
    }

    /// Answers a confirmed request, or refuses it where the answer is longer than was negotiated.
    fn respond(&mut self, alloc: Global, invoke: u32, answer: &Answer) -> Result<(), Memory>
        ensures sent { OnOk result (self.new ≡ settled (felt_all
            (request_told (size_of self.old.row.association) invoke None (Some answer.now))
            self.old.row)) }
        ensures kept { OnErr result (self.new ≡ self.old) }
    {
        let size = size_of(&self.part);
        let _answered = self.answer(alloc, size, invoke, answer)?;
        Ok(())
    }

    /// Answers a request for the status of the device.
    fn answer_status(&mut self, alloc: Global, invoke: u32) -> Result<bool, Memory>
        ensures sent { OnOk result (self.new ≡ settled (felt_all
            (request_told (size_of self.old.row.association) invoke None
            (Some (Answer.Status (record { logical = 0; physical = 0 })))) self.old.row)) }
        ensures done { IfOk result (λ done. done ≡ true) }
        ensures kept { OnErr result (self.new ≡ self.old) }
    {
        let size = size_of(&self.part);
        let _answered = self.answer(alloc, size, invoke, &STATUS)?;
        Ok(true)
    }

    /// Answers a request for what the device is.
    #[inline(never)]
    fn answer_identity(&mut self, alloc: Global, invoke: u32) -> Result<bool, Memory>
        ensures sent { OnOk result (self.new ≡ settled (felt_all
            (request_told (size_of self.old.row.association) invoke None
            (Some (identity self.old.row))) self.old.row)) }
        ensures done { IfOk result (λ done. done ≡ true) }
        ensures kept { OnErr result (self.new ≡ self.old) }
    {
        let answer = identity(alloc, &self.part)?;
        self.respond(alloc, invoke, &answer)?;
        Ok(true)
    }

    /// Answers a request that the row of the client alone answers. False for any other, where all stays as it was.
    fn serve(&mut self, alloc: Global, invoke: u32, asked: &Request) -> Result<bool, Memory>
        ensures told { IfOk result (λ done. done ≡ true → self.new ≡ settled
            (felt_all (told_alone self.old.row (Takes invoke asked.now)) self.old.row)) }
        ensures same { IfOk result (λ done. done ≡ false → self.new ≡ self.old) }
        ensures exact { IfOk result (λ done.
            done ≡ is_some (plain_answer self.old.row asked.now)) }
        ensures kept { OnErr result (self.new ≡ self.old) }
    {
        match asked {
            Request::Status(_) => self.answer_status(alloc, invoke),
            Request::Identify => self.answer_identity(alloc, invoke),
            _ => Ok(false),
        }
    }

    /// Hears what the octets of the client come to: where no table is used, all of it is done, and the client is told
    /// all that comes of it. Otherwise that is answered which is to be done on the tables, and all stays as it was, as
    /// it does without memory.
    pub fn hear<'a>(&mut self, alloc: Global, found: &Found<'a>) -> Result<Option<Act<'a>>, Memory>
        ensures done { IfOk result (λ left. IfNone left (self.new ≡ settled
            (felt_all (told_alone self.old.row (meant found.now)) self.old.row))) }
        ensures left { IfOk result (λ left. IfSome left (λ act.
            act_verdict act ≡ Some (meant found.now))) }
        ensures exact { IfOk result (λ left.
            is_none left ≡ uses_no_table self.old.row (meant found.now)) }
        ensures same { IfOk result (λ left. OnSome left (self.new ≡ self.old)) }
        ensures kept { OnErr result (self.new ≡ self.old) }
    {
        match *found {
            Found::Tells(said) => {
                self.say(alloc, &said)?;
                Ok(None)
            }
            Found::Takes(invoke, asked) => {
                if self.serve(alloc, invoke, asked)? {
                    Ok(None)
                } else {
                    Ok(Some(Act::Request { invoke, asked }))
                }
            }
            Found::Replies(number, answer) => Ok(Some(Act::Reply { number, answer })),
            Found::Concludes => Ok(Some(Act::Conclusion)),
            Found::Cancels(invoke) => Ok(Some(Act::Cancel { invoke })),
            Found::Aborts => Ok(Some(Act::Abort)),
        }
    }

    /// Makes room for so many outputs and requests that wait, in place of the room that there was. It takes no memory
    /// where there is room for as many.
    pub fn reserve(&mut self, outputs: usize, waiting: usize) -> Result<(), Memory>
        ensures made { OnOk result (self.new ≡ row_with_room self.old.row outputs waiting 0) }
        ensures kept { OnErr result (self.new ≡ self.old) }
        ensures enough { outputs ≤ self.old.output_room → waiting ≤ self.old.waiting_room
            → IsOk result }
    {
        self.part.reserve(outputs, waiting)
    }

    /// Gives up the room that is left.
    pub fn release(&mut self)
        ensures { self.new ≡ settled self.old.row }
    {
        self.part.release();
    }

    /// The client is told something. An output and a request that waits use the room for one.
    pub fn tell(&mut self, told: ClientTold)
        requires room { output_count told ≤ self.old.output_room }
        requires waiting { wait_count told ≤ self.old.waiting_room }
        ensures { self.new
            ≡ told_row (effect_of told) (output_count told) (wait_count told) self.old }
    {
        match told {
            ClientTold::Sends(output) => self.part.push(output),
            ClientTold::Closes => self.part.close(),
            ClientTold::Waits(request) => self.part.wait_admitted(request),
            ClientTold::Answers(invoke) => {
                let _waited = self.part.answered(invoke);
            }
        }
    }

    /// Octets are sent to the client. They use the room for one output.
    pub fn push(&mut self, octets: Octets)
        requires room { 1 ≤ self.old.output_room }
        ensures { self.new ≡ told_row (Sends (What.Octets octets)) 1 0 self.old }
    {
        self.part.push(What::Octets(octets));
    }

    /// The octets by which that is asked of the client about a domain, under that number.
    pub fn spelled_ask(
        &mut self,
        alloc: Global,
        number: u32,
        kind: Asked,
        domain: &Identifier,
    ) -> Result<Octets, Memory>
        ensures octets { IfOk result (λ octets. octets ≡ asking_octets number kind domain.now) }
        ensures kept { self.new ≡ self.old }
    {
        let domain = domain.copy(alloc)?;
        self.out.truncate(0);
        put_server_request(&mut self.out, number, &server_request(kind, domain))?;
        Octets::from_slice(alloc, self.out.octets())
    }

    /// Makes room for so many outputs and for one request of the server, in place of the room that there was. Without
    /// memory there is none.
    pub fn reserve_to_ask(&mut self, outputs: usize) -> Result<(), Memory>
        ensures made { OnOk result (self.new ≡ row_with_room self.old.row outputs 0 1) }
        ensures none { OnErr result (self.new ≡ settled self.old.row) }
    {
        self.part.release();
        self.part.reserve(outputs, 0)?;
        if let Err(error) = self.part.reserve_asked(1) {
            self.part.release();
            return Err(error);
        }
        Ok(())
    }

    /// Something is asked of the client about a domain, by those octets. It uses the room for one output and for one
    /// request of the server.
    pub fn ask(&mut self, kind: Asked, domain: Identifier, octets: Octets)
        requires output { 1 ≤ self.old.output_room }
        requires asked { 1 ≤ self.old.asked_room }
        requires open { is_open self.old.row.association ≡ true }
        requires number { next_ask self.old.row ≡ Some self.old.row.next_invoke }
        requires octets { octets ≡ asking_octets self.old.row.next_invoke kind domain }
        ensures { self.new ≡ row_with_room (felt (Asks kind domain) self.old.row)
            (self.old.output_room - 1) self.old.waiting_room (self.old.asked_room - 1) }
    {
        let _number = self.part.ask(kind, domain);
        self.part.push(What::Octets(octets));
    }

    /// The server's request of that number isn't unanswered any more. The room stays.
    pub fn settles(&mut self, number: u32)
        ensures { self.new ≡ record self.old { row = felt (Settles number) self.old.row } }
    {
        let _settled = self.part.settled(number);
    }

    /// Hands on what is to be sent.
    pub fn drain(&mut self) -> Vec<What>
        ensures outputs { result.items ≡ self.old.row.outbox }
        ensures emptied { self.new ≡ settled (drained_row self.old.row) }
    {
        self.part.release();
        self.part.drain()
    }
}

impl Drop for Client {
    fn drop(self) {
        let Client {
            part: _part,
            out: _out,
        } = self;
    }
}
