//! How a domain is loaded: InitiateDownloadSequence, and the client's answers to what the server asks of it.
ghost use Rattle.std.specs.Prelude.{◌≡◌, ◌∷◌, ◌++◌, [], if◌then◌else◌, Bool, IfOk, None, OnErr, OnOk, Some, false, length, true};
ghost use Rattle.std.specs.Map.{lookup};
ghost use Rattle.mms_types.specs.declared.asked.Reply.TheVariants as reply;
ghost use Rattle.mms_types.specs.declared.asked.Also.TheVariants.{Ask};
ghost use Rattle.mms_types.specs.declared.asked.Asked.TheVariants.{Discard, Segment, Terminate};
ghost use Rattle.domain_load.specs.Loading.{also_asked, answers_load, asked_next, changed, initiate_after, initiate_cause, is_of_load, loaded, reply_after, with_segment, would_pass};
ghost use Rattle.domain_load.specs.Domains.{is_there, name_eq};
ghost use Rattle.domain_load.specs.Standing.{is_loaded_by};

use crate::{Domain, Domains, Invocations, Segments};
use indexmap::IndexMap;
use mms_types::{
    Also, Asked, Identifier, InitiateDownloadSequence, Memory, Octets, Reply, ServiceError,
};
use std::alloc::Global;

/// The most domains.
const MOST_DOMAINS: usize = 256;

/// The most octets of a domain.
const MOST_OCTETS: u32 = 1_048_576;

impl Domains {
    /// Why no load begins (ISO 9506-2, InitiateDownloadSequence): object-exists where there is a domain of that name,
    /// in whatever state; capability-unavailable where there are 256 domains, or the client has no room for one more
    /// request of the server, as `calling_left` tells.
    pub fn initiate_download_cause(
        &self,
        asked: &InitiateDownloadSequence,
        calling_left: bool,
    ) -> Option<ServiceError>
        ensures { result ≡ initiate_cause calling_left asked.now self.now }
    {
        if self.named(&asked.domain).is_some() {
            return Some(ServiceError::OBJECT_EXISTS);
        }
        if self.rows.len() >= MOST_DOMAINS || !calling_left {
            return Some(ServiceError::CAPABILITY_UNAVAILABLE);
        }
        None
    }

    /// A client begins to load a domain (ISO 9506-1, InitiateDownloadSequence): it is the last one, LOADING and without
    /// segments, and the client is asked for the first. The one refusal is want of memory; then all is as before.
    #[tactic(auto, using(crate::proofs::Unopposed::nothing_against, crate::proofs::Unopposed::one_more))]
    pub fn initiate_download(
        &mut self,
        alloc: Global,
        by: u32,
        asked: &InitiateDownloadSequence,
    ) -> Result<Also, Memory>
        requires { (left : Bool) × (initiate_cause left asked.now self.old ≡ None) }
        ensures begun { OnOk result (self.new ≡ initiate_after by asked.now self.old) }
        ensures also { IfOk result (λ also. also ≡ Ask by Segment asked.now.domain) }
        ensures kept { OnErr result (self.new ≡ self.old) }
    {
        let name = asked.domain.copy(alloc)?;
        let also = Also::Ask {
            client: by,
            kind: Asked::Segment,
            domain: asked.domain.copy(alloc)?,
        };
        let domain = Domain {
            capabilities: asked.capabilities.copy(alloc)?,
            sharable: asked.sharable,
            loader: Some(by),
            segments: Segments::new(alloc),
            invocations: Invocations::new(alloc),
        };
        put_row(&mut self.rows, name, domain)?;
        Ok(also)
    }

    /// The client that loads a domain has answered what the server asked of it (ISO 9506-1, DownloadSegment and
    /// TerminateDownloadSequence), or refused it. A segment is appended, and the next one is asked for, or the end of
    /// the load; a load that ends makes the domain READY; one that fails, or whose octets would be more than 1,048,576,
    /// removes it with all its octets. What is told is what the client is asked next, if anything is. The one refusal
    /// is want of memory; then all is as before.
    pub fn replied(&mut self, alloc: Global, by: u32, reply: &Reply) -> Result<Option<Also>, Memory>
        requires loads { answers_load by reply.now self.old ≡ true }
        requires of_load { is_of_load reply.now ≡ true }
        ensures after { OnOk result (self.new ≡ reply_after reply.now self.old) }
        ensures also { IfOk result (λ also. also ≡ also_asked by reply.now self.old) }
        ensures kept { OnErr result (self.new ≡ self.old) }
    {
        match reply {
            Reply::Segment {
                domain,
                octets,
                more,
            } => self.take_segment(alloc, by, domain, octets, *more),
            Reply::Ended { domain } => {
                end_load(&mut self.rows, domain);
                Ok(None)
            }
            Reply::Failed { domain, asked } => {
                let also = match asked {
                    Asked::Segment => Some(ask(alloc, by, Asked::Discard, domain)?),
                    _ => None,
                };
                self.remove(domain);
                Ok(also)
            }
        }
    }

    /// What the client is asked next where it has answered that, if anything is. Nothing changes yet, and no memory is
    /// taken.
    pub fn asked_next(&self, reply: &Reply) -> Option<Asked>
        ensures { result ≡ asked_next reply.now self.now }
    {
        match reply {
            Reply::Segment {
                domain,
                octets,
                more,
            } => Some(asked_after(self.passes(domain, octets.len()), *more)),
            Reply::Ended { .. } => None,
            Reply::Failed { asked, .. } => match asked {
                Asked::Segment => Some(Asked::Discard),
                Asked::Terminate | Asked::Discard => None,
            },
        }
    }

    /// Whether the domain of that name is there and would have too many octets with so many more.
    fn passes(&self, name: &Identifier, more: usize) -> bool
        ensures { result ≡ is_there (would_pass more) name.now self.now }
    {
        match self.named(name) {
            None => false,
            Some(domain) => domain.would_pass(more),
        }
    }

    /// A segment has come: it is appended, and the next is asked for or the end; or the domain is removed.
    fn take_segment(
        &mut self,
        alloc: Global,
        by: u32,
        name: &Identifier,
        octets: &Octets,
        more: bool,
    ) -> Result<Option<Also>, Memory>
        requires { is_there (is_loaded_by by) name.now self.old ≡ true }
        ensures after { OnOk result (self.new
            ≡ reply_after (reply.Segment name.now octets.now more) self.old) }
        ensures also { IfOk result (λ also. also
            ≡ also_asked by (reply.Segment name.now octets.now more) self.old) }
        ensures kept { OnErr result (self.new ≡ self.old) }
    {
        let Some(domain) = self.named(name) else {
            unreachable!()
        };
        let passes = domain.would_pass(octets.len());
        let also = ask(alloc, by, asked_after(passes, more), name)?;
        if passes {
            self.remove(name);
        } else {
            put_segment(alloc, &mut self.rows, name, octets.as_slice())?;
        }
        Ok(Some(also))
    }
}

/// What is asked of a client.
fn ask(alloc: Global, client: u32, kind: Asked, domain: &Identifier) -> Result<Also, Memory>
    ensures { IfOk result (λ also. also ≡ Ask client kind domain.now) }
{
    Ok(Also::Ask {
        client,
        kind,
        domain: domain.copy(alloc)?,
    })
}

/// What is asked after a segment.
fn asked_after(passes: bool, more: bool) -> Asked
    ensures { result ≡ (if passes then Discard else if more then Segment else Terminate) }
{
    if passes {
        return Asked::Discard;
    }
    if more {
        Asked::Segment
    } else {
        Asked::Terminate
    }
}

impl Domain {
    /// Whether there would be too many octets with so many more.
    fn would_pass(&self, more: usize) -> bool
        ensures { result ≡ would_pass more self.now }
    {
        let room = MOST_OCTETS - self.octets();
        more > room as usize
    }

    /// A segment is appended. The one refusal is want of memory; then all is as before.
    fn append(&mut self, alloc: Global, octets: &[u8]) -> Result<(), Memory>
        requires { would_pass (length octets.now) self.old ≡ false }
        ensures appended { OnOk result (self.new ≡ with_segment octets.now self.old) }
        ensures kept { OnErr result (self.new ≡ self.old) }
    {
        self.segments.push(alloc, octets)
    }

    /// No client loads it any more.
    fn end(&mut self)
        ensures { self.new ≡ loaded self.old }
    {
        self.loader = None;
    }
}

/// The segment is appended to the domain of that name. The one refusal is want of memory; then all is as before.
fn put_segment(
    alloc: Global,
    rows: &mut IndexMap<Identifier, Domain>,
    name: &Identifier,
    octets: &[u8],
) -> Result<(), Memory>
    requires { is_there (would_pass (length octets.now)) name.now rows.old.entries ≡ false }
    ensures appended { OnOk result (rows.new.entries
        ≡ changed name.now (with_segment octets.now) rows.old.entries) }
    ensures kept { OnErr result (rows.new.entries ≡ rows.old.entries) }
    ensures many { length rows.new.entries ≡ length rows.old.entries }
{
    match rows.get_mut(name) {
        Some(domain) => domain.append(alloc, octets),
        None => Ok(()),
    }
}

/// The load of the domain of that name has ended.
fn end_load(rows: &mut IndexMap<Identifier, Domain>, name: &Identifier)
    ensures ended { rows.new.entries ≡ changed name.now loaded rows.old.entries }
    ensures many { length rows.new.entries ≡ length rows.old.entries }
{
    if let Some(domain) = rows.get_mut(name) {
        domain.end();
    }
}

/// A domain is put behind all others, of which none has its name. The one refusal is want of memory; then all is as
/// before.
pub(crate) fn put_row(
    rows: &mut IndexMap<Identifier, Domain>,
    name: Identifier,
    domain: Domain,
) -> Result<(), Memory>
    requires { lookup (name_eq name) rows.old.entries ≡ None }
    ensures placed { OnOk result (rows.new.entries ≡ rows.old.entries ++ (name, domain) ∷ []) }
    ensures kept { OnErr result (rows.new.entries ≡ rows.old.entries) }
{
    match rows.insert(name, domain) {
        Ok(_) => Ok(()),
        Err(_) => Err(Memory::wanting()),
    }
}
