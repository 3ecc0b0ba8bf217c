ghost use Rattle.std.specs.Prelude.{◌≡◌, ◌==◌, ◌<◌, ◌≤◌, ◌↔◌, ℕ, Bool, not, [], IfOk, IfSome, IsSome, None, OnErr, Some, length, nat_lt, slice_get, take, ◌≢◌};
ghost use Rattle.std.specs.Map.{keys_of};
ghost use Rattle.std.specs.List.{IsDistinct};
ghost use Rattle.std.specs.Option.{option_copied};
ghost use Rattle.domain_load.specs.Domains.{attributes, delete_cause, is_there, name_eq, named, names_after, without, without_loads};
ghost use Rattle.domain_load.specs.Standing.{is_live, is_loaded_by, is_loading};

use crate::Domain;
use crate::loading::put_row;
use crate::sorted::{comes_after, copied_names, in_order, put_name};
use indexmap::IndexMap;
use mms_types::{DomainAttributes, Identifier, Memory, ServiceError};
use object_names::Names;
use std::alloc::Global;
use std::marker::Model;

/// The domains of a device (ISO 9506-1, domain management). Contracts see the list of them under their names, in the
/// order in which their loads began.
pub struct Domains {
    pub(crate) rows: IndexMap<Identifier, Domain>,
}

impl Model for Domains {
    ghost use Rattle.std.specs.Prelude.{◌≤◌, length};
    ghost use Rattle.domain_load.specs.Domains.{Rows};

    ghost Value = { Rows };

    ghost view = { λ domains. domains.rows.entries };

    ghost invariant = { λ domains. length domains.rows.entries ≤ 256 };
}

impl Domains {
    /// No domains. Nothing is allocated.
    pub fn new(alloc: Global) -> Domains
        ensures { result ≡ [] }
    {
        Domains {
            rows: IndexMap::new(alloc),
        }
    }

    /// How many domains there are, in whatever state: at most 256, and no two of one name.
    pub fn len(&self) -> usize
        ensures count { result ≡ length self.now }
        ensures most { length self.now ≤ 256 }
        ensures distinct { IsDistinct name_eq (keys_of self.now) }
    {
        self.rows.len()
    }

    /// Whether there is none.
    pub fn is_empty(&self) -> bool
        ensures { result ≡ (length self.now == 0) }
    {
        self.rows.is_empty()
    }

    /// The name and the domain at a place, counted from 0 in the order in which their loads began. None exactly where
    /// there are not as many. It takes no memory.
    pub fn at(&self, place: usize) -> Option<(&Identifier, &Domain)>
        ensures row { IfSome result (λ row. slice_get self.now place
            ≡ Some (row.0.now, row.1.now)) }
        ensures found { IsSome result ↔ (place < length self.now) }
    {
        self.rows.get_index(place)
    }

    /// The domain of that name: None exactly where it is missing. The time doesn't grow with the table.
    pub fn named(&self, name: &Identifier) -> Option<&Domain>
        ensures { option_copied result ≡ named name.now self.now }
    {
        self.rows.get(name)
    }

    /// Whether the domain of that name is there and LOADING.
    pub fn is_loading(&self, name: &Identifier) -> bool
        ensures { result ≡ is_there is_loading name.now self.now }
    {
        match self.named(name) {
            None => false,
            Some(domain) => domain.is_loading(),
        }
    }

    /// Whether the domain of that name is live: there, and READY or IN-USE.
    pub fn is_live(&self, name: &Identifier) -> bool
        ensures { result ≡ is_there is_live name.now self.now }
    {
        match self.named(name) {
            None => false,
            Some(domain) => domain.is_live(),
        }
    }

    /// Whether that client loads the domain of that name.
    pub fn is_loaded_by(&self, client: u32, name: &Identifier) -> bool
        ensures { result ≡ is_there (is_loaded_by client) name.now self.now }
    {
        match self.named(name) {
            None => false,
            Some(domain) => domain.is_loaded_by(client),
        }
    }

    /// The names of domains, in whatever state, that come after that one, which need not be there, in order of octets:
    /// the first `most` of them, and whether more are left (ISO 9506-2, GetNameList). The one refusal is want of
    /// memory.
    pub fn names_after(
        &self,
        alloc: Global,
        after: Option<&Identifier>,
        most: usize,
    ) -> Result<Names, Memory>
        ensures list { IfOk result (λ names. names.list
            ≡ take most (names_after (option_copied after.entry) self.now)) }
        ensures more { IfOk result (λ names. names.more
            ≡ nat_lt most (length (names_after (option_copied after.entry) self.now))) }
    {
        let mut first = Vec::new(alloc);
        let mut count = 0usize;
        let mut left = self.rows.len();
        while left > 0 {
            left -= 1;
            let Some((name, _)) = self.rows.get_index(left) else {
                unreachable!()
            };
            if comes_after(after, name) {
                put_name(&mut first, name, most)?;
                count += 1;
            }
        }
        Ok(Names {
            list: copied_names(alloc, &first)?,
            more: most < count,
        })
    }

    /// Why a domain is not deleted (ISO 9506-2, DeleteDomain): object-non-existent where it is missing;
    /// object-state-conflict where it is LOADING; object-constraint-conflict where an upload of it is open, as
    /// `uploads` tells, a program invocation has it, or some object has it for its scope, as `in_scope` tells.
    pub fn delete_cause(
        &self,
        name: &Identifier,
        uploads: u32,
        in_scope: bool,
    ) -> Option<ServiceError>
        ensures { result ≡ delete_cause name.now uploads in_scope self.now }
    {
        let Some(domain) = self.named(name) else {
            return Some(ServiceError::OBJECT_NON_EXISTENT);
        };
        if domain.is_loading() {
            return Some(ServiceError::OBJECT_STATE_CONFLICT);
        }
        if uploads > 0 || !domain.invocations.is_empty() || in_scope {
            return Some(ServiceError::OBJECT_CONSTRAINT_CONFLICT);
        }
        None
    }

    /// Deletes the domain of that name, against which no cause stands, with all its octets (ISO 9506-1, DeleteDomain).
    /// It takes no memory.
    pub fn delete(&mut self, name: &Identifier)
        requires { (uploads : ℕ) × (in_scope : Bool)
            × (delete_cause name.now uploads in_scope self.old ≡ None) }
        ensures { self.new ≡ without name.now self.old }
    {
        self.remove(name);
    }

    /// The domain of that name goes with all its octets, wherever it stands. It takes no memory.
    pub(crate) fn remove(&mut self, name: &Identifier)
        ensures { self.new ≡ without name.now self.old }
    {
        self.rows.shift_remove(name);
    }

    /// What the domain of that name is, with how many uploads of it are open: None exactly where it is missing; then no
    /// memory is taken (ISO 9506-2, GetDomainAttributes). A domain that is LOADING is told as well.
    pub fn attributes(
        &self,
        alloc: Global,
        name: &Identifier,
        uploads: u32,
    ) -> Result<Option<DomainAttributes>, Memory>
        requires { uploads ≤ 127 }
        ensures told { IfOk result (λ told. told ≡ attributes name.now uploads self.now) }
        ensures wants { OnErr result (attributes name.now uploads self.now ≢ None) }
    {
        let Some(domain) = self.named(name) else {
            return Ok(None);
        };
        Ok(Some(DomainAttributes {
            capabilities: domain.capabilities.copy(alloc)?,
            state: domain.state(),
            deletable: true,
            sharable: domain.sharable,
            invocations: in_order(alloc, domain.invocations.as_slice())?,
            uploads: uploads as i8,
        }))
    }

    /// A client is lost: the domains that it loads are removed, with all their octets. It takes no memory.
    #[tactic(auto, using(object_names::proofs::Fewer::still_few))]
    pub fn lose(&mut self, client: u32)
        ensures { self.new ≡ without_loads client self.old }
    {
        self.rows.retain(
            |_name: &Identifier, domain: &mut Domain| -> bool
                ensures { (result ≡ not (is_loaded_by client domain.old))
                    × (domain.new ≡ domain.old) }
            { !domain.is_loaded_by(client) },
        );
    }

    /// A copy, with its rows in the same order. The one refusal is want of memory.
    pub fn copy(&self, alloc: Global) -> Result<Domains, Memory>
        ensures { IfOk result (λ domains. domains ≡ self.now) }
    {
        Ok(Domains {
            rows: copied_rows(alloc, &self.rows)?,
        })
    }
}

/// The rows, copied.
#[tactic(auto, using(crate::proofs::RowLemmas::not_copied))]
fn copied_rows(
    alloc: Global,
    rows: &IndexMap<Identifier, Domain>,
) -> Result<IndexMap<Identifier, Domain>, Memory>
    ensures { IfOk result (λ copies. copies.entries ≡ rows.now.entries) }
{
    let _distinct = rows.len();
    let mut copies = IndexMap::new(alloc);
    for (name, domain) in rows.iter() {
        let key = name.copy(alloc)?;
        let domain = domain.copy(alloc)?;
        put_row(&mut copies, key, domain)?;
    }
    Ok(copies)
}

impl Drop for Domains {
    fn drop(self) {
        let Domains { rows: _rows } = self;
    }
}
