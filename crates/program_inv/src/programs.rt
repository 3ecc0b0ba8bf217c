ghost use Rattle.std.specs.Prelude.{◌≡◌, ◌==◌, ◌<◌, ◌≤◌, ◌↔◌, [], IfOk, IfSome, IsSome, None, OnErr, Some, length, nat_lt, slice_get, take, ◌≢◌};
ghost use Rattle.std.specs.Map.{keys_of};
ghost use Rattle.std.specs.List.{IsDistinct};
ghost use Rattle.std.specs.Option.{option_copied};
ghost use Rattle.domain_load.specs.Domains.{name_eq};
ghost use Rattle.program_inv.specs.Programs.{after_delete, attributes, delete_cause, named, names_after};

use crate::Invocation;
use crate::create::put_row;
use domain_load::{comes_after, copied_names, put_name};
use indexmap::IndexMap;
use mms_types::{Identifier, InvocationAttributes, Memory, ServiceError};
use object_names::Names;
use std::alloc::Global;
use std::marker::Model;

/// The program invocations of a device (ISO 9506-1, program invocation management). Contracts see the list of them
/// under their names, in the order in which they were made.
pub struct Programs {
    pub(crate) rows: IndexMap<Identifier, Invocation>,
}

impl Model for Programs {
    ghost use Rattle.std.specs.Prelude.{◌≤◌, length};
    ghost use Rattle.program_inv.specs.Programs.{Rows};

    ghost Value = { Rows };

    ghost view = { λ programs. programs.rows.entries };

    ghost invariant = { λ programs. length programs.rows.entries ≤ 256 };
}

impl Programs {
    /// No program invocations. Nothing is allocated.
    pub fn new(alloc: Global) -> Programs
        ensures { result ≡ [] }
    {
        Programs {
            rows: IndexMap::new(alloc),
        }
    }

    /// How many program invocations there are, in whatever state: at most 256, and no two of one name.
    pub fn len(&self) -> usize
        ensures count { result ≡ length self.now }
        ensures most { length self.now ≤ 256 }
        ensures distinct { IsDistinct name_eq (keys_of self.now) }
    {
        self.rows.len()
    }

    /// Whether there is none.
    pub fn is_empty(&self) -> bool
        ensures { result ≡ (length self.now == 0) }
    {
        self.rows.is_empty()
    }

    /// The name and the program invocation at a place, counted from 0 in the order in which they were made. None
    /// exactly where there are not as many. It takes no memory.
    pub fn at(&self, place: usize) -> Option<(&Identifier, &Invocation)>
        ensures row { IfSome result (λ row. slice_get self.now place
            ≡ Some (row.0.now, row.1.now)) }
        ensures found { IsSome result ↔ (place < length self.now) }
    {
        self.rows.get_index(place)
    }

    /// The program invocation of that name: None exactly where it is missing. The time doesn't grow with the table.
    pub fn named(&self, name: &Identifier) -> Option<&Invocation>
        ensures { option_copied result ≡ named name.now self.now }
    {
        self.rows.get(name)
    }

    /// The names of program invocations that come after that one, which need not be there, in order of octets: the
    /// first `most` of them, and whether more are left (ISO 9506-2, GetNameList). The one refusal is want of memory.
    pub fn names_after(
        &self,
        alloc: Global,
        after: Option<&Identifier>,
        most: usize,
    ) -> Result<Names, Memory>
        ensures list { IfOk result (λ names. names.list
            ≡ take most (names_after (option_copied after.entry) self.now)) }
        ensures more { IfOk result (λ names. names.more
            ≡ nat_lt most (length (names_after (option_copied after.entry) self.now))) }
    {
        let mut first = Vec::new(alloc);
        let mut count = 0usize;
        let mut left = self.rows.len();
        while left > 0 {
            left -= 1;
            let Some((name, _)) = self.rows.get_index(left) else {
                unreachable!()
            };
            if comes_after(after, name) {
                put_name(&mut first, name, most)?;
                count += 1;
            }
        }
        Ok(Names {
            list: copied_names(alloc, &first)?,
            more: most < count,
        })
    }

    /// Why a program invocation is not deleted (ISO 9506-2, DeleteProgramInvocation): object-non-existent where it is
    /// missing; object-state-conflict where it runs.
    pub fn delete_cause(&self, name: &Identifier) -> Option<ServiceError>
        ensures { result ≡ delete_cause name.now self.now }
    {
        match self.named(name) {
            None => Some(ServiceError::OBJECT_NON_EXISTENT),
            Some(found) if found.is_running() => Some(ServiceError::OBJECT_STATE_CONFLICT),
            Some(_) => None,
        }
    }

    /// Deletes the program invocation of that name, against which no cause stands (ISO 9506-1,
    /// DeleteProgramInvocation). It takes no memory.
    pub fn delete(&mut self, name: &Identifier)
        requires { delete_cause name.now self.old ≡ None }
        ensures { self.new ≡ after_delete name.now self.old }
    {
        self.rows.shift_remove(name);
    }

    /// What the program invocation of that name is: None exactly where it is missing; then no memory is taken
    /// (ISO 9506-2, GetProgramInvocationAttributes).
    pub fn attributes(
        &self,
        alloc: Global,
        name: &Identifier,
    ) -> Result<Option<InvocationAttributes>, Memory>
        ensures told { IfOk result (λ told. told ≡ attributes name.now self.now) }
        ensures wants { OnErr result (attributes name.now self.now ≢ None) }
    {
        match self.named(name) {
            None => Ok(None),
            Some(found) => Ok(Some(found.attributes(alloc)?)),
        }
    }

    /// A client is lost: nothing changes. A program invocation is nobody's, and goes on running.
    pub fn lose(&mut self, _client: u32)
        ensures { self.new ≡ self.old }
    {}

    /// A copy, with its rows in the same order. The one refusal is want of memory.
    pub fn copy(&self, alloc: Global) -> Result<Programs, Memory>
        ensures { IfOk result (λ programs. programs ≡ self.now) }
    {
        Ok(Programs {
            rows: copied_rows(alloc, &self.rows)?,
        })
    }
}

/// The rows, copied.
#[tactic(auto, using(domain_load::proofs::RowLemmas::not_copied))]
fn copied_rows(
    alloc: Global,
    rows: &IndexMap<Identifier, Invocation>,
) -> Result<IndexMap<Identifier, Invocation>, Memory>
    ensures { IfOk result (λ copies. copies.entries ≡ rows.now.entries) }
{
    let _distinct = rows.len();
    let mut copies = IndexMap::new(alloc);
    for (name, invocation) in rows.iter() {
        let key = name.copy(alloc)?;
        let invocation = invocation.copy(alloc)?;
        put_row(&mut copies, key, invocation)?;
    }
    Ok(copies)
}

impl Drop for Programs {
    fn drop(self) {
        let Programs { rows: _rows } = self;
    }
}
