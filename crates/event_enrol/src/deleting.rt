//! DeleteEventEnrollment, and what goes else.
ghost use Rattle.std.specs.Prelude.{◌≡◌, ◌≤◌, IfOk, filter, not};
ghost use Rattle.std.specs.Option.{SomeIff};
ghost use Rattle.object_names.specs.Deletion.{is_listed_by, missing};
ghost use Rattle.event_enrol.specs.Deleted.{selected};
ghost use Rattle.event_enrol.specs.Enrolments.{delete_cause, is_deleted, undeleted, without_client, without_condition};
ghost use Rattle.object_names.specs.Selected.{is_among};

use crate::Enrolments;
use crate::going::Going;
use indexmap::IndexSet;
use mms_types::{DeleteEventEnrollment, Key, Memory, ObjectName, ServiceError};
use object_names::KeyRef;
use std::alloc::Global;

/// What a client asks to be deleted, with each name once, and what it is answered.
#[derive(Drop)]
pub struct Deletion<'a> {
    /// How many of the names are missing. None of a condition's enrollments is.
    pub undeleted: u32,
    going: Going<'a>,
}

/// So many, as it is told. None exactly where 32 bits don't tell as many.
fn counted(count: usize) -> Option<u32>
    ensures { SomeIff result (count ≤ 4294967295) count }
{
    u32::try_from(count).ok()
}

impl Enrolments {
    /// Why no enrollments are deleted: object-non-existent where a condition is named that isn't there (ISO 9506-2,
    /// DeleteEventEnrollment). `condition_there` is whether it is.
    pub fn delete_cause(
        &self,
        asked: &DeleteEventEnrollment,
        condition_there: bool,
    ) -> Option<ServiceError>
        ensures { result ≡ delete_cause condition_there asked.now }
    {
        match asked {
            DeleteEventEnrollment::Condition(_) if !condition_there => {
                Some(ServiceError::OBJECT_NON_EXISTENT)
            }
            _ => None,
        }
    }

    /// Which enrollments a client's request deletes, and how many of its names are missing, each counted once. Nothing
    /// changes. The one refusal is want of memory, as which it counts that more are missing than 32 bits tell.
    pub fn deletion<'a>(
        &self,
        alloc: Global,
        client: u32,
        asked: &'a DeleteEventEnrollment,
    ) -> Result<Deletion<'a>, Memory>
        ensures selected { IfOk result (λ deletion. selected deletion
            ≡ is_deleted client asked.now) }
        ensures answer { IfOk result (λ deletion. deletion.undeleted
            ≡ undeleted client asked.now self.now) }
    {
        match asked {
            DeleteEventEnrollment::Condition(name) => Ok(Deletion {
                undeleted: 0,
                going: Going::Own(client, KeyRef::of(client, name)),
            }),
            DeleteEventEnrollment::Names(names) => {
                let (names, missing) = self.listed(alloc, client, names.as_slice())?;
                let Some(undeleted) = counted(missing) else {
                    return Err(Memory::wanting());
                };
                Ok(Deletion {
                    undeleted,
                    going: Going::Names(names),
                })
            }
        }
    }

    /// The names that a client gives, each once, and how many of them are missing.
    #[tactic(auto, using(object_names::proofs::Gathered::all_listed))]
    fn listed<'a>(
        &self,
        alloc: Global,
        client: u32,
        names: &'a [ObjectName],
    ) -> Result<(IndexSet<KeyRef<'a>>, usize), Memory>
        ensures set { IfOk result (λ told. is_among told.0.keys ≡ is_listed_by client names.now) }
        ensures count { IfOk result (λ told. told.1 ≡ missing client names.now self.now) }
    {
        let mut set = IndexSet::new(alloc);
        let mut count = 0usize;
        for name in names {
            let key = KeyRef::of(client, name);
            let (_, added) = set.insert_full(key)?;
            if added && !self.rows.contains_key(key) {
                count += 1;
            }
        }
        Ok((set, count))
    }

    /// Deletes the enrollments that a request asks for, whoever defined them where it names them, and else the
    /// client's own (ISO 9506-1, DeleteEventEnrollment). Nobody is told. All others stay as they are, in their order.
    /// It takes no memory.
    pub fn delete(&mut self, deletion: &Deletion<'_>)
        ensures { self.new ≡ filter (λ row. not (selected deletion.now row)) self.old }
    {
        self.take_out(&deletion.going);
    }

    /// A condition is deleted: all enrollments on it go, of all clients. All others stay, in their order. It takes no
    /// memory, and where there is none the table isn't gone through.
    pub fn forget(&mut self, condition: &Key)
        ensures { self.new ≡ without_condition condition.now self.old }
    {
        if self.number_on(condition) == 0 {
            return;
        }
        self.take_out(&Going::On(condition));
    }

    /// A client is lost: its enrollments are removed, whatever the scope of their names, and those whose names are of
    /// its association. Nobody is told. It takes no memory.
    pub fn lose(&mut self, client: u32)
        ensures { self.new ≡ without_client client self.old }
    {
        self.take_out(&Going::Client(client));
    }
}
