//! The tables of the device, and how they change.

ghost use Rattle.std.specs.Prelude.{◌≡◌, OnErr, OnOk, true};
ghost use Rattle.mms_types.specs.Moments.{IsDated};
ghost use Rattle.event_ticks.specs.Ticks as events_part;
ghost use Rattle.cell_services.specs.Changes.{changed, clients_of, may_want, MayChange};
ghost use Rattle.cell_services.specs.Meant.{no_tables};
ghost use Rattle.cell_services.specs.Serving.{domains_without, journals_without, saying, without_client, without_clients};
ghost use Rattle.cell_services.specs.Tables.{moment_of};

use crate::Clock;
use event_cond::Cells;
use event_ticks::Loss;
use mms_journal::Journals;
use mms_time::{Semaphores, lose};
use mms_types::{Memory, Moment};
use program_inv::Programs;
use sem_ticks::Renewed;
use serve_domains::DomainTables;
use serve_events::EventTables;
use std::alloc::Global;
use std::marker::Model;
use variable_services::VariableTables;

/// The tables of the device: all that it has but its clients (ISO 9506-1, the virtual manufacturing device).
pub struct Tables {
    /// The moment.
    pub clock: Clock,
    /// Cells, named variables and lists of variables.
    pub variables: VariableTables,
    /// Domains and the uploads of them.
    pub domains: DomainTables,
    /// Program invocations.
    pub programs: Programs,
    /// Event conditions and the enrollments on them.
    pub events: EventTables,
    /// Journals.
    pub journals: Journals,
    /// Semaphores.
    pub semaphores: Semaphores,
}

impl Model for Tables {
    ghost use Rattle.cell_services.specs.Tables.{Tables as Rows};

    ghost Value = { Rows };

    ghost use Rattle.std.specs.Coded.{codes};
    ghost use Rattle.variable_services.specs.contracts.tables.VariableTables as kept;
    ghost use Rattle.mms_types.specs.DatumCode.{datum_code};

    ghost coded = { Prim.hlevel (codes, kept.the_row.coded, datum_code) };

    ghost view = { λ tables. record {
      now = tables.clock;
      variables = tables.variables;
      domains = tables.domains;
      programs = tables.programs;
      events = tables.events;
      journals = tables.journals;
      semaphores = tables.semaphores;
    } };
}

/// How tables change.
pub enum Change {
    /// They stay as they are.
    Nothing,
    /// So many milliseconds go by, and no deadline is met.
    Passes(u32),
    /// So many milliseconds go by, after which that has become of the semaphores, and those clients were lost, each at
    /// its moment.
    Ticks {
        ms: u32,
        changed: Renewed,
        losses: Vec<Loss>,
    },
    /// A client is lost.
    Loses(u32),
}

/// Clients are lost, of which variables and lists go.
fn lose_variables(variables: &mut VariableTables, losses: &[Loss])
    ensures { variables.new ≡ without_clients (clients_of losses.now) variables.old }
{
    for loss in losses {
        variables.lose(loss.client);
    }
}

/// Clients are lost, whose loads and uploads go.
fn lose_domains(domains: &mut DomainTables, losses: &[Loss])
    ensures { domains.new ≡ domains_without (clients_of losses.now) domains.old }
{
    for loss in losses {
        domains.lose(loss.client);
    }
}

/// Clients are lost, of which journals go.
fn lose_journals(journals: &mut Journals, losses: &[Loss])
    ensures { journals.new ≡ journals_without (clients_of losses.now) journals.old }
{
    for loss in losses {
        journals.lose(loss.client);
    }
}

/// What the cells say that event conditions watch.
#[derive(Drop)]
pub struct CellsOf<'a> {
    /// The variables that have them.
    pub variables: &'a VariableTables,
}

impl<'a> Cells for CellsOf<'a> {
    ghost says = { λ by cell. saying by.variables.now cell };

    fn is_true(&self, cell: u16) -> bool {
        says_true(self.variables, cell)
    }
}

/// Whether the cell of that number is TRUE.
pub(crate) fn says_true(variables: &VariableTables, cell: u16) -> bool
    ensures { result ≡ saying variables.now cell }
{
    matches!(variables.vars.is_true(cell), Some(true))
}

/// Conditions are evaluated up to a moment, and clients are lost meanwhile.
fn tick_events(events: &mut EventTables, variables: &VariableTables, losses: &[Loss], until: Moment)
    requires { IsDated until }
    ensures conditions { events.new.conditions ≡ (events_part.ticked (saying variables.now) until
        (events_part.begun events.old.conditions events.old.enrolments losses.now)).conditions }
    ensures enrolments { events.new.enrolments ≡ (events_part.ticked (saying variables.now) until
        (events_part.begun events.old.conditions events.old.enrolments losses.now)).enrolments }
{
    let cells = CellsOf { variables };
    event_ticks::tick(
        &mut events.conditions,
        &mut events.enrolments,
        losses,
        &cells,
        until,
    );
}

impl Tables {
    /// Tables with nothing in them, at moment 0.
    pub fn empty(alloc: Global) -> Tables
        ensures { result ≡ no_tables }
    {
        Tables {
            clock: Clock::new(Moment(0)),
            variables: VariableTables::empty(alloc),
            domains: DomainTables::empty(alloc),
            programs: Programs::new(alloc),
            events: EventTables::empty(alloc),
            journals: Journals::new(alloc),
            semaphores: Semaphores::new(alloc),
        }
    }

    /// The moment of the clock.
    #[tactic(auto, using(crate::proofs::TimeLaws::moment_given))]
    pub(crate) fn moment(&self) -> Moment
        ensures moment { result ≡ moment_of self.now }
        ensures dated { IsDated result }
    {
        self.clock.now()
    }

    /// A client is lost. Without memory all is as before.
    fn lose(&mut self, alloc: Global, client: u32) -> Result<(), Memory>
        ensures done { OnOk result (self.new ≡ without_client client self.old) }
        ensures kept { OnErr result (self.new ≡ self.old) }
    {
        let now = self.moment();
        let _grants = lose(alloc, &mut self.semaphores, client, now)?;
        self.variables.lose(client);
        self.domains.lose(client);
        self.events.lose(client);
        self.journals.lose(client);
        Ok(())
    }

    /// Lets the tables change. Without memory they are as before; a loss alone wants any.
    pub fn change(&mut self, alloc: Global, change: Change) -> Result<(), Memory>
        requires may { MayChange change self.old }
        ensures done { OnOk result (self.new ≡ changed change self.old) }
        ensures kept { OnErr result (self.new ≡ self.old) }
        ensures wants { OnErr result (may_want change self.old ≡ true) }
    {
        change.make(alloc, self)
    }
}

impl Change {
    /// Lets tables change so. Without memory they are as before.
    fn make(self, alloc: Global, tables: &mut Tables) -> Result<(), Memory>
        requires may { MayChange self tables.old }
        ensures done { OnOk result (tables.new ≡ changed self tables.old) }
        ensures kept { OnErr result (tables.new ≡ tables.old) }
        ensures wants { OnErr result (may_want self tables.old ≡ true) }
    {
        match self {
            Change::Nothing => {}
            Change::Passes(ms) => tables.clock.advance(ms),
            Change::Ticks {
                ms,
                changed,
                losses,
            } => {
                tables.clock.advance(ms);
                let until = tables.moment();
                changed.put(&mut tables.semaphores);
                tick_events(&mut tables.events, &tables.variables, &losses, until);
                lose_variables(&mut tables.variables, &losses);
                lose_domains(&mut tables.domains, &losses);
                lose_journals(&mut tables.journals, &losses);
            }
            Change::Loses(client) => tables.lose(alloc, client)?,
        }
        Ok(())
    }
}

impl Drop for Change {
    fn drop(self) {
        match self {
            Change::Nothing => {}
            Change::Passes(_ms) => {}
            Change::Ticks {
                ms: _,
                changed: _changed,
                losses: _losses,
            } => {}
            Change::Loses(_client) => {}
        }
    }
}

impl Drop for Tables {
    fn drop(self) {
        let Tables {
            clock: _clock,
            variables: _variables,
            domains: _domains,
            programs: _programs,
            events: _events,
            journals: _journals,
            semaphores: _semaphores,
        } = self;
    }
}
