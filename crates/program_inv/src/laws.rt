//! Laws over all program invocations. Each function has no body: its contract is the law.
ghost use Rattle.std.specs.Prelude.{◌≡◌, ℕ, List, None, false};
ghost use Rattle.mms_types.specs.declared.invocation.CreateProgramInvocation.{CreateProgramInvocation};
ghost use Rattle.domain_load.specs.Domains.{is_there, Rows as DomainRows};
ghost use Rattle.domain_load.specs.Used.{AreFreeFor, is_had_by};
ghost use Rattle.program_inv.specs.Programs.{Rows, create_cause};

/// Where nothing stands against a new program invocation, and no domain has its name already, it may have its domains:
/// each is there, READY or IN-USE and sharable, and none is named twice.
pub fn a_new_program_may_have_its_domains()
    ensures { (request : CreateProgramInvocation) (domains : DomainRows) (rows : Rows)
        → create_cause request domains rows ≡ None
        → ((name : List ℕ) → is_there (is_had_by request.name) name domains ≡ false)
        → AreFreeFor request.name request.domains domains }
{}
