//! Laws of domains and the program invocations that name them. Each function has no body: its contract is the law.

ghost use Rattle.std.specs.Prelude.{◌≡◌, [], Bool, List, None, Some, true, ℕ};
ghost use Rattle.std.specs.List.{IsDistinct};
ghost use Rattle.std.specs.Map.{keys_of};
ghost use Rattle.mms_types.specs.declared.asked.Reply.{Reply};
ghost use Rattle.mms_types.specs.declared.domain.InitiateDownloadSequence.{InitiateDownloadSequence};
ghost use Rattle.mms_types.specs.declared.invocation.CreateProgramInvocation.{CreateProgramInvocation};
ghost use Rattle.mms_types.specs.declared.invocation.RunProgram.{RunProgram};
ghost use Rattle.domain_load.specs.Domains.{Rows as DomainRows, delete_cause, name_eq, without, without_loads};
ghost use Rattle.domain_load.specs.Loading.{answers_load, initiate_after, initiate_cause, reply_after};
ghost use Rattle.domain_load.specs.Used.{after_unused, after_used};
ghost use Rattle.program_inv.specs.Programs.{Rows, after_command, after_create, after_delete, after_ends, after_resume, after_start, create_cause, named};
ghost use Rattle.program_inv.specs.declared.invocation.Invocation.{Invocation};
ghost use Rattle.program_inv.specs.declared.command.Command.{Command};
ghost use Rattle.serve_programs.specs.Users.{AreUsed};

/// The names that a domain has are those of the invocations that name it: at the start, where one is made, whatever it
/// is commanded, where it ends, and where it is deleted.
pub fn what_is_used_stays_used()
    ensures none { AreUsed [] [] }
    ensures made { (domains : DomainRows) (programs : Rows) → AreUsed domains programs
        → (request : CreateProgramInvocation) → create_cause request domains programs ≡ None
        → AreUsed (after_used request.domains request.name domains)
        (after_create request programs) }
    ensures deleted { (domains : DomainRows) (programs : Rows) → AreUsed domains programs
        → (name : List ℕ) (p : Invocation) → named name programs ≡ Some p
        → AreUsed (after_unused p.domains name domains) (after_delete name programs) }
    ensures commanded { (domains : DomainRows) (programs : Rows) → AreUsed domains programs
        → (command : Command) (name : List ℕ)
        → AreUsed domains (after_command command name programs) }
    ensures started { (domains : DomainRows) (programs : Rows) → AreUsed domains programs
        → (request : RunProgram) → AreUsed domains (after_start request programs) }
    ensures resumed { (domains : DomainRows) (programs : Rows) → AreUsed domains programs
        → (request : RunProgram) → AreUsed domains (after_resume request programs) }
    ensures ended { (domains : DomainRows) (programs : Rows) → AreUsed domains programs
        → (name : List ℕ) → AreUsed domains (after_ends name programs) }
{}

/// So it stays where a domain is loaded or deleted, and where a client is lost with the domains that it loads: no
/// invocation names one of these.
pub fn what_is_loaded_is_not_used()
    ensures begins { (domains : DomainRows) (programs : Rows) → AreUsed domains programs
        → (client : ℕ) (left : Bool) (request : InitiateDownloadSequence)
        → initiate_cause left request domains ≡ None
        → AreUsed (initiate_after client request domains) programs }
    ensures replies { (domains : DomainRows) (programs : Rows) → AreUsed domains programs
        → IsDistinct name_eq (keys_of domains) → (client : ℕ) (answer : Reply)
        → answers_load client answer domains ≡ true
        → AreUsed (reply_after answer domains) programs }
    ensures deleted { (domains : DomainRows) (programs : Rows) → AreUsed domains programs
        → IsDistinct name_eq (keys_of domains) → (name : List ℕ) (uploads : ℕ) (in_scope : Bool)
        → delete_cause name uploads in_scope domains ≡ None
        → AreUsed (without name domains) programs }
    ensures lost { (domains : DomainRows) (programs : Rows) → AreUsed domains programs
        → IsDistinct name_eq (keys_of domains) → (client : ℕ)
        → AreUsed (without_loads client domains) programs }
{}
