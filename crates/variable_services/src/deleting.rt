//! DeleteVariableAccess and DeleteNamedVariableList.

ghost use Rattle.std.specs.Prelude.{◌≡◌};
ghost use Rattle.object_names.specs.Selected.{selected};
ghost use Rattle.variable_services.specs.Services.{delete_cause};

use mms_types::{DeleteNames, DeleteScope, ServiceError};

/// Why names are not deleted (ISO 9506-2, DeleteVariableAccess and DeleteNamedVariableList): object-non-existent where
/// all of a domain are to be and it is not live, as `live` tells.
pub fn delete_cause(asked: &DeleteNames, live: bool) -> Option<ServiceError>
    ensures { result ≡ delete_cause live asked.now }
{
    if asked.scope == DeleteScope::Domain && !live {
        return Some(ServiceError::OBJECT_NON_EXISTENT);
    }
    None
}
