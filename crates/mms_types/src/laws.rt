ghost use Rattle.std.specs.Prelude.{◌≡◌, ◌↔◌, IsTrue};
ghost use Rattle.std.specs.declared.cmp.Ordering.TheVariants.{Less, Equal};
ghost use Rattle.std.specs.Cmp.{IsTotalOrder};
ghost use Rattle.mms_types.specs.Order.{key_order, key_eq, KeyPrecedes};
ghost use Rattle.mms_types.specs.Equal.{datum_eq, shape_eq};
ghost use Rattle.mms_types.specs.Errors as errors;
ghost use Rattle.mms_types.specs.OptionBits as bits;

use crate::{Data, Key, ParameterOptions, ServiceError, ServiceOptions, TypeSpec};

/// The order of keys is total, and a key is less than another exactly where it stands before it:
/// the VMD's names first, then those of domains by the domain's name, then those of associations by
/// client, and in one scope by octets. Keys that the order does not tell apart are one key, and so
/// are equal keys.
pub fn keys_stand_in_order(a: &Key, b: &Key)
    ensures total { IsTotalOrder key_order }
    ensures before { (key_order a.now b.now ≡ Less) ↔ KeyPrecedes a.now b.now }
    ensures same { (key_order a.now b.now ≡ Equal) ↔ (a.now ≡ b.now) }
    ensures equal { IsTrue (key_eq a.now b.now) ↔ (a.now ≡ b.now) }
{}

/// Data that is equal is one value, and types that are equal are one type.
pub fn equal_is_the_same(x: &Data, y: &Data, s: &TypeSpec, t: &TypeSpec)
    ensures values { IsTrue (datum_eq x.now y.now) ↔ (x.now ≡ y.now) }
    ensures types { IsTrue (shape_eq s.now t.now) ↔ (s.now ≡ t.now) }
{}

/// Each error that the server answers has the class and the code of the table.
pub fn errors_have_their_numbers()
    ensures domain_transfer_problem { ServiceError.DOMAIN_TRANSFER_PROBLEM
        ≡ errors.domain_transfer_problem }
    ensures object_undefined { ServiceError.OBJECT_UNDEFINED ≡ errors.object_undefined }
    ensures invalid_address { ServiceError.INVALID_ADDRESS ≡ errors.invalid_address }
    ensures type_inconsistent { ServiceError.TYPE_INCONSISTENT ≡ errors.type_inconsistent }
    ensures object_exists { ServiceError.OBJECT_EXISTS ≡ errors.object_exists }
    ensures capability_unavailable { ServiceError.CAPABILITY_UNAVAILABLE
        ≡ errors.capability_unavailable }
    ensures other { ServiceError.OTHER ≡ errors.other }
    ensures object_state_conflict { ServiceError.OBJECT_STATE_CONFLICT
        ≡ errors.object_state_conflict }
    ensures object_constraint_conflict { ServiceError.OBJECT_CONSTRAINT_CONFLICT
        ≡ errors.object_constraint_conflict }
    ensures timeout { ServiceError.TIMEOUT ≡ errors.timeout }
    ensures cancel { ServiceError.CANCEL ≡ errors.cancel }
    ensures object_non_existent { ServiceError.OBJECT_NON_EXISTENT ≡ errors.object_non_existent }
    ensures object_access_denied { ServiceError.OBJECT_ACCESS_DENIED ≡ errors.object_access_denied }
    ensures version_incompatible { ServiceError.VERSION_INCOMPATIBLE ≡ errors.version_incompatible }
    ensures max_segment_insufficient { ServiceError.MAX_SEGMENT_INSUFFICIENT
        ≡ errors.max_segment_insufficient }
    ensures calling_insufficient { ServiceError.CALLING_INSUFFICIENT ≡ errors.calling_insufficient }
    ensures called_insufficient { ServiceError.CALLED_INSUFFICIENT ≡ errors.called_insufficient }
    ensures nesting_insufficient { ServiceError.NESTING_INSUFFICIENT ≡ errors.nesting_insufficient }
    ensures further_communication_required { ServiceError.FURTHER_COMMUNICATION_REQUIRED
        ≡ errors.further_communication_required }
    ensures invoke_id_unknown { ServiceError.INVOKE_ID_UNKNOWN ≡ errors.invoke_id_unknown }
{}

/// Each named bit of the options has its number.
pub fn options_have_their_numbers()
    ensures str1 { ParameterOptions.STR1 ≡ bits.str1 }
    ensures str2 { ParameterOptions.STR2 ≡ bits.str2 }
    ensures vnam { ParameterOptions.VNAM ≡ bits.vnam }
    ensures valt { ParameterOptions.VALT ≡ bits.valt }
    ensures vadr { ParameterOptions.VADR ≡ bits.vadr }
    ensures vsca { ParameterOptions.VSCA ≡ bits.vsca }
    ensures tpy { ParameterOptions.TPY ≡ bits.tpy }
    ensures vlis { ParameterOptions.VLIS ≡ bits.vlis }
    ensures real { ParameterOptions.REAL ≡ bits.real }
    ensures cei { ParameterOptions.CEI ≡ bits.cei }
    ensures unsolicited_status { ServiceOptions.UNSOLICITED_STATUS ≡ bits.unsolicited_status }
    ensures information_report { ServiceOptions.INFORMATION_REPORT ≡ bits.information_report }
    ensures event_notification { ServiceOptions.EVENT_NOTIFICATION ≡ bits.event_notification }
    ensures attach_to_event_condition { ServiceOptions.ATTACH_TO_EVENT_CONDITION
        ≡ bits.attach_to_event_condition }
    ensures attach_to_semaphore { ServiceOptions.ATTACH_TO_SEMAPHORE ≡ bits.attach_to_semaphore }
    ensures conclude { ServiceOptions.CONCLUDE ≡ bits.conclude }
    ensures cancel { ServiceOptions.CANCEL ≡ bits.cancel }
{}
