//! What holds of every form.

ghost use Rattle.std.specs.Prelude.{◌≡◌};
ghost use Rattle.ber_forms.specs.Spelling.{spelling};
ghost use Rattle.mms_types.specs.declared.identifier.Edition.{Edition};
ghost use Rattle.mms_types.specs.Spelling.{widest};
ghost use Rattle.pdu_names.specs.Spells.{Spells};
ghost use Rattle.pdu_names.specs.Kinds.{IsOf};

use crate::formed::Formed;

/// Of each edition, what is of a form has one spelling, which is read as what was spelled and as nothing else, and no
/// element that holds it begins another. The value tells what it is of, and it is spelled alike in each edition.
pub fn spells_each<F: Formed>()
    ensures one { (edition : Edition)
        → Spells (F.kind.form edition) F.kind.value (IsOf F.kind edition) }
    ensures told { (x : F.Item) → F.kind.said (F.kind.value x) ≡ x }
    ensures alike { (edition : Edition) (x : F.Item)
        → spelling (F.kind.form edition) (F.kind.value x)
        ≡ spelling (F.kind.form widest) (F.kind.value x) }
{}
