//! Uploads of domains.

ghost use Rattle.std.specs.Prelude.{◌≡◌, ℕ, ℤ, List, Some};
ghost use Rattle.mms_types.specs.declared.event.CellEvent.{CellEvent};
ghost use Rattle.cell_config.specs.declared.config.Config.{Config};
ghost use Rattle.cell_config.specs.Said.{IsConfig};
ghost use Rattle.domain_upload.specs.Uploads.{upload_of};
ghost use Rattle.domain_upload.specs.declared.upload.Upload.{Upload};
ghost use Rattle.step_parts.specs.Step.{replay};
ghost use Rattle.cell_laws.specs.Uploaded.{IsFront, told_of};

/// What the segments of an upload told, one after the other, is a front of the octets of its domain, after any history:
/// as many octets as the upload counts as sent, and all of them where its last segment was told. So the domain stays as
/// it is while an upload of it is open, whatever else is done.
pub fn an_upload_tells_a_front_of_its_domain()
    ensures { (config : Config) (history : List CellEvent) (client : ℕ) (number : ℤ)
        (upload : Upload) → IsConfig config
        → upload_of client number (replay config history).domains.uploads ≡ Some upload
        → IsFront (told_of config history client number) upload (replay config history) }
{}
