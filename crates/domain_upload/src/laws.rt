//! Laws over all uploads. Each function has no body: its contract is the law.
ghost use Rattle.std.specs.Prelude.{◌≡◌, ◌<◌, ◌≤◌, ◌+◌, ◌++◌, [], Bool, ℕ, ℤ, List, None, Some, false, length, pos, take, true};
ghost use Rattle.std.specs.List.{concat};
ghost use Rattle.mms_types.specs.declared.domain.InitiateUploadSequenceAnswer.{InitiateUploadSequenceAnswer};
ghost use Rattle.mms_types.specs.declared.domain.Segment.{Segment};
ghost use Rattle.mms_types.specs.declared.asked.Reply.{Reply};
ghost use Rattle.mms_types.specs.declared.domain.InitiateDownloadSequence.{InitiateDownloadSequence};
ghost use Rattle.domain_load.specs.Domains.{Rows, delete_cause, octets, without, without_loads};
ghost use Rattle.domain_load.specs.Loading.{answers_load, initiate_after, reply_after};
ghost use Rattle.domain_load.specs.declared.domain.Domain.{Domain};
ghost use Rattle.domain_upload.specs.Pieces.{most_of_piece, next_octets, next_piece};
ghost use Rattle.domain_upload.specs.Uploads.{AreOf, OpenUploads, after_initiate, after_lose, after_piece, after_segment, after_terminate, begun, initiate_answer, initiate_cause, segment_answer, upload_of, uploads_of};
ghost use Rattle.domain_upload.specs.declared.upload.Upload.{Upload};

/// The domain of each open upload stays there and isn't LOADING, and no more octets are sent than it has, whatever is
/// done to the uploads.
pub fn uploads_keep_their_domains()
    ensures none { (domains : Rows) → AreOf (record { rows = []; given = 0 }) domains }
    ensures initiate { (client : ℕ) (name : List ℕ) (domains : Rows) (s : OpenUploads)
        → initiate_cause name domains s ≡ None → AreOf s domains
        → AreOf (after_initiate client name s) domains }
    ensures segment { (client : ℕ) (number : ℤ) (size : ℕ) (domains : Rows) (s : OpenUploads)
        → AreOf s domains → AreOf (after_segment client number size domains s) domains }
    ensures terminate { (client : ℕ) (number : ℤ) (domains : Rows) (s : OpenUploads)
        → AreOf s domains → AreOf (after_terminate client number s) domains }
    ensures lose { (client : ℕ) (domains : Rows) (s : OpenUploads)
        → AreOf s domains → AreOf (after_lose client s) domains }
{}

/// So it stays whatever is done to the domains: a domain whose load goes on has no upload, and one that is deleted has
/// none.
pub fn domains_keep_their_uploads()
    ensures initiate { (client : ℕ) (request : InitiateDownloadSequence) (domains : Rows)
        (s : OpenUploads) → AreOf s domains → AreOf s (initiate_after client request domains) }
    ensures reply { (client : ℕ) (answer : Reply) (domains : Rows) (s : OpenUploads)
        → answers_load client answer domains ≡ true → AreOf s domains
        → AreOf s (reply_after answer domains) }
    ensures delete { (name : List ℕ) (in_scope : Bool) (domains : Rows) (s : OpenUploads)
        → delete_cause name (uploads_of name s) in_scope domains ≡ None → AreOf s domains
        → AreOf s (without name domains) }
    ensures lose { (client : ℕ) (domains : Rows) (s : OpenUploads)
        → AreOf s domains → AreOf s (without_loads client domains) }
{}

/// A number is given once: it is the number of numbers that were given with it, which never falls.
pub fn numbers_are_given_once()
    ensures next { (client : ℕ) (name : List ℕ) (s : OpenUploads)
        → (begun client name s).number ≡ pos (after_initiate client name s).given }
    ensures initiate { (client : ℕ) (name : List ℕ) (s : OpenUploads)
        → (after_initiate client name s).given ≡ s.given + 1 }
    ensures segment { (client : ℕ) (number : ℤ) (size : ℕ) (domains : Rows) (s : OpenUploads)
        → (after_segment client number size domains s).given ≡ s.given }
    ensures terminate { (client : ℕ) (number : ℤ) (s : OpenUploads)
        → (after_terminate client number s).given ≡ s.given }
    ensures lose { (client : ℕ) (s : OpenUploads) → (after_lose client s).given ≡ s.given }
{}

/// Pieces one after the other are the octets of the domain: each begins where those that were sent end; all octets are
/// sent with the last; each before the last has as many as a piece may have, and none is empty while octets are left;
/// and each leaves 64 octets of the size for what stands around it.
pub fn pieces_are_the_octets()
    ensures in_order { (size sent : ℕ) (d : Domain)
        → take sent (concat d.segments) ++ next_octets size sent d
        ≡ take (sent + length (next_octets size sent d)) (concat d.segments) }
    ensures last { (size sent : ℕ) (d : Domain) → sent ≤ octets d
        → (next_piece size sent d).more ≡ false
        → sent + length (next_octets size sent d) ≡ octets d }
    ensures full { (size sent : ℕ) (d : Domain) → (next_piece size sent d).more ≡ true
        → length (next_octets size sent d) ≡ most_of_piece size }
    ensures some { (size sent : ℕ) (d : Domain) → 64 < size → sent < octets d
        → 0 < length (next_octets size sent d) }
    ensures fits { (size sent : ℕ) (d : Domain) → 64 ≤ size
        → length (next_octets size sent d) + 64 ≤ size }
{}

/// What is told of an upload is what becomes of it: it has the number that was told; and a piece that was told counts
/// as sent, to the end of the upload with the last.
pub fn what_is_told_is_done()
    ensures initiate { (client : ℕ) (name : List ℕ) (domains : Rows) (s : OpenUploads)
        (a : InitiateUploadSequenceAnswer) → initiate_answer name domains s ≡ Some a
        → (begun client name s).number ≡ a.number }
    ensures segment { (client : ℕ) (number : ℤ) (size : ℕ) (domains : Rows) (s : OpenUploads)
        (u : Upload) (p : Segment) → upload_of client number s ≡ Some u
        → segment_answer client number size domains s ≡ Some p
        → upload_of client number (after_segment client number size domains s)
        ≡ Some (after_piece u p) }
{}
