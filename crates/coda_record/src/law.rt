ghost use Rattle.std.specs.Prelude.{ℕ, Option};
ghost use Rattle.coda_fid.specs.declared.fid.Fid.{Fid};
ghost use Rattle.coda_record.specs.Form.{Size};
ghost use Rattle.coda_record.specs.Entries.{segment, volume_log_above, volume_logs, cached_after, cached_nodes, client_snapshot, client_entry, client_payload, replica_entry};
ghost use Rattle.coda_record.specs.Exact.{IsExact};
ghost use Rattle.coda_record.specs.Hoard.{path, hoard_entry, hoard_change};
ghost use Rattle.coda_record.specs.Table.{answer, last_above, lasts};

/// A law of the table: last decisions, lists of them and answers are exact.
pub fn decisions_are_exact()
    ensures single { (before : ℕ) → IsExact (last_above before) }
    ensures lasts { IsExact lasts }
    ensures answer { IsExact answer }
{}

/// A law of the table: paths, hoard entries and changes of hoard databases are exact, however wide the lengths of paths are.
pub fn hoards_are_exact()
    ensures path { (size : Size) → IsExact (path size) }
    ensures single { (size : Size) → IsExact (hoard_entry size) }
    ensures change { (size : Size) → IsExact (hoard_change size) }
{}

/// A law of the table: segments, the logs of volumes, cached objects and snapshots of clients are exact, however wide the
/// lengths of targets, contents and paths are.
pub fn snapshots_are_exact()
    ensures segment { (size : Size) → IsExact (segment size) }
    ensures log { (size : Size) (before : ℕ) → IsExact (volume_log_above size before) }
    ensures logs { (size : Size) → IsExact (volume_logs size) }
    ensures cached { (size : Size) (before : Option Fid) → IsExact (cached_after size before) }
    ensures nodes { (size : Size) → IsExact (cached_nodes size) }
    ensures client { (size : Size) → IsExact (client_snapshot size) }
{}

/// A law of the table: the entries of journals are exact, however wide the lengths of targets, contents and paths are.
pub fn entries_are_exact()
    ensures single { (size : Size) → IsExact (client_entry size) }
    ensures payload { (size : Size) → IsExact (client_payload size) }
    ensures replica { (size : Size) → IsExact (replica_entry size) }
{}
