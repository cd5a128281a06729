ghost use Rattle.std.specs.Prelude.{ℕ, Option};
ghost use Rattle.coda_fid.specs.declared.fid.Fid.{Fid};
ghost use Rattle.coda_values.specs.Form.{Size};
ghost use Rattle.coda_values.specs.Nodes.{node};
ghost use Rattle.coda_values.specs.Held.{vector, update, updates, held, fid_after, fids, objects, change};
ghost use Rattle.coda_values.specs.Exact.{IsExact};
ghost use Rattle.coda_values.specs.Table.{attrs, fid, name, op, over, reason, record_above, records, sid, verdict};

/// A law of the table: the formats that operations are made of are exact.
pub fn each_part_is_exact()
    ensures name { IsExact name }
    ensures fid { IsExact fid }
    ensures sid { IsExact sid }
    ensures over { IsExact over }
    ensures attrs { IsExact attrs }
{}

/// A law of the table: operations, records and lists of records are exact, however wide the lengths of targets and
/// contents are.
pub fn operations_are_exact()
    ensures op { (size : Size) → IsExact (op size) }
    ensures single { (size : Size) (before : ℕ) → IsExact (record_above size before) }
    ensures records { (size : Size) → IsExact (records size) }
{}

/// A law of the table: reasons and verdicts are exact.
pub fn verdicts_are_exact()
    ensures reason { IsExact reason }
    ensures verdict { IsExact verdict }
{}

/// A law of the table: nodes are exact, however wide the lengths of targets and contents are.
pub fn nodes_are_exact()
    ensures { (size : Size) → IsExact (node size) }
{}

/// A law of the table: vectors, updates, resolution logs and lists of fids are exact; and so is what a replica holds, and
/// what becomes of it, however wide the lengths of targets and contents are.
pub fn changes_are_exact()
    ensures vector { IsExact vector }
    ensures update { IsExact update }
    ensures updates { IsExact updates }
    ensures single { (before : Option Fid) → IsExact (fid_after before) }
    ensures fids { IsExact fids }
    ensures held { (size : Size) → IsExact (held size) }
    ensures objects { (size : Size) → IsExact (objects size) }
    ensures change { (size : Size) → IsExact (change size) }
{}
