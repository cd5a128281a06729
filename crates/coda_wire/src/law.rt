ghost use Rattle.coda_record.specs.Exact.{IsExact};
ghost use Rattle.coda_wire.specs.Laws.{FirstBytesSayNothing};
ghost use Rattle.coda_wire.specs.Table.{message};

/// A law of the table of messages: bytes are read exactly where they spell a message, as that one; a message has one
/// spelling, and none begins another; a refusal names the first field or byte that breaks the format.
pub fn messages_are_exact()
    ensures { IsExact message }
{}

/// A law of messages that are cut short: they say nothing, and are refused where they end.
pub fn first_bytes_say_nothing()
    ensures { FirstBytesSayNothing }
{}
