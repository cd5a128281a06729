ghost use Rattle.coda_letters.specs.Laws.{BreaksWait, BytesTellMessages, ChunksAreLight};

/// A law of letters: of those that can be said, two with the same bytes say the same message.
pub fn bytes_tell_messages()
    ensures { BytesTellMessages }
{}

/// A law of chunks: one has at most twice as many bytes as its records weigh, and 20 more; so each chunk of a log, which weighs at most
/// 16 MiB, has less than the 64 MiB that may wait together.
pub fn chunks_are_light()
    ensures { ChunksAreLight }
{}

/// A law of breaks: one waits until it is lost by its number, whatever else is sent, and puts no letter out.
pub fn breaks_wait()
    ensures { BreaksWait }
{}
