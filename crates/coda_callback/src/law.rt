ghost use Rattle.coda_callback.specs.Laws.{CallbacksMove};

/// A law of callbacks: what each step makes of every client's promise and of word that waits for it.
pub fn callbacks_move()
    ensures { CallbacksMove }
{}
