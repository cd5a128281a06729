ghost use Rattle.coda_net.specs.Laws.{FindsNameTheLeast, LettersWaitUntilLost, PostsLoseTheOldest, TrimmedLettersWait};

/// A law of the pool: which letters a new one puts out.
pub fn posts_lose_the_oldest()
    ensures { PostsLoseTheOldest }
{}

/// A law of the pool: which letter is found again.
pub fn finds_name_the_least_number()
    ensures { FindsNameTheLeast }
{}

/// A law of the pool: a letter waits under its number until it is lost.
pub fn letters_wait_until_they_are_lost()
    ensures { LettersWaitUntilLost }
{}

/// A law of the pool: a letter that is trimmed has its first bytes alone, as many as it was trimmed to, and waits on
/// under its number; all others are as they were.
pub fn trimmed_letters_wait()
    ensures { TrimmedLettersWait }
{}
