//! Known values of the definitions: each is the contract of a function with no body.
ghost use Rattle.smq_words.specs.Known.{KnowsAdd, KnowsCapture, KnowsCaptures, KnowsCheck, KnowsCount, KnowsDeal, KnowsFollow, KnowsLines};
ghost use Rattle.smq_words.specs.Known.{KnowsTotal, KnowsWindow, KnowsWords};

/// The words of orders.
pub fn known_words()
    ensures { KnowsWords }
{}

/// Which words `check` takes.
pub fn known_words_of_check()
    ensures { KnowsCheck }
{}

/// Which words `follow` takes.
pub fn known_words_of_follow()
    ensures { KnowsFollow }
{}

/// Which words `total` takes.
pub fn known_words_of_total()
    ensures { KnowsTotal }
{}

/// Which words `count` takes.
pub fn known_words_of_count()
    ensures { KnowsCount }
{}

/// Which words `messages` and `receipts` take.
pub fn known_words_of_lines()
    ensures { KnowsLines }
{}

/// Which words `capture` takes.
pub fn known_words_of_capture()
    ensures { KnowsCapture }
{}

/// Which words of captures the other subcommands take.
pub fn known_words_of_captures()
    ensures { KnowsCaptures }
{}

/// Which words `window` takes, and which subcommands take `--window`.
pub fn known_words_of_window()
    ensures { KnowsWindow }
{}

/// Which words `deal` takes.
pub fn known_words_of_deal()
    ensures { KnowsDeal }
{}

/// Which words `add` takes.
pub fn known_words_of_add()
    ensures { KnowsAdd }
{}
