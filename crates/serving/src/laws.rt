//! Laws of what clients are told.

ghost use Rattle.serving.specs.Lives.{EachIsAnswered};
ghost use Rattle.serving.specs.Served.{WhoAskedIsTold};

/// In each group who asked is who is told.
pub fn who_asked_is_told()
    ensures { WhoAskedIsTold }
{}

/// In each run a client that comes in and is not let go is sent the answers to its lines, in their order, one for each, and nothing else.
pub fn each_is_answered()
    ensures { EachIsAnswered }
{}
