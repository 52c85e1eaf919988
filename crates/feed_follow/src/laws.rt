//! Laws of the definitions.
ghost use Rattle.feed_follow.specs.Carrying.{FeedsCarryText};
ghost use Rattle.feed_follow.specs.Laws.{StandsOnce};

/// How far a response has come is one thing.
pub fn follow_laws()
    ensures { StandsOnce }
{}

/// Whatever prefix came of a response that answers with a feed, of whatever head and framing: what
/// it brought begins the text of the whole. Bytes behind the end of a body, of a length or in
/// chunks, bring nothing, and neither does what comes from a bad chunk on.
pub fn carry_laws()
    ensures { FeedsCarryText }
{}
