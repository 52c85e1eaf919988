//! Laws of the definitions.
ghost use Rattle.feed_wire.specs.FrameLaws.{FramesCarry, FramesEnd};
ghost use Rattle.feed_wire.specs.RequestLaws.{AskedOnce, RequestIsRead};
ghost use Rattle.feed_answer.specs.Laws.{RequestIsAnswered};
ghost use Rattle.feed_answer.specs.FollowLaws.{HeadsAreRead, ResponsesAreFollowed, WholeCarriesAll, PrefixesCarryMore, EndsAreFollowed, RefusalsAreFollowed};

use feed_follow::follow_laws;

/// Bytes ask for one thing; and a request that is written here is read as it was meant, and is
/// answered as opening a session at its token decides; and what is framed carries what was framed.
pub fn answer_laws()
    ensures asked { AskedOnce }
    ensures request { RequestIsRead }
    ensures answered { RequestIsAnswered }
    ensures frames { FramesCarry }
    ensures ends { FramesEnd }
{}

/// What a server writes is followed: each prefix of it stands in one way, with a prefix of the
/// texts that it carries, or as the refusal that it is.
pub fn followed_laws()
    ensures heads { HeadsAreRead }
    ensures responses { ResponsesAreFollowed }
    ensures whole { WholeCarriesAll }
    ensures monotone { PrefixesCarryMore }
    ensures ends { EndsAreFollowed }
    ensures refusals { RefusalsAreFollowed }
{
    follow_laws();
}
