//! Laws of the definitions.

ghost use Rattle.feed_live.specs.Laws.{RelaysShowTheLog, FollowedIsHonest};
ghost use Rattle.feed_live.specs.Laws.{InputShowsTheLog, ShownIsHonest, SentIsHonest};
ghost use Rattle.feed_live.specs.ScreenLaws.{SocketsAreFaithful, HandedIsFollowed};
ghost use Rattle.feed_screens.specs.Owed.{OwesAlwaysWhatIsKept};
ghost use Rattle.feed_live.specs.Examples.{TheirFeedIsHonest, TheirReplayEnds};
ghost use Rattle.feed_live.specs.Network.{NetworksShowTheLog, RelayedIsHonest, RequestsAreMeant};
ghost use Rattle.feed_live.specs.Telling.{MeaningTells, ToldIsHonest, TellingIsHonest, FeedIsHonest, ReplayIsHonest, TokenedIsHonest};

use feed_answer::{answer_laws, followed_laws};
use feed_follow::{carry_laws, follow_laws};
use feed_laws::hub_laws;
use feed_node::reading_laws;
use feed_note::{line_laws, written_lines_law};
use feed_world::telling_laws;

/// What was written to a socket is a prefix of what is due to it, and what a screen was handed
/// leaves a mirror that reads any prefix of it at a place of the log. What counts as owed to
/// screens is what connections have yet to take.
pub fn screen_laws()
    ensures sockets { SocketsAreFaithful }
    ensures handed { HandedIsFollowed }
    ensures owed { OwesAlwaysWhatIsKept }
{
    hub_laws();
}

/// A relay whose servers are honest shows states of the log, and what it writes to each socket is
/// faithful to those. What is followed so is an honest response again. The same holds of a relay
/// whose feed is its input: what nodes of the log send is an honest one.
pub fn live_laws()
    ensures relays { RelaysShowTheLog }
    ensures honest { FollowedIsHonest }
    ensures takes { InputShowsTheLog }
    ensures input { ShownIsHonest }
    ensures sent { SentIsHonest }
{
    reading_laws();
    hub_laws();
}

/// What a server of other make sends is honest where its lines, whatever else stands in them, tell
/// a log whose states have any tokens, each its own. So is a feed of written lines, each with a
/// token that no other has; and a replay that came whole, as far as it is shown, whose end is a
/// state of the log. Two lines are an example of each.
pub fn foreign_laws()
    ensures meaning { MeaningTells }
    ensures input { ToldIsHonest }
    ensures honest { TellingIsHonest }
    ensures feeds { FeedIsHonest }
    ensures replays { ReplayIsHonest }
    ensures tokened { TokenedIsHonest }
    ensures feed_example { TheirFeedIsHonest }
    ensures replay_example { TheirReplayEnds }
{
    carry_laws();
    follow_laws();
    reading_laws();
    line_laws();
    written_lines_law();
    telling_laws();
}

/// Relays that follow one another in any way, also in a ring, and servers outside that are honest:
/// whoever starts and has a turn, in any order, each relay shows states of the log. What one relay
/// reads of another is honest, and its request is read as it was meant.
pub fn network_laws()
    ensures network { NetworksShowTheLog }
    ensures relayed { RelayedIsHonest }
    ensures meant { RequestsAreMeant }
{
    live_laws();
    screen_laws();
    follow_laws();
    answer_laws();
    followed_laws();
}
