//! Laws of the definitions.

ghost use Rattle.feed_world.specs.Laws.{GrowthKeeps, SendingKeepsOrder, DeliveriesCompose, NodesOpenInLog, SessionsStartBefore, NodesSendTheNext, PartsGoOn};
ghost use Rattle.feed_world.specs.Following.{SessionsOpenAsAsked, PlacesStay, AllIsReached, ResponsesCarryFeed, MirrorsFollow, FailsKeepStates, RefusalsKeepNodes};
ghost use Rattle.feed_world.specs.Reading.{SentIsRead, TokensTellStates};
ghost use Rattle.feed_world.specs.Telling.{TellsShow};

use feed_answer::{answer_laws, followed_laws};
use feed_node::{node_laws, reading_laws};
use feed_tables::table_laws;

/// Whatever prefix of what was sent on a connection came, it has nothing bad, and the mirror that
/// reads it is where its whole blocks bring it, however the prefix was cut. A token names one state
/// of a log. A further commit changes nothing of what a node shows and of what was sent.
pub fn world_laws()
    ensures prefixes { SentIsRead }
    ensures tokens { TokensTellStates }
    ensures growth { GrowthKeeps }
    ensures order { SendingKeepsOrder }
    ensures deliveries { DeliveriesCompose }
{
    table_laws();
    node_laws();
    reading_laws();
}

/// What a node at a place of a log sends. Its answer to a request opens with a snapshot of a state
/// of the log, or with nothing after one of its tokens. A session starts so many commits before a
/// held token as were asked for, or at the oldest token that is held. The commit after a token is
/// the next one of the log, and what was sent goes on in order with it.
pub fn sending_laws()
    ensures opens { NodesOpenInLog }
    ensures starts { SessionsStartBefore }
    ensures commits { NodesSendTheNext }
    ensures order { PartsGoOn }
{}

/// Where a mirror is that followed what a node at a place of a log sent to it. Who asks with a
/// token is sent what comes after that, and who asks with none a snapshot. Whatever prefix of the
/// bytes came, with the end of the body or without, the mirror is at a place of the log, no further
/// than what was sent, and with all of it as far. No fault comes but running out of memory, and
/// that leaves it at such a place, too. A refusal leaves what it shows.
pub fn following_laws()
    ensures opens { SessionsOpenAsAsked }
    ensures places { PlacesStay }
    ensures reached { AllIsReached }
    ensures carried { ResponsesCarryFeed }
    ensures follow { MirrorsFollow }
    ensures fails { FailsKeepStates }
    ensures refusals { RefusalsKeepNodes }
{
    reading_laws();
    answer_laws();
    followed_laws();
    world_laws();
    sending_laws();
}

/// What a mirror makes of lines that tell a log with any tokens, whoever wrote them: it is at a
/// place of that log. This is what servers of other make are measured by.
pub fn telling_laws()
    ensures { TellsShow }
{
    node_laws();
}
