//! What a mirror shows, printed.
ghost use Rattle.std.specs.Prelude.{◌≡◌, IfErr, OnOk, OnErr};
ghost use Rattle.std.specs.Io.KnownBytes.{Appends};
ghost use Rattle.feed_http.specs.Device.{AppendsPrefix, HasFailed};
ghost use Rattle.feed_node.specs.Texts.{published_text};
ghost use Rattle.feed_commands.specs.Tables.{outcome_of};

use crate::fault::Fault;
use crate::printing::print_lines;
use feed_http::device::{Failed, FeedWrite};
use feed_node::Mirror;

/// What the command comes to whose mirror was fed like this and whose text was printed.
pub(crate) fn outcome(fed: Result<(), Fault>, is_published: bool) -> Result<(), Fault>
    ensures { result ≡ outcome_of fed is_published }
{
    match fed {
        Ok(()) if !is_published => Err(Fault::Unpublished),
        _ => fed,
    }
}

/// Prints the snapshot of what a mirror shows. It takes no memory.
pub(crate) fn print_snapshot<W: FeedWrite>(mirror: &Mirror, out: &mut W) -> Result<(), Fault>
    ensures ok { OnOk result (Appends (W.contents out.old) (W.contents out.new)
        (published_text mirror.now.node.published)) }
    ensures faults { IfErr result (λ why. why ≡ Fault.Write) }
    ensures write { OnErr result (HasFailed (W.failures out.old) (W.failures out.new)) }
    ensures prefix { OnErr result (AppendsPrefix (W.contents out.old) (W.contents out.new)
        (published_text mirror.now.node.published)) }
{
    let node = mirror.node();
    let Some(tables) = node.published() else {
        return Ok(());
    };
    let Some(token) = node.token() else {
        return Ok(());
    };
    match print_lines(out, tables, token.text()) {
        Ok(()) => Ok(()),
        Err(Failed) => Err(Fault::Write),
    }
}
