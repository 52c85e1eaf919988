//! What is printed of a world: its replies, and what its nodes show.

ghost use Rattle.std.specs.Prelude.{◌≡◌, ◌++◌, string_bytes, IfOk, OnOk, OnErr};
ghost use Rattle.std.specs.Option.{option_copied};
ghost use Rattle.feed_play.specs.Printed.{PrintsReply, Prints, shown_text};

use feed_follow::FollowFault;
use feed_node::{FeedFault, Node, OpenFault, Pulled};
use feed_world::Reply;
use std::alloc::{AllocError, Global};

/// The line that tells a reply. The token is the one that a restarted mirror has published.
fn reply_line(alloc: Global, reply: &Reply, token: Option<&str>) -> Result<String, AllocError>
    ensures { IfOk result
        (λ line. PrintsReply (option_copied token.entry) reply.now (string_bytes line)) }
{
    match reply {
        Reply::Committed(token) => {
            let token = token.text();
            format!(in alloc; "committed {token}\n")
        }
        Reply::Opened => String::from_str(alloc, "opened\n"),
        Reply::Refused => String::from_str(alloc, "refused\n"),
        Reply::NotYet => String::from_str(alloc, "not yet\n"),
        Reply::Sent(Pulled::More) => String::from_str(alloc, "sent more\n"),
        Reply::Sent(Pulled::UpToDate) => String::from_str(alloc, "sent up to date\n"),
        Reply::Sent(Pulled::Gone) => String::from_str(alloc, "sent gone\n"),
        Reply::Idled => String::from_str(alloc, "idled\n"),
        Reply::Delivered(count) => format!(in alloc; "delivered {count}\n"),
        Reply::Broke(_, FollowFault::Memory | FollowFault::Feed(FeedFault::Memory)) =>
            String::from_str(alloc, "broke out of memory\n"),
        Reply::Broke(_, fault) => format!(in alloc; "broke {fault}\n"),
        Reply::Cut => String::from_str(alloc, "cut\n"),
        Reply::Saved(count) => format!(in alloc; "saved {count}\n"),
        Reply::Restarted(_) => {
            let token = token.unwrap_or("nothing");
            format!(in alloc; "restarted {token}\n")
        }
    }
}

/// Prints the line that tells a reply. The token is the one that a restarted mirror has published.
pub fn print_reply(
    alloc: Global,
    reply: &Reply,
    token: Option<&str>,
    out: &mut Vec<u8>,
) -> Result<(), AllocError>
    ensures ok { OnOk result (Prints out.old.items out.new.items
        (PrintsReply (option_copied token.entry) reply.now)) }
    ensures err { OnErr result (out.new.items ≡ out.old.items) }
{
    let line = reply_line(alloc, reply, token)?;
    out.extend_from_slice(line.as_bytes())
}

/// Prints the snapshot of what a node shows, its token on the last line, or `nothing`.
pub fn print_shown(alloc: Global, node: &Node, out: &mut Vec<u8>) -> Result<(), AllocError>
    ensures ok { OnOk result (out.new.items
        ≡ out.old.items ++ shown_text node.now.shown.published) }
    ensures err { OnErr result (out.new.items ≡ out.old.items) }
{
    match node.open(alloc, None, 0) {
        Ok((_, text)) => out.extend_from_slice(text.as_slice()),
        Err(OpenFault::NotYet) => out.extend_from_slice(b"nothing\n"),
        Err(OpenFault::NotHeld | OpenFault::Memory) => Err(AllocError),
    }
}
