//! Scripts of what happens in a world, played.

ghost use Rattle.std.specs.Prelude.{◌≡◌, ◌≤◌, ◌+◌, length, Ok, Err, IfOk, IfErr, OnOk, OnErr};
ghost use Rattle.feed_note.specs.Lines.{lines as lines_of};
ghost use Rattle.feed_play.specs.Lines.{all_lines, IsLineFrom};
ghost use Rattle.std.specs.Option.{option_copied};
ghost use Rattle.feed_play.specs.Player.{lines_announced, restarted_by, node_token, Makes, MakesNone, Replies, Shows, LineDone, StopsEvent, StopsShow, LineStops, Plays, StopsScript};
ghost use Rattle.feed_play.specs.Script.{action_in};
ghost use Rattle.feed_play.specs.Printed.{Prints};
ghost use Rattle.feed_world.specs.States.{IsWorld};
ghost use Rattle.feed_world.specs.World.{World as Numbers};

use crate::fault::{PlayCause, PlayFault};
use crate::feed_lines::read_changes;
use crate::first::{Asked, read_first};
use crate::lines::Lines;
use crate::printed::{print_reply, print_shown};
use crate::script::{Action, read_action};
use feed_node::Limits;
use feed_world::{Event, World, WorldFault};
use std::alloc::Global;

/// The world that the first line of a script asks for, and what it says of that.
fn make_world(alloc: Global, line: &[u8]) -> Result<(Asked, World), PlayCause>
    ensures ok { IfOk result (λ made. (w : Numbers) × IsWorld w made.1
        × Makes line.now made.0 w) }
    ensures err { IfErr result (λ cause. MakesNone line.now cause) }
{
    let asked = read_first(alloc, line)?;
    let (history, staged) = asked.limits();
    let Ok(limits) = Limits::new(history, staged) else {
        return Err(PlayCause::Limits);
    };
    if !asked.is_ordered() {
        return Err(PlayCause::Shape);
    }
    let world = World::framed(alloc, asked.nodes(), limits, asked.framing())?;
    Ok((asked, world))
}

/// The mirror that an event restarts.
fn restarted(event: &Event) -> Option<usize>
    ensures { result ≡ restarted_by event.now }
{
    match event {
        Event::Restart(number, _) => Some(*number),
        _ => None,
    }
}

/// The token that the node of this number has published, where one is named.
fn token_of(world: &World, number: Option<usize>) -> Option<&str>
    ensures { (w : Numbers) → IsWorld w world.now → option_copied result ≡ node_token w number }
{
    Some(world.node(number?)?.token()?.text())
}

/// Makes an event happen, and prints the world's reply.
fn play_event(
    alloc: Global,
    world: &mut World,
    event: Event,
    out: &mut Vec<u8>,
) -> Result<(), PlayCause>
    ensures ok { OnOk result (Replies event world.old world.new out.old.items out.new.items) }
    ensures err { IfErr result (λ cause. StopsEvent world.old event cause) }
    ensures quiet { OnErr result (out.new.items ≡ out.old.items) }
{
    let restarted = restarted(&event);
    let reply = world.step(alloc, event)?;
    Ok(print_reply(alloc, &reply, token_of(world, restarted), out)?)
}

/// Prints what the node of this number shows.
fn show(alloc: Global, world: &World, number: usize, out: &mut Vec<u8>) -> Result<(), PlayCause>
    ensures ok { OnOk result (Shows world.now number out.old.items out.new.items) }
    ensures err { IfErr result (λ cause. StopsShow world.now number cause) }
    ensures quiet { OnErr result (out.new.items ≡ out.old.items) }
{
    let Some(node) = world.node(number) else {
        return Err(PlayCause::World(WorldFault::NoNode));
    };
    Ok(print_shown(alloc, node, out)?)
}

/// What comes of the line of this number.
fn at(line: u64, played: Result<(), PlayCause>) -> Result<(), PlayFault>
    ensures ok { OnOk result (played ≡ Ok tt) }
    ensures err { IfErr result (λ fault. (fault.line ≡ line) × (played ≡ Err fault.cause)) }
{
    played.map_err(|cause| PlayFault { line, cause })
}

/// Does what a line asks for, with the feed lines after it where it announces some.
fn play_line(
    alloc: Global,
    asked: &Asked,
    world: &mut World,
    line: &[u8],
    lines: &mut Lines<'_>,
    out: &mut Vec<u8>,
) -> Result<(), PlayFault>
    ensures ok { OnOk result (LineDone (action_in asked.now line.now) world.old world.new
        lines.old lines.new out.old.items out.new.items) }
    ensures err { IfErr result (λ fault.
        LineStops (action_in asked.now line.now) world.old lines.old fault) }
    ensures quiet { OnErr result (out.new.items ≡ out.old.items) }

    ensures all { all_lines lines.new ≡ all_lines lines.old }
    ensures later { lines.old.read ≤ lines.new.read }
    ensures fewer { length lines.new.left ≤ length lines.old.left }
    ensures line { IfErr result (λ fault. IsLineFrom lines.old.read
        (lines.old.read + lines_announced (action_in asked.now line.now)) fault.line) }
    ensures within { IfErr result (λ fault. fault.line ≤ all_lines lines.old) }
{
    let number = lines.number();
    let Some(action) = read_action(asked, line) else {
        return at(number, Err(PlayCause::Script));
    };
    match action {
        Action::Commit(count) => {
            let changes = read_changes(alloc, lines, count)?;
            let commit = Event::Commit(changes);
            at(number, play_event(alloc, world, commit, out))
        }
        Action::Event(event) => at(number, play_event(alloc, world, event, out)),
        Action::Show(node) => at(number, show(alloc, world, node, out)),
    }
}

/// Plays a script: makes the world of its first line, does what each further line asks for, one
/// after the other, and appends what is told of it. At the first fault it stops; what was told
/// before stays.
pub fn play(alloc: Global, script: &[u8], out: &mut Vec<u8>) -> Result<(), PlayFault>
    ensures ok { OnOk result (Prints out.old.items out.new.items (λ told. Plays script.now told)) }
    ensures err { IfErr result (λ fault.
        Prints out.old.items out.new.items (λ told. StopsScript script.now told fault)) }

    ensures line { IfErr result (λ fault.
        IsLineFrom 1 (length (lines_of script.now) + 1) fault.line) }
{
    let mut lines = Lines::new(script);
    let first = lines.next_line().unwrap_or(&[]);
    let (said, mut world) = match make_world(alloc, first) {
        Ok(made) => made,
        Err(cause) => return Err(PlayFault { line: 1, cause }),
    };
    let asked = &said;
    'lines: while let Some(line) = lines.next_line() {
        play_line(alloc, asked, &mut world, line, &mut lines, out)?;
    }
    Ok(())
}
