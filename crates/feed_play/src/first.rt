//! The first line of a script: what it says of the script's world.

ghost use Rattle.std.specs.Prelude.{◌≡◌, ◌≢◌, Some, None, IfOk, IfErr, IsTrue};
ghost use Rattle.std.specs.Option.{option_and_then, option_copied};
ghost use Rattle.feed_play.specs.Player.{IsOrdered};
ghost use Rattle.feed_play.specs.Script.{words, numbers_in, world_of, framing_in, nodes_in, shape_in};
ghost use Rattle.feed_play.specs.declared.fault.PlayCause.TheVariants.{Script, Memory};

use crate::fault::PlayCause;
use crate::script::{is, read_number, read_numbers, split_word};
use feed_world::Framing;
use std::alloc::Global;
use std::marker::Model;

/// What the first line of a script says of its world.
#[derive(Drop)]
pub struct Asked {
    history: usize,
    staged: usize,
    nodes: usize,
    framing: Framing,
    // The node that each mirror connects to; none where a connect names it.
    upstreams: Option<Vec<usize>>,
}

impl Model for Asked {
    ghost use Rattle.std.specs.Prelude.{option_map};
    ghost use Rattle.feed_play.specs.Script.{AskedWorld};

    ghost Value = { AskedWorld };

    ghost view = { λ a. record {
      history = a.history;
      staged = a.staged;
      nodes = a.nodes;
      framing = a.framing;
      upstreams = option_map (λ upstreams. upstreams.items) a.upstreams;
    } };
}

/// Whether each of these nodes that mirrors connect to is earlier than its mirror.
fn are_ordered(upstreams: &[usize]) -> bool
    ensures yes { IsTrue result → IsOrdered (Some upstreams.now) }
    ensures no { IsOrdered (Some upstreams.now) → IsTrue result }
{
    upstreams
        .iter()
        .enumerate()
        .all(|(place, upstream)| *upstream <= place)
}

impl Asked {
    /// How many commits a node keeps, and how many changes may wait for a token.
    pub fn limits(&self) -> (usize, usize)
        ensures { result ≡ (self.now.history, self.now.staged) }
    {
        (self.history, self.staged)
    }

    /// How many nodes there are.
    pub fn nodes(&self) -> usize
        ensures { result ≡ self.now.nodes }
    {
        self.nodes
    }

    /// How the bodies of responses are framed.
    pub fn framing(&self) -> Framing
        ensures { result ≡ self.now.framing }
    {
        self.framing
    }

    /// Whether each mirror for which a node is listed connects to an earlier one.
    pub fn is_ordered(&self) -> bool
        ensures yes { IsTrue result → IsOrdered self.now.upstreams }
        ensures no { IsOrdered self.now.upstreams → IsTrue result }
    {
        match self.upstreams() {
            Some(upstreams) => are_ordered(upstreams),
            None => true,
        }
    }

    /// The node that each mirror connects to, where they are listed; else a connect names it.
    pub fn upstreams(&self) -> Option<&[usize]>
        ensures { option_copied result ≡ self.now.upstreams }
    {
        match &self.upstreams {
            Some(upstreams) => Some(upstreams.as_slice()),
            None => None,
        }
    }
}

/// What the numbers of a `world` line say, or those of a `chunked` one.
fn read_world(alloc: Global, text: &[u8], framing: Framing) -> Result<Asked, PlayCause>
    ensures ok { IfOk result (λ asked.
        option_and_then (world_of framing) (numbers_in (words text.now)) ≡ Some asked) }
    ensures err { IfErr result (λ cause. cause ≢ Memory → (cause ≡ Script)
        × (option_and_then (world_of framing) (numbers_in (words text.now)) ≡ None)) }
{
    let mut numbers = read_numbers(alloc, text)?;
    if numbers.len() < 2 {
        return Err(PlayCause::Script);
    }
    let history = numbers.remove(0);
    let staged = numbers.remove(0);
    Ok(Asked {
        history,
        staged,
        nodes: numbers.len() + 1,
        framing,
        upstreams: Some(numbers),
    })
}

/// How bodies are framed, by its word.
fn framing_of(word: &[u8]) -> Option<Framing>
    ensures { result ≡ framing_in word.now }
{
    if is(word, "close") {
        Some(Framing::Close)
    } else if is(word, "chunked") {
        Some(Framing::Chunked)
    } else {
        None
    }
}

/// What the words of a `nodes` line say.
#[tactic(auto, using(crate::proofs::NumberLemmas::nodes_long))]
fn read_nodes(text: &[u8]) -> Option<Asked>
    ensures { result ≡ nodes_in (words text.now) }
{
    let (history, behind) = split_word(text);
    let (staged, behind) = split_word(behind?);
    let (nodes, behind) = split_word(behind?);
    let (framing, behind) = split_word(behind?);
    if behind.is_some() {
        return None;
    }
    let framing = framing_of(framing)?;
    Some(Asked {
        history: read_number(history)?,
        staged: read_number(staged)?,
        nodes: read_number(nodes)?,
        framing,
        upstreams: None,
    })
}

/// What the first line of a script says of its world.
pub fn read_first(alloc: Global, line: &[u8]) -> Result<Asked, PlayCause>
    ensures ok { IfOk result (λ asked. shape_in line.now ≡ Some asked) }
    ensures err { IfErr result (λ cause. cause ≢ Memory
        → (cause ≡ Script) × (shape_in line.now ≡ None)) }
{
    let (name, behind) = split_word(line);
    let Some(text) = behind else {
        return Err(PlayCause::Script);
    };
    if is(name, "world") {
        read_world(alloc, text, Framing::Close)
    } else if is(name, "chunked") {
        read_world(alloc, text, Framing::Chunked)
    } else if is(name, "nodes") {
        read_nodes(text).ok_or(PlayCause::Script)
    } else {
        Err(PlayCause::Script)
    }
}
