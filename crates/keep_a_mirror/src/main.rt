//! How a program keeps a mirror of a contest's event feed, with the library `feed_node`.
//!
//! Three connections to a server are built in, so that the program needs no network: the first
//! breaks within a line, the second brings a line that has no meaning, the third ends well. A
//! program with sockets feeds the mirror what its reads give, as `follow` does piece by piece.
#![tactic(auto)]

mod follow;

use crate::follow::follow;
use anyhow::Result;
use feed_node::{Limits, Mirror};
use std::io::Write;

/// How many commits the mirror keeps, for those who follow it in turn.
const HISTORY: usize = 100;

/// How many changes may wait for a token, and how large the tables may grow.
const STAGED: usize = 10_000;

/// What the server sends to one who asks for everything: a snapshot, whose last line has its token;
/// a commit with the next token; and the prefix of a line, within which the connection breaks.
const FIRST: &[u8] = b"{\"type\":\"teams\",\"id\":null,\"data\":[]}\n\
{\"type\":\"teams\",\"id\":\"7\",\"data\":{\"id\":\"7\",\"name\":\"Gulls\"},\"token\":\"1\"}\n\
{\"type\":\"teams\",\"id\":\"8\",\"data\":{\"id\":\"8\",\"name\":\"Herons\"},\"token\":\"2\"}\n\
{\"type\":\"teams\",\"id\":\"7\",\"data\":{\"id\":\"7\",\"na";

/// What it sends to one who goes on from token 2: a commit, and a line that has no meaning.
const SECOND: &[u8] =
    b"{\"type\":\"teams\",\"id\":\"9\",\"data\":{\"id\":\"9\",\"name\":\"Terns\"},\"token\":\"3\"}\n\
{\"type\":\"teams\",\"id\":\"9\",\"data\":[]}\n";

/// What it sends to one who goes on from token 3: a commit of two changes, and an empty line to
/// show that it is alive.
const THIRD: &[u8] =
    b"{\"type\":\"teams\",\"id\":\"7\",\"data\":{\"id\":\"7\",\"name\":\"Black Gulls\"}}\n\
{\"type\":\"state\",\"id\":null,\"data\":{\"ended\":null},\"token\":\"4\"}\n\
\n";

/// Prints what a client is to ask the server for. Where the server answers that it no longer holds
/// the token, `mirror.refused()` notes it: the next connection asks for everything, and until that
/// has come the mirror shows what it showed.
fn print_request(rt: &impl Print, mirror: &Mirror) -> Result<()> {
    match mirror.since() {
        Some(token) => println!(rt; "asks for what came after token {token}")?,
        None => println!(rt; "asks for everything")?,
    }
    Ok(())
}

fn main(rt: HostRuntime) -> Result<()> {
    let alloc = rt.alloc();
    let mut mirror = Mirror::new(alloc, Limits::new(HISTORY, STAGED)?)?;
    for connection in [FIRST, SECOND, THIRD] {
        print_request(&rt, &mirror)?;
        match follow(alloc, &mut mirror, connection) {
            Ok(()) => println!(rt; "followed it to its end")?,
            // What the lines before the fault published stands. A client tells the fault, and
            // connects again.
            Err(fault) => println!(rt; "stopped: {fault}")?,
        }
    }
    // What the mirror shows, as the lines of a feed. A screen would look into
    // `mirror.node().published()` instead.
    let snapshot = mirror.save(alloc)?;
    rt.stdout().write_all(&snapshot)?;
    Ok(())
}
