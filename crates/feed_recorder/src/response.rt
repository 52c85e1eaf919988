//! A response that comes piece by piece: its payload is taken out.

use crate::cut::Cut;
use crate::head::{Head, find_head};
use feed_commands::Fault;
use feed_tape::{BodyFault, Payload};
use std::alloc::Global;

/// A response, as far as it came.
#[derive(Drop)]
pub(crate) struct Response {
    /// Whether it was asked for with a token.
    had_token: bool,
    /// The bytes of a head that isn't whole.
    head: Vec<u8>,
    /// The body; nothing before the head is whole.
    body: Option<Payload>,
    /// The payload that came with the last piece.
    pub(crate) payload: Vec<u8>,
}

/// Why no more of a response is taken.
#[derive(Clone, Copy)]
pub(crate) enum Stop {
    Cut(Cut),
    Fault(Fault),
}

impl From<Cut> for Stop {
    fn from(cut: Cut) -> Stop {
        Stop::Cut(cut)
    }
}

fn needs_memory<T: Drop, E: Drop>(outcome: Result<T, E>) -> Result<T, Stop> {
    match outcome {
        Ok(value) => Ok(value),
        Err(_) => Err(Stop::Fault(Fault::Memory)),
    }
}

impl Response {
    /// Nothing came.
    pub(crate) fn new(alloc: Global, had_token: bool) -> Response {
        Response {
            had_token,
            head: Vec::new(alloc),
            body: None,
            payload: Vec::new(alloc),
        }
    }

    /// Whether its end came.
    pub(crate) fn is_whole(&self) -> bool {
        match self.body {
            Some(body) => body.is_whole(),
            None => false,
        }
    }

    /// Takes the next bytes: `payload` has what they carry.
    pub(crate) fn take(&mut self, alloc: Global, piece: &[u8]) -> Result<(), Stop> {
        self.payload.clear();
        if let Some(body) = self.body {
            return self.take_body(body, piece);
        }
        needs_memory(self.head.extend_from_slice(piece))?;
        match find_head(self.head.as_slice())? {
            Some(head) => self.begin_body(alloc, head),
            None => Ok(()),
        }
    }

    /// The head is whole: what stands behind it is of the body.
    fn begin_body(&mut self, alloc: Global, head: Head) -> Result<(), Stop> {
        match head.status {
            200 => {}
            400 if self.had_token => return Err(Stop::Cut(Cut::Refused)),
            status => return Err(Stop::Cut(Cut::Status(status))),
        }
        let behind = self.head.get(head.len..).unwrap_or(&[]);
        let behind = needs_memory(Vec::from_slice(alloc, behind))?;
        self.take_body(Payload::new(head.framing), behind.as_slice())
    }

    fn take_body(&mut self, body: Payload, piece: &[u8]) -> Result<(), Stop> {
        match body.take(piece, &mut self.payload) {
            Ok(body) => {
                self.body = Some(body);
                Ok(())
            }
            Err(BodyFault::BadChunk) => Err(Stop::Cut(Cut::BadChunk)),
            Err(BodyFault::Memory) => Err(Stop::Fault(Fault::Memory)),
        }
    }
}
