//! What is told as JSON. Each object is written member by member, since derived impls are slower to
//! prove.

use crate::health::Level;
use crate::plots::{Latest, PlotsJson, Point};
use crate::rows::Row;
use crate::screens::{ScreenJson, ScreensJson};
use crate::servers::ServerJson;
use crate::status::{
    FailureCount, FileStatus, InPlaceOf, LastFailure, Latency, Refused, ScreensStatus, Status,
    UpstreamState, UpstreamStatus,
};
use serde::{Described, Serialize, Serializer};

/// Writes a member of an object, if what comes before it was written.
fn put_member<T: Serialize, S: Serializer>(
    before: Result<(), S::Error>,
    name: &str,
    value: &T,
    out: &mut S,
) -> Result<(), S::Error> {
    before?;
    out.key(name)?;
    value.serialize(out)
}

/// Writes the end of an object, if what comes before it was written.
fn put_end<S: Serializer>(before: Result<(), S::Error>, out: &mut S) -> Result<(), S::Error> {
    before?;
    out.end_map()
}

/// Writes an object with two members.
fn put_pair<A: Serialize, B: Serialize, S: Serializer>(
    names: [&str; 2],
    first: &A,
    second: &B,
    out: &mut S,
) -> Result<(), S::Error> {
    let put = out.begin_map(None);
    let put = put_member(put, names[0], first, out);
    let put = put_member(put, names[1], second, out);
    put_end(put, out)
}

/// What `/status.json` has: the status, with its level, its headline, the rows of the page's table,
/// and the servers.
#[derive(Clone, Copy)]
pub(crate) struct StatusJson<'a> {
    pub(crate) level: Level,
    pub(crate) headline: &'a str,
    pub(crate) rows: &'a [Row],
    pub(crate) servers: &'a [ServerJson<'a>],
    pub(crate) status: &'a Status<'a>,
}

impl Described for StatusJson<'_> {}

impl Serialize for StatusJson<'_> {
    fn serialize<S: Serializer>(&self, out: &mut S) -> Result<(), S::Error> {
        let put = out.begin_map(None);
        let put = put_member(put, "level", &self.level, out);
        let put = put_member(put, "headline", &self.headline, out);
        let put = put_member(put, "rows", &self.rows, out);
        let put = put_member(put, "servers", &self.servers, out);
        let put = put_member(put, "status", &self.status, out);
        put_end(put, out)
    }
}

impl Described for Status<'_> {}

impl Serialize for Status<'_> {
    fn serialize<S: Serializer>(&self, out: &mut S) -> Result<(), S::Error> {
        let put = out.begin_map(None);
        let put = put_member(put, "version", &self.version, out);
        let put = put_member(put, "contest", &self.contest, out);
        let put = put_member(put, "uptime_ms", &self.uptime_ms, out);
        let put = put_member(put, "silence_ms", &self.silence_ms, out);
        let put = put_member(put, "answering", &self.answering, out);
        let put = put_member(put, "upstream", &self.upstream, out);
        let put = put_member(put, "token", &self.token, out);
        let put = put_member(put, "commits", &self.commits, out);
        let put = put_member(put, "commit_age_ms", &self.commit_age_ms, out);
        let put = put_member(put, "types", &self.types, out);
        let put = put_member(put, "objects", &self.objects, out);
        let put = put_member(put, "bytes", &self.bytes, out);
        let put = put_member(put, "refused_by_address", &self.refused_by_address, out);
        let put = put_member(put, "screens", &self.screens, out);
        let put = put_member(put, "state_file", &self.state_file, out);
        let put = put_member(put, "latency", &self.latency, out);
        let put = put_member(put, "plot", &self.plot, out);
        put_end(put, out)
    }
}

impl Described for UpstreamStatus<'_> {}

impl Serialize for UpstreamStatus<'_> {
    fn serialize<S: Serializer>(&self, out: &mut S) -> Result<(), S::Error> {
        let put = out.begin_map(None);
        let put = put_member(put, "name", &self.name, out);
        let put = put_member(put, "index", &self.index, out);
        let put = put_member(put, "in_place_of", &self.in_place_of, out);
        let put = put_member(put, "state", &self.state, out);
        let put = put_member(put, "since_ms", &self.since_ms, out);
        let put = put_member(put, "silent_ms", &self.silent_ms, out);
        let put = put_member(put, "failures", &self.failures, out);
        let put = put_member(put, "last_failure", &self.last_failure, out);
        let put = put_member(put, "failed_by", &self.failed_by, out);
        let put = put_member(put, "coming_lines", &self.coming_lines, out);
        let put = put_member(put, "coming_bytes", &self.coming_bytes, out);
        let put = put_member(put, "held", &self.held, out);
        let put = put_member(put, "stuck", &self.stuck, out);
        let put = put_member(put, "gives_twice", &self.gives_twice, out);
        let put = put_member(put, "waiting", &self.waiting, out);
        let put = put_member(put, "waiting_ms", &self.waiting_ms, out);
        let put = put_member(put, "lacks_tokens", &self.lacks_tokens, out);
        put_end(put, out)
    }
}

impl Described for InPlaceOf<'_> {}

impl Serialize for InPlaceOf<'_> {
    fn serialize<S: Serializer>(&self, out: &mut S) -> Result<(), S::Error> {
        let put = out.begin_map(None);
        let put = put_member(put, "name", &self.name, out);
        let put = put_member(put, "why", &self.why, out);
        let put = put_member(put, "for_ms", &self.for_ms, out);
        put_end(put, out)
    }
}

impl Described for ScreensStatus {}

impl Serialize for ScreensStatus {
    fn serialize<S: Serializer>(&self, out: &mut S) -> Result<(), S::Error> {
        let put = out.begin_map(None);
        let put = put_member(put, "open", &self.open, out);
        let put = put_member(put, "asking", &self.asking, out);
        let put = put_member(put, "behind", &self.behind, out);
        let put = put_member(put, "waiting", &self.waiting, out);
        let put = put_member(put, "most", &self.most, out);
        let put = put_member(put, "opened", &self.opened, out);
        let put = put_member(put, "refused", &self.refused, out);
        let put = put_member(put, "refused_by", &self.refused_by, out);
        let put = put_member(put, "cut", &self.cut, out);
        let put = put_member(put, "bytes", &self.bytes, out);
        let put = put_member(put, "full", &self.full, out);
        let put = put_member(put, "resets", &self.resets, out);
        let put = put_member(put, "ended", &self.ended, out);
        put_end(put, out)
    }
}

impl Described for FileStatus<'_> {}

impl Serialize for FileStatus<'_> {
    fn serialize<S: Serializer>(&self, out: &mut S) -> Result<(), S::Error> {
        let put = out.begin_map(None);
        let put = put_member(put, "bytes", &self.bytes, out);
        let put = put_member(put, "age_ms", &self.age_ms, out);
        let put = put_member(put, "fault", &self.fault, out);
        let put = put_member(put, "failures", &self.failures, out);
        put_end(put, out)
    }
}

impl Described for ScreenJson<'_> {}

impl Serialize for ScreenJson<'_> {
    fn serialize<S: Serializer>(&self, out: &mut S) -> Result<(), S::Error> {
        let put = out.begin_map(None);
        let put = put_member(put, "address", &self.address, out);
        let put = put_member(put, "for_ms", &self.for_ms, out);
        let put = put_member(put, "status", &self.status, out);
        let put = put_member(put, "token", &self.token, out);
        let put = put_member(put, "behind_bytes", &self.behind_bytes, out);
        let put = put_member(put, "bytes", &self.bytes, out);
        let put = put_member(put, "cells", &self.cells, out);
        put_end(put, out)
    }
}

impl Described for ServerJson<'_> {}

impl Serialize for ServerJson<'_> {
    fn serialize<S: Serializer>(&self, out: &mut S) -> Result<(), S::Error> {
        let server = self.server;
        let put = out.begin_map(None);
        let put = put_member(put, "name", &server.name, out);
        let put = put_member(put, "state", &self.state, out);
        let put = put_member(put, "for_ms", &server.for_ms, out);
        let put = put_member(put, "asked", &server.asked, out);
        let put = put_member(put, "last_status", &server.status, out);
        let put = put_member(put, "failures", &server.failures, out);
        let put = put_member(put, "last_failure", &self.last_failure, out);
        let put = put_member(put, "token", &server.token, out);
        let put = put_member(put, "cells", &self.cells, out);
        put_end(put, out)
    }
}

impl Described for FailureCount<'_> {}

impl Serialize for FailureCount<'_> {
    fn serialize<S: Serializer>(&self, out: &mut S) -> Result<(), S::Error> {
        put_pair(["reason", "count"], &self.reason, &self.count, out)
    }
}

impl Described for LastFailure<'_> {}

impl Serialize for LastFailure<'_> {
    fn serialize<S: Serializer>(&self, out: &mut S) -> Result<(), S::Error> {
        put_pair(["text", "age_ms"], &self.text, &self.age_ms, out)
    }
}

impl Described for Refused {}

impl Serialize for Refused {
    fn serialize<S: Serializer>(&self, out: &mut S) -> Result<(), S::Error> {
        put_pair(["status", "count"], &self.status, &self.count, out)
    }
}

impl Described for Latency {}

impl Serialize for Latency {
    fn serialize<S: Serializer>(&self, out: &mut S) -> Result<(), S::Error> {
        let put = out.begin_map(None);
        let put = put_member(put, "at_most", &self.at_most, out);
        let put = put_member(put, "commits", &self.commits, out);
        let put = put_member(put, "sum_us", &self.sum_us, out);
        put_end(put, out)
    }
}

impl Described for Latest {}

impl Serialize for Latest {
    fn serialize<S: Serializer>(&self, out: &mut S) -> Result<(), S::Error> {
        put_pair(["second", "point"], &self.second, &self.point, out)
    }
}

impl Described for Point {}

impl Serialize for Point {
    fn serialize<S: Serializer>(&self, out: &mut S) -> Result<(), S::Error> {
        let put = out.begin_map(None);
        let put = put_member(put, "commits", &self.commits, out);
        let put = put_member(put, "screens", &self.screens, out);
        let put = put_member(put, "slowest_us", &self.slowest_us, out);
        put_end(put, out)
    }
}

impl Described for PlotsJson {}

impl Serialize for PlotsJson {
    fn serialize<S: Serializer>(&self, out: &mut S) -> Result<(), S::Error> {
        put_pair(["second", "points"], &self.second, &self.points, out)
    }
}

impl Described for ScreensJson<'_> {}

impl Serialize for ScreensJson<'_> {
    fn serialize<S: Serializer>(&self, out: &mut S) -> Result<(), S::Error> {
        put_pair(["open", "screens"], &self.open, &self.screens, out)
    }
}

impl Described for Row {}

impl Serialize for Row {
    fn serialize<S: Serializer>(&self, out: &mut S) -> Result<(), S::Error> {
        put_pair(["label", "text"], &self.label, &self.text, out)
    }
}

impl Described for Level {}

impl Serialize for Level {
    fn serialize<S: Serializer>(&self, out: &mut S) -> Result<(), S::Error> {
        out.str(self.word())
    }
}

impl Described for UpstreamState {}

impl Serialize for UpstreamState {
    fn serialize<S: Serializer>(&self, out: &mut S) -> Result<(), S::Error> {
        out.str(self.word())
    }
}
