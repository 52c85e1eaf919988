//! The command line: its words, what they ask for, and lists of addresses.
#![tactic(auto)]

mod address;
mod listening;
mod network;
mod request;
mod url;
mod words;

pub use address::{AddressFault, MOST_ADDRESSES, addresses};
pub use network::{Network, Origin, is_in_any, networks};
pub use request::{
    AtTimeOptions, AuditOptions, CheckOptions, CompareOptions, LiveOptions, Local, NoCommand,
    ProbeOptions, PullOptions, RecordOptions, RelayOptions, ReplayOptions, Request, ServeOptions,
    TablesOptions, UpstreamOptions, Verbosity,
};
pub use url::{FeedUrl, Listed, ListedFault, UrlFault, feed_url, server_listed};
pub use words::{PROGRAM, VERSION, parse_words};
