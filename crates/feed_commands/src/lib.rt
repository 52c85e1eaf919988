//! The commands, over devices.
#![tactic(auto)]

mod buffer;
mod commands;
mod device_lines;
mod fault;
mod input;
mod opening;
mod placing;
mod printing;
mod record_lines;
mod reporting;
mod snapshot;

pub use commands::audit::{print_verdict, read_record};
pub use commands::findings::{Finding, Findings, find_all};
pub use commands::pull::{Pull, print_pulled, pull_outcome, servers_of, start_mirror};
pub use commands::relay::{Network, Relay, print_relayed};
pub use commands::serve::{FedPrimary, serve_all, start_primary};
pub use commands::{perform, run};
pub use device_lines::{DeviceLines, STREAMED_BYTES};
pub use fault::{Fault, FeedStop, REFUSED, SurveyStop};
pub use feed_arguments::{
    AddressFault, AtTimeOptions, AuditOptions, CompareOptions, Listed, ListedFault, LiveOptions,
    Local, MOST_ADDRESSES, NoCommand, PROGRAM, ProbeOptions, PullOptions, RecordOptions,
    RelayOptions, ReplayOptions, Request, ServeOptions, TablesOptions, UpstreamOptions, VERSION,
    Verbosity, addresses, parse_words, server_listed,
};
pub use feed_audit::AuditFault;
pub use feed_http::{device, memory, stream};
pub use feed_play::{PlayCause, PlayFault, play};
pub use feed_records::{Replayed, ScreenLines, Skipped, TextLines, Unread};
pub use feed_relay::{Accept, AttemptEnd, Dial, NetworkFault, Server, follow_first};
pub use placing::{Counting, Spot};
pub use record_lines::{RecordLines, Recording};
pub use reporting::{report, report_about, report_more, report_text, report_with};
