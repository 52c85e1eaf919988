//! What is told of words that the command line takes, and that ask for nothing yet.
use super::asked::{compares_none, reads_input_twice, text};
use super::followed::{address_asked, asks_nobody, port_asked, status_address};
use crate::url::feed_url;
use clap::ArgMatches;
use std::alloc::{AllocError, Global};

const AUDIT_READS_TWICE: &str = "audit can read one record from standard input, and not both: \
                                 give --primary or --screen the name of a file";

const TABLES: &str = "tables takes --at TOKEN, or --at-time TIME with --times FILE";

const RECORD: &str = "record takes --url URL, or --host, --port and --contest; and --file FILE";

const NO_SERVER: &str = "--from, --host-header and --user-file go with --url, or with --host and \
                         --port";

const LISTEN: &str = "--listen is a port, 1 to 65535, or an address of this machine and a port, \
                      as 0.0.0.0:8001 or [::]:8001";

const STATUS: &str = "--status is a port, 1 to 65535, or an address of this machine and a port, \
                      as 0.0.0.0:9001 or [::]:9001";

const ADDRESS_TWICE: &str = "--listen names an address already: leave out --address";

const STATUS_ADDRESS_TWICE: &str = "--status names an address already: leave out --status-address";

const OTHERWISE: &str = "a number out of its range, or options that do not go together: \
                         audit takes --primary and --screen, or --of, --against and --contest";

/// What is told of a port, or of the address before it, where that is wrong: that the option is no
/// port, or that an address is named twice.
fn refusal_of_ports(matches: &ArgMatches<'_>) -> Option<&'static str> {
    let Some(listen) = port_asked(matches, "listen") else {
        return Some(LISTEN);
    };
    let Some(status) = port_asked(matches, "status") else {
        return Some(STATUS);
    };
    if address_asked(matches, listen.address).is_none() {
        Some(ADDRESS_TWICE)
    } else if status_address(matches, status.address).is_none() {
        Some(STATUS_ADDRESS_TWICE)
    } else {
        None
    }
}

/// What is told of a URL that names no feed; nothing if none is given, or one that does.
fn refusal_of_url(alloc: Global, matches: &ArgMatches<'_>) -> Result<Option<String>, AllocError> {
    let Some(url) = text(matches, "url") else {
        return Ok(None);
    };
    match feed_url(url) {
        Ok(_) => Ok(None),
        Err(fault) => Ok(Some(format!(in alloc; "--url: {fault}")?)),
    }
}

/// What is told of the options of `record`.
fn refusal_of_record(alloc: Global, matches: &ArgMatches<'_>) -> Result<String, AllocError> {
    match refusal_of_url(alloc, matches)? {
        Some(text) => Ok(text),
        None => String::from_str(alloc, RECORD),
    }
}

/// What is told of the options of `live`.
fn refusal_of_live(alloc: Global, matches: &ArgMatches<'_>) -> Result<String, AllocError> {
    if let Some(text) = refusal_of_url(alloc, matches)? {
        return Ok(text);
    }
    let text = match refusal_of_ports(matches) {
        Some(text) => text,
        None if !asks_nobody(matches) && text(matches, "host").is_none() => NO_SERVER,
        None => OTHERWISE,
    };
    String::from_str(alloc, text)
}

/// Why the command that was entered asks for nothing.
pub(super) fn refusal(alloc: Global, matches: &ArgMatches<'_>) -> Result<String, AllocError> {
    let text = match matches.subcommand() {
        Some(("live", options)) => return refusal_of_live(alloc, options),
        Some(("record", options)) => return refusal_of_record(alloc, options),
        Some(("replay", _)) => LISTEN,
        Some(("tables", _)) => TABLES,
        Some(("audit", options)) if compares_none(options) && reads_input_twice(options) => {
            AUDIT_READS_TWICE
        }
        _ => OTHERWISE,
    };
    String::from_str(alloc, text)
}
