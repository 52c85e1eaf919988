//! What a relay is set to and runs on, before it begins.

use crate::live::hosting::Hosting;
use crate::live::{Engine, RelayDevices};
use feed_commands::{LiveOptions, Verbosity};
use feed_device::Devices;
use feed_host::Failure;
use feed_ledger::{NotedLink, NotedSockets};
use feed_live::{LiveLimits, ScreenLimits, Setup};
use feed_process::{Made, make};
use feed_recorder::Replay;
use feed_system::Resources;

fn screen_limits_of(options: &LiveOptions<'_>) -> ScreenLimits {
    ScreenLimits {
        most: options.screens,
        window: options.window,
        pending: options.pending,
        idle: options.idle.saturating_mul(1_000),
        framing: options.framing,
        is_verbose: options.verbosity == Verbosity::Verbose,
    }
}

fn limits_of(options: &LiveOptions<'_>, are_strange: bool) -> LiveLimits {
    LiveLimits {
        screens: screen_limits_of(options),
        settle: options.settle,
        is_fresh: options.fresh,
        are_strange,
        return_after: options.return_after.saturating_mul(1_000),
        rechecks: !options.no_recheck,
        hold: options.hold.saturating_mul(1_000),
        serves_old: options.serve_old,
        serves_broken: options.serve_broken,
        has_store: options.state.is_some(),
        ends_with_input: options.until_eof,
    }
}

/// What a relay is set to, and all that it runs on.
#[derive(Drop)]
pub(super) struct Prepared<'r> {
    pub(super) setup: Setup,
    pub(super) hosting: Hosting<'r>,
    pub(super) devices: RelayDevices<'r>,
}

/// Makes all that a relay runs on, and listens.
pub(super) fn prepare<'r>(
    rt: &'r HostRuntime,
    options: &'r LiveOptions<'r>,
    replay: Option<Replay>,
) -> Result<Prepared<'r>, Failure> {
    let Made {
        contest,
        limits,
        are_strange,
        places,
        identity,
        about,
        watched,
        opened,
    } = make(rt, options)?;
    let Resources { system, devices } = opened;
    let setup = Setup {
        contest,
        limits: limits_of(options, are_strange),
        kept: limits,
        places,
        identity,
    };
    let engine = Engine {
        rt,
        options,
        system,
        watched,
        about,
        replay,
        goes_on: options.upstream.is_none() || options.until_eof,
    };
    let Devices {
        sockets,
        link,
        store,
    } = devices;
    Ok(Prepared {
        setup,
        hosting: Hosting::new(engine),
        devices: Devices {
            sockets: NotedSockets::new(sockets),
            link: NotedLink::new(link),
            store,
        },
    })
}
