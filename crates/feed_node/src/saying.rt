//! Whether what changes say stands in tables already.

use feed_tables::{Change, Tables};
use feed_text::ObjectText;
use std::alloc::{AllocError, Global};

/// Whether changes, and those behind them, would leave the tables as they are. It takes time by the
/// changes, and not by the tables.
pub(crate) fn stands(
    alloc: Global,
    tables: &Tables,
    changes: &[Change],
    behind: &[Change],
) -> Result<bool, AllocError> {
    let mut made = Tables::new(alloc);
    make(alloc, &mut made, changes)?;
    make(alloc, &mut made, behind)?;
    Ok(stand_all(tables, &made, changes) && stand_all(tables, &made, behind))
}

/// Makes changes, in order.
fn make(alloc: Global, tables: &mut Tables, changes: &[Change]) -> Result<(), AllocError> {
    for change in changes {
        tables.apply(alloc, change)?;
    }
    Ok(())
}

/// Whether, wherever one of these changes speaks of, tables hold what the changes made.
fn stand_all(tables: &Tables, made: &Tables, changes: &[Change]) -> bool {
    for change in changes {
        if !stands_at(tables, made, change) {
            return false;
        }
    }
    true
}

/// So it is where one change speaks of. One that takes an object away leaves no collection where
/// none was.
fn stands_at(tables: &Tables, made: &Tables, change: &Change) -> bool {
    match change {
        Change::Remove(kind, id) => {
            let (kind, id) = (kind.text(), id.text());
            is_same(tables.get(kind, id), made.get(kind, id))
        }
        _ => tables.agree_at(made, change),
    }
}

fn is_same(object: Option<&ObjectText>, other: Option<&ObjectText>) -> bool {
    match (object, other) {
        (Some(object), Some(other)) => object.bytes() == other.bytes(),
        (None, None) => true,
        _ => false,
    }
}
