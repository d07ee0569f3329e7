//! Where a route leads: to which partition a row goes, and between which partitions rows may go.
ghost use Rattle.std.specs.Prelude.{◌≡◌, ◌≢◌, ◌<◌};
ghost use Rattle.mit_ops.specs.Routes.{senders_of, target_of, targets_of};

use crate::keys::hash_of;
use mit_ops::Route;
use mit_rows::Row;

/// The partition to which a row of the partition `from` goes. A route that goes to every partition has no single one.
pub fn target(row: &Row, route: &Route, from: u16, parts: u16) -> u16
    requires dealt { route.now ≢ Route.Broadcast }
    requires among { from < parts }
    ensures value { result ≡ target_of route.now from parts row.now }
    ensures among { result < parts }
{
    match route {
        Route::Forward => from,
        Route::Gather | Route::Broadcast => 0,
        Route::ByKey(columns) => (hash_of(columns.as_slice(), row) % u64::from(parts)) as u16,
    }
}

/// The first partition to which rows of the partition `from` may go, and how many there are.
pub fn targets(route: &Route, from: u16, parts: u16) -> (u16, u16)
    ensures { result ≡ targets_of route.now from parts }
{
    match route {
        Route::Forward => (from, 1),
        Route::Gather => (0, 1),
        Route::Broadcast | Route::ByKey(_) => (0, parts),
    }
}

/// The first partition from which rows may come to the partition `to`, and how many there are.
pub fn senders(route: &Route, to: u16, parts: u16) -> (u16, u16)
    ensures { result ≡ senders_of route.now to parts }
{
    match route {
        Route::Forward => (to, 1),
        Route::Gather => (0, if to == 0 { parts } else { 0 }),
        Route::Broadcast | Route::ByKey(_) => (0, parts),
    }
}
