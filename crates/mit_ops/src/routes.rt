//! Routes: which rows of an input go to which partition.
ghost use Rattle.std.specs.Prelude.{◌≡◌, IfOk};
ghost use Rattle.mit_ops.specs.Routes as spec_of;
ghost use Rattle.mit_ops.specs.Routes.{route_to};

use crate::kinds::OpSpec;
use crate::lists::Columns;
use std::alloc::{AllocError, Global};

/// How the rows of an input go to the partitions.
#[derive(Debug, Drop)]
pub enum Route {
    /// Each row stays in its partition.
    Forward,
    /// All rows go to partition 0.
    Gather,
    /// Each row goes to every partition.
    Broadcast,
    /// Each row goes where the hash of its values in these columns leads.
    ByKey(Columns),
}

impl Route {
    /// An equal route.
    pub fn copy(&self, alloc: Global) -> Result<Route, AllocError>
        ensures { IfOk result (λ other. other ≡ self.now) }
    {
        match self {
            Route::Forward => Ok(Route::Forward),
            Route::Gather => Ok(Route::Gather),
            Route::Broadcast => Ok(Route::Broadcast),
            Route::ByKey(columns) => Ok(Route::ByKey(columns.copy(alloc)?)),
        }
    }
}

/// The route of an operator's input of this number, from 0: the bags come first, then the captured scalars. A bag has this many
/// columns.
pub fn route_of(alloc: Global, spec: &OpSpec, input: u16, columns: u8) -> Result<Route, AllocError>
    ensures { IfOk result (λ route. route ≡ route_to spec.now input columns) }
{
    if input < spec.bag_inputs() {
        bag_route(alloc, spec, input, columns)
    } else {
        Ok(capture_route(spec))
    }
}

/// The route of a bag.
fn bag_route(alloc: Global, spec: &OpSpec, input: u16, columns: u8) -> Result<Route, AllocError>
    ensures { IfOk result (λ route. route ≡ spec_of.bag_route spec.now input columns) }
{
    match spec {
        OpSpec::Join { left, right } => {
            let keys = if input == 0 { left } else { right };
            Ok(Route::ByKey(keys.copy(alloc)?))
        }
        OpSpec::Reduce { keys, .. } => Ok(Route::ByKey(keys.copy(alloc)?)),
        OpSpec::Distinct => Ok(Route::ByKey(Columns::first(alloc, columns)?)),
        OpSpec::Only | OpSpec::Count | OpSpec::Sum { .. } | OpSpec::Write { .. } => {
            Ok(Route::Gather)
        }
        _ => Ok(Route::Forward),
    }
}

/// The route of a captured scalar.
fn capture_route(spec: &OpSpec) -> Route
    ensures { result ≡ spec_of.capture_route spec.now }
{
    match spec {
        OpSpec::Scalar { .. } | OpSpec::MakeRow { .. } | OpSpec::Write { .. } => Route::Gather,
        _ => Route::Broadcast,
    }
}
