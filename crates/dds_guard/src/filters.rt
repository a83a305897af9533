//! The keys that an application takes at each reader.
ghost use Rattle.std.specs.Prelude.{◌≡◌, ◌<◌, length, IfOk};
ghost use Rattle.dds_guard.specs.Guard.{filters_of, own_filter};

use dds_base::{AppNo, KeyNo, NoMemory, ReaderNo};
use dds_lists::Deployment;
use std::alloc::Global;
use std::marker::Model;

/// The keys that the application takes at a reader: those of the filter where the reader is the application's, else
/// none.
#[derive(Drop)]
pub(crate) struct Filter {
    pub(crate) keys: Vec<KeyNo>,
}

impl Model for Filter {
    ghost use Rattle.std.specs.Prelude.{ℕ, List};

    ghost Value = { List ℕ };

    ghost view = { λ f. f.keys.items };
}

impl Filter {
    fn of(alloc: Global, lists: &Deployment, app: AppNo, r: ReaderNo) -> Result<Filter, NoMemory>
        requires app { app < length lists.now.applications.entries }
        requires reader { r < length lists.now.readers.entries }
        ensures { IfOk result (λ f. f ≡ own_filter lists.now app r) }
    {
        if lists.application(app).readers.contains(&r) {
            let keys = Vec::from_slice(alloc, &lists.reader(r).filter)?;
            return Ok(Filter { keys });
        }
        Ok(Filter {
            keys: Vec::new(alloc),
        })
    }
}

/// What the application takes at each reader.
pub(crate) fn filters_of(
    alloc: Global,
    lists: &Deployment,
    app: AppNo,
) -> Result<Vec<Filter>, NoMemory>
    requires { app < length lists.now.applications.entries }
    ensures { IfOk result (λ v. v.items ≡ filters_of lists.now app) }
{
    let mut filters = Vec::with_capacity(alloc, lists.readers())?;
    for r in 0..lists.readers() {
        filters.push(Filter::of(alloc, lists, app, ReaderNo::new(r))?)?;
    }
    Ok(filters)
}
