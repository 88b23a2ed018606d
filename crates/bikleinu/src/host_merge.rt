//! Merges with the filters of a set.
use crate::filters::{FilteredTask, with_filters};
use crate::merge::merge_by;
use crate::parts::UsedParts;
use liquid_commands::{MergeCall, Stop};
use liquid_core::{HostFilters, Object};

/// Writes the page of each record, with the filters of the set that the call names, by the settings
/// that the shared data has, and Shopify's with the address of assets where one is.
pub fn merge_with<'r>(
    rt: &'r HostRuntime,
    call: &'r MergeCall<'r>,
    read: UsedParts<'r>,
) -> Result<(), Stop> {
    match call.inputs.filters {
        Some(set) => {
            let task = MergeTask { rt, call, read };
            with_filters(rt.alloc(), set, call.inputs.assets, task)?
        }
        None => merge_by(rt, call, read, HostFilters::new(Vec::new(rt.alloc()))),
    }
}

/// A merge, to be done with the filters of a set.
#[derive(Drop)]
struct MergeTask<'r> {
    rt: &'r HostRuntime,
    call: &'r MergeCall<'r>,
    read: UsedParts<'r>,
}

impl FilteredTask for MergeTask<'_> {
    type Answer = Result<(), Stop>;

    fn data(&self) -> &Object {
        &self.read.parts.data
    }

    fn run(self, host: HostFilters) -> Result<(), Stop> {
        let MergeTask { rt, call, read } = self;
        merge_by(rt, call, read, host)
    }
}
