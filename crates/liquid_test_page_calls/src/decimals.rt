//! The filters over decimals, called by their names.
use crate::hosts::called_in_turn;
use liquid_core::{Filter, HostFilters, Result};
use liquid_decimals::DECIMAL_FILTERS;
use liquid_test_refusals::{Reporter, WorkedRow};

/// The calls of the row.
pub(crate) fn decimals_called<R: Print>(reporter: &Reporter<'_, R>, row: &WorkedRow) -> Result<()> {
    let alloc = reporter.alloc;
    let mut filters = Vec::new(alloc);
    for filter in &DECIMAL_FILTERS {
        let name = String::from_str(alloc, filter.name())?;
        let boxed: Box<dyn Filter> = Box::new(alloc, *filter)?;
        filters.push((name, boxed))?;
    }
    called_in_turn(reporter, &HostFilters::new(filters), &row.with)
}
