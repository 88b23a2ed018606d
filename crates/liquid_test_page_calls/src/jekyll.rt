//! The filters of Jekyll, called by their names.
use crate::given::option;
use crate::hosts::called_in_turn;
use liquid_core::{Filter, HostFilters, Result, Value};
use liquid_filter_sets::{CONVERTERS, Conversion, WhereExp};
use liquid_jekyll_host_filters::{JEKYLL_FILTERS, SiteFilter};
use liquid_test_refusals::{Reporter, WorkedRow, text_of};
use std::alloc::Global;

/// The calls of the row, with the filters over the site that it tells.
pub(crate) fn jekyll_called<R: Print>(reporter: &Reporter<'_, R>, row: &WorkedRow) -> Result<()> {
    let alloc = reporter.alloc;
    let address = text_option(&row.on, "address");
    let base = text_option(&row.on, "base");
    let name = String::from_str(alloc, "where_exp")?;
    let where_exp: Box<dyn Filter> = Box::new(alloc, WhereExp)?;
    let mut filters = Vec::new(alloc);
    filters.push((name, where_exp))?;
    for filter in &JEKYLL_FILTERS {
        let name = String::from_str(alloc, filter.name())?;
        let site = SiteFilter::new(alloc, *filter, address, base)?;
        let boxed: Box<dyn Filter> = Box::new(alloc, site)?;
        filters.push((name, boxed))?;
    }
    for converter in &CONVERTERS {
        let name = String::from_str(alloc, converter.name())?;
        let table = option(&row.on, converter.name()).map_or(&Value::Nil, |table| table);
        let filter = Conversion {
            converter: *converter,
            table: table.copy(alloc)?,
        };
        let boxed: Box<dyn Filter> = Box::new(alloc, filter)?;
        filters.push((name, boxed))?;
    }
    called_in_turn(reporter, &HostFilters::new(filters), &row.with)
}

/// A text of the options, or the empty one.
fn text_option<'o>(options: &'o Value, name: &str) -> &'o str {
    option(options, name).map_or("", text_of)
}
