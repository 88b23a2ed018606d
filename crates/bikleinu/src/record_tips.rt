//! The tips for records that have no page.
use crate::report::Report;
use crate::tips::Tips;
use liquid_commands::{MergeCall, Sources, Tip, page_tip, record_tip};
use liquid_core::ErrorKind;
use liquid_data::Records;
use liquid_records::Why;
use std::io::Read;

/// What is known of a merge where a record has no page.
#[derive(Clone, Copy)]
pub struct Failing<'m> {
    pub rt: &'m HostRuntime,
    pub call: &'m MergeCall<'m>,
    pub sources: &'m Sources,
    /// Whether a partial is refused, so that one that isn't known may be given.
    pub has_refusals: bool,
}

impl Failing<'_> {
    /// Prints the tip for the record that was read last, where none was printed before.
    pub fn print_tip<R: Read + Drop>(self, report: &Report, records: &Records<R>, tips: &mut Tips) {
        let Some(why) = report.why() else {
            return;
        };
        if let Why::Faulted(fault) | Why::Unnamed(fault) = why {
            if fault.kind == ErrorKind::UnknownVariable {
                self.print_names(records, tips);
            }
            tips.print_partial(self.rt, &self.call.inputs, self.sources, fault);
        }
        tips.print(self.rt, self.tip_for(why, records));
    }

    /// Prints the names that there are in place of one that there isn't.
    fn print_names<R: Read + Drop>(self, records: &Records<R>, tips: &mut Tips) {
        if !records.columns().is_empty() {
            tips.print_columns(self.rt, records.columns());
        } else if records.number() == 1 {
            tips.print_list(self.rt, records.text());
        }
    }

    /// The option that is a way out.
    fn tip_for<R: Read + Drop>(self, why: &Why, records: &Records<R>) -> Option<Tip> {
        match why {
            Why::NoData(fault) => {
                let is_first = records.are_lines() && records.number() == 1;
                record_tip(
                    fault.kind,
                    self.call.records,
                    self.call.inputs.forms.decimals_as_texts,
                    is_first.then_some(records.text()),
                )
            }
            Why::Faulted(fault) => match fault.kind {
                ErrorKind::UnknownPartial if self.has_refusals => None,
                kind => page_tip(kind, self.call.missing),
            },
            _ => None,
        }
    }
}
