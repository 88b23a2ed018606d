//! All that is said of a template.
ghost use Rattle.std.specs.Prelude.{◌≡◌, ◌++◌, IfOk};
ghost use Rattle.liquid_check.specs.Findings.{SaysAll, fault_place, fault_said, faults_said};
ghost use Rattle.liquid_warnings.specs.Remarks.{all_said, remark_view};

use crate::findings::Finding;
use liquid_core::Error;
use liquid_warnings::Remark;
use std::alloc::{AllocError, Global};

/// What is said of a template, in the order of its places: its warnings, and after those of the
/// same place its faults. A fault that is there only because of an earlier one isn't said.
///
/// `AllocError` where there is no room for it, and nowhere else.
pub fn remarks_of(
    alloc: Global,
    findings: &[Finding],
    warnings: Vec<Remark>,
) -> Result<Vec<Remark>, AllocError>
    ensures { IfOk result (λ rs. SaysAll findings.now warnings.items rs.items) }
{
    let mut remarks = with_faults(alloc, findings, warnings)?;
    remarks.sort_by(|a, b| a.line.cmp(&b.line).then(a.column.cmp(&b.column)))?;
    Ok(remarks)
}

/// The warnings with the faults that are said after them.
fn with_faults(
    alloc: Global,
    findings: &[Finding],
    warnings: Vec<Remark>,
) -> Result<Vec<Remark>, AllocError>
    ensures { IfOk result (λ rs. all_said rs.items
        ≡ all_said warnings.items ++ faults_said findings.now) }
{
    let mut remarks = warnings;
    for finding in findings {
        if !finding.follows {
            remarks.push(fault_remark(alloc, finding)?)?;
        }
    }
    Ok(remarks)
}

/// The fault of a finding.
fn fault_remark(alloc: Global, finding: &Finding) -> Result<Remark, AllocError>
    ensures { IfOk result (λ r. remark_view r ≡ fault_said finding.now) }
{
    let fault = &finding.fault;
    let (line, column) = place_of(fault);
    Ok(Remark {
        line,
        column,
        kind: fault.kind.name(),
        is_warning: false,
        message: String::from_str(alloc, fault.message_text())?,
    })
}

/// The line and the column of a fault; the first of the source where it has no location.
fn place_of(fault: &Error) -> (usize, usize)
    ensures { result ≡ fault_place fault.now }
{
    match &fault.location {
        Some(location) => (location.line, location.column),
        None => (1, 1),
    }
}
