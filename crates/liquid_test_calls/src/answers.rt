//! How the call of a row ended.
use liquid_core::{Result, Value};
use liquid_test_refusals::{Reporter, WorkedRow};

/// Makes the mark after the row's call, and tells how it ended. It takes the answer, so that the
/// drop of one is proved here alone.
pub(crate) fn call_ended<R: Print>(
    reporter: &Reporter<'_, R>,
    line: &str,
    row: &WorkedRow,
    answer: Result<Value>,
) {
    reporter.end();
    reporter.answered(line, row, &answer);
}
