//! What a `tablerow` writes around its cells.
ghost use Rattle.std.specs.Prelude.{◌≡◌, ◌≤◌, ◌+◌, ◌/◌, ◌%◌, ◌==◌, ◌++◌, [], codes, decimal};
ghost use Rattle.std.specs.Prelude.{if◌then◌else◌};
ghost use Rattle.liquid_core.specs.Loops.{is_last_column};
ghost use Rattle.liquid_engine.specs.Performs.{WritesText};
ghost use Rattle.liquid_engine.specs.Sinks.{sink_of};
ghost use Rattle.liquid_meaning.specs.Loops.{cell_end, cell_start};
ghost use Rattle.liquid_engine.specs.inside.Reserves.{limited_in, reserve_in};

use crate::counted::CountedWrite;
use crate::output::Output;
use crate::push_value::push_numbered;
use liquid_core::{Columns, Result};
use std::alloc::Global;

/// The rows of a `tablerow`: how many cells they have in all, and how many one has.
#[derive(Clone, Copy, Drop)]
pub(crate) struct Row {
    pub(crate) count: usize,
    pub(crate) columns: Columns,
}

impl Row {
    /// Begins a cell, and its row where it is the first of one.
    pub(crate) fn open<W: CountedWrite>(
        self,
        alloc: Global,
        place: usize,
        out: &mut Output<'_, W>,
    ) -> Result<()>
        requires { place ≤ 9223372036854775807 }
        ensures writes { WritesText result (cell_start place self.columns.count)
            (sink_of W.contents W.failure_count out.old)
            (sink_of W.contents W.failure_count out.new) }
        ensures same_writer { out.new.writer.ghost_name ≡ out.old.writer.ghost_name }
        ensures bounded { reserve_in W.left out.new ≤ reserve_in W.left out.old }
        ensures limited { limited_in W.left out.new ≡ limited_in W.left out.old }
    {
        self.open_row(alloc, place, out)?;
        let column = place % self.columns.count + 1;
        push_numbered(alloc, "<td class=\"col", column, "\">", out)
    }

    /// Begins a row where the cell is its first.
    fn open_row<W: CountedWrite>(
        self,
        alloc: Global,
        place: usize,
        out: &mut Output<'_, W>,
    ) -> Result<()>
        requires { place ≤ 9223372036854775807 }
        ensures writes { WritesText result
            (if place % self.columns.count == 0 then codes "<tr class=\"row" ++
            (decimal (place / self.columns.count + 1) ++ codes "\">") else [])
            (sink_of W.contents W.failure_count out.old)
            (sink_of W.contents W.failure_count out.new) }
        ensures same_writer { out.new.writer.ghost_name ≡ out.old.writer.ghost_name }
        ensures bounded { reserve_in W.left out.new ≤ reserve_in W.left out.old }
        ensures limited { limited_in W.left out.new ≡ limited_in W.left out.old }
    {
        if place % self.columns.count == 0 {
            let row = place / self.columns.count + 1;
            return push_numbered(alloc, "<tr class=\"row", row, "\">", out);
        }
        Ok(())
    }

    /// Ends a cell, and its row where it is the last of one or of all.
    pub(crate) fn close<W: CountedWrite>(
        self,
        alloc: Global,
        place: usize,
        out: &mut Output<'_, W>,
    ) -> Result<()>
        requires { place ≤ 9223372036854775807 }
        ensures writes { WritesText result (cell_end place self.count self.columns.count)
            (sink_of W.contents W.failure_count out.old)
            (sink_of W.contents W.failure_count out.new) }
        ensures same_writer { out.new.writer.ghost_name ≡ out.old.writer.ghost_name }
        ensures bounded { reserve_in W.left out.new ≤ reserve_in W.left out.old }
        ensures limited { limited_in W.left out.new ≡ limited_in W.left out.old }
    {
        out.push_text(alloc, "</td>")?;
        if self.ends_row(place) {
            return out.push_text(alloc, "</tr>");
        }
        Ok(())
    }

    /// Whether it is the last cell of its row, or of all.
    fn ends_row(self, place: usize) -> bool
        requires { place ≤ 9223372036854775807 }
        ensures { result ≡ is_last_column place self.count self.columns.count }
    {
        place % self.columns.count + 1 == self.columns.count || place + 1 == self.count
    }
}
