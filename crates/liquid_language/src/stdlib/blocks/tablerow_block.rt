//! `tablerow`.
ghost use Rattle.std.specs.Prelude.{◌≡◌, codes};

use crate::BlockKind;
use crate::reflection::BlockReflection;

/// `{% tablerow variable in source %}`: runs its body for each item, each in a cell of a table's
/// rows.
#[derive(Clone, Copy, Debug, Default)]
pub struct TableRowBlock;

impl TableRowBlock {
    /// The block.
    pub fn new() -> TableRowBlock {
        TableRowBlock
    }
}

impl BlockReflection for TableRowBlock {
    ghost start_name = { λ t. codes "tablerow" };

    fn start_tag(&self) -> &'static str {
        "tablerow"
    }

    fn end_tag(&self) -> &'static str {
        "endtablerow"
    }

    fn description(&self) -> &'static str {
        ""
    }
}

impl From<TableRowBlock> for BlockKind {
    ghost use Rattle.liquid_language.specs.declared.registry.BlockKind.TheVariants.{TableRow};

    ghost from_gives = { λ block kind. kind ≡ TableRow };

    fn from(_block: TableRowBlock) -> BlockKind {
        BlockKind::TableRow
    }
}
