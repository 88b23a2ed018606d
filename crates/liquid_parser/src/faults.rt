//! The faults of blocks: of an end that isn't one, of one that is missing, and of blocks that nest
//! too deep.
ghost use Rattle.std.specs.Prelude.{◌≡◌};
ghost use Rattle.liquid_lexer.specs.Readers.{IsAt, IsOfKind};
ghost use Rattle.liquid_language.specs.Controls.{end_word};
ghost use Rattle.liquid_language.specs.declared.registry.Language.{Language};
ghost use Rattle.liquid_parser.specs.Faults.{wanted_end};

use liquid_language::{Block, standard_end};
use liquid_lexer::{Expectation, Fault, FaultKind, ParseError};

/// The fault of an end, an `else` or an `elsif` where no body can end. It begins `remaining` bytes
/// before the end of the source.
pub(crate) fn no_body(remaining: usize) -> Fault
    ensures kind { result.kind ≡ FaultKind.UnknownTag }
    ensures place { result.remaining ≡ remaining }
{
    Fault {
        kind: FaultKind::UnknownTag,
        remaining,
        expected: Expectation::BlockStart,
        items_remaining: 0,
    }
}

/// The fault of a block that nests too deep and begins `remaining` bytes before the end of the
/// source.
pub(crate) fn too_nested(remaining: usize) -> ParseError
    ensures kind { IsOfKind FaultKind.TooNested result }
    ensures place { IsAt remaining result }
{
    ParseError::Fault(Fault {
        kind: FaultKind::TooNested,
        remaining,
        expected: Expectation::FewerBlocks,
        items_remaining: 0,
    })
}

/// The fault of a source that ends in a block.
pub(crate) fn missing_end(block: Block) -> Fault
    ensures kind { result.kind ≡ FaultKind.MissingEnd }
    ensures place { result.remaining ≡ 0 }
    ensures wanted { (l : Language) → wanted_end l result.expected ≡ end_word l block }
{
    Fault {
        kind: FaultKind::MissingEnd,
        remaining: 0,
        expected: expected_end(block),
        items_remaining: 0,
    }
}

/// The end of the block: the name of its tag, or the number of a host's block.
fn expected_end(block: Block) -> Expectation
    ensures { (l : Language) → wanted_end l result ≡ end_word l block }
{
    match block {
        Block::Host(number) => Expectation::HostEnd(number),
        _ => Expectation::End(standard_end(block)),
    }
}
