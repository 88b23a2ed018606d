//! What was expected where a source has a fault.

/// What was expected where a source has a fault.
#[derive(Clone, Copy, Debug, PartialEq, Eq)]
pub enum Expectation {
    /// `{{` or `{%`.
    Opener,
    /// The closer of the piece.
    Closer,
    /// An item of the piece, or its closer.
    ItemOrCloser,
    /// The name of a tag.
    TagName,
    /// The name of a registered tag.
    RegisteredTag,
    /// A value.
    Value,
    /// A whole number.
    WholeNumber,
    /// A number within 64 bits.
    NumberInRange,
    /// A text with its closing quote.
    ClosingQuote,
    /// A literal without a step.
    LiteralWithoutStep,
    /// A value that this library knows.
    KnownValue,
    /// No more than 200 nested brackets.
    FewerBrackets,
    /// `]`.
    ClosingBracket,
    /// The two dots of a range.
    Dots,
    /// `)`.
    ClosingParenthesis,
    /// The end of a block, by the name of its tag.
    End(&'static str),
    /// The end of a block of the host, by the block's number.
    HostEnd(usize),
    /// The start of a block.
    BlockStart,
    /// No more than 200 nested blocks.
    FewerBlocks,
    /// The name of a filter.
    FilterName,
    /// The name of a registered filter.
    RegisteredFilter,
    /// As many arguments as the filter takes.
    ArgumentCount,
    /// An argument of a filter.
    Argument,
    /// A filter, or the closer.
    FilterOrCloser,
    /// A value to compare with.
    ComparedValue,
    /// `and`, `or`, or the closer.
    ConnectiveOrCloser,
    /// The name of a variable.
    VariableName,
    /// `=`.
    EqualsSign,
    /// A `,` and a value.
    FurtherValue,
    /// A `,` or an `or`, and a value.
    FurtherAlternative,
    /// What can name the group of a `cycle`.
    GroupName,
    /// The name of a partial.
    PartialName,
    /// A pair of a name, a `:` and a value.
    Pair,
    /// A `,` and a pair.
    FurtherPair,
    /// A pair of a name, a `=` and a value.
    JekyllPair,
    /// A value, `as` and a name.
    ValueAsName,
    /// A list, `as` and a name.
    ListAsName,
    /// `in`.
    In,
    /// A list or a range.
    ListOrRange,
    /// A part of a `for`, or the closer.
    ForPartOrCloser,
    /// A part of a `tablerow`, or the closer.
    TableRowPartOrCloser,
}
