//! Laws of the definitions that contracts speak of.
ghost use Rattle.liquid_parser.specs.ChainLaw.{ReadsChains, ReadsAssigns};
ghost use Rattle.liquid_parser.specs.ConditionLaw.{ReadsConditions};
ghost use Rattle.liquid_parser.specs.HostTagLaw.{HostBlocksAreCalls, HostBlocksEnd};
ghost use Rattle.liquid_parser.specs.HostTagLaw.{HostTagsAreOutputs, NoHostBlocks, NoHostTags};
ghost use Rattle.liquid_parser.specs.OutputLaw.{OthersEscaped, PlainOutputs, RawOutputs};
ghost use Rattle.liquid_parser.specs.StatementLaw.{ReadsStatements};
ghost use Rattle.liquid_parser.specs.RepeatedLaw.{ReadsLoops, ReadsPairs, ReadsValues};
ghost use Rattle.liquid_parser.specs.NestingLaw.{ReadsTheGrammar, AtMostOneTree};
ghost use Rattle.liquid_parser.specs.TemplateLaw.{AtMostOneTemplate, ItemsWithoutPaths};
ghost use Rattle.liquid_parser.specs.TemplateLaw.{NothingDropped, PlainSources};

/// A source without `{{` and `{%` is itself, one text, in every language; and a source has at most
/// one tree in a language. Where a language has no `include_paths`, and each tag and block of its
/// host has items, each tag has items alone; and where it has no `drops_blanks`, a template is
/// what is written.
pub fn template_laws()
    ensures plain { PlainSources }
    ensures unique { AtMostOneTemplate }
    ensures items { ItemsWithoutPaths }
    ensures written { NothingDropped }
{}

/// Reading with a stack of open blocks gives a list of pieces the tree of the written grammar, and
/// there is at most one.
pub fn nesting_laws()
    ensures reads { ReadsTheGrammar }
    ensures unique { AtMostOneTree }
{}

/// A piece is read as a statement, by the names of a language, exactly where the written grammar
/// says that it is that.
pub fn statement_law()
    ensures { ReadsStatements }
{}

/// In a language that escapes, an output that ends with `| raw` is its chain's, and any other is
/// escaped; in another each is its chain's.
pub fn output_laws()
    ensures plain { PlainOutputs }
    ensures raw { RawOutputs }
    ensures others { OthersEscaped }
{}

/// A host's tag is the node that an output of its call is; and where none is registered, no tag is
/// a host's.
pub fn host_tag_laws()
    ensures outputs { HostTagsAreOutputs }
    ensures none { NoHostTags }
{}

/// A host's block has the call that an output of its values has, and in its body the tag of its
/// end's name ends it; and where none is registered, no tag begins a host's block.
pub fn host_block_laws()
    ensures calls { HostBlocksAreCalls }
    ensures end { HostBlocksEnd }
    ensures none { NoHostBlocks }
{}

/// A chain of filters and an `assign` are read exactly where the written grammar says that the
/// items are it.
pub fn chain_laws()
    ensures chains { ReadsChains }
    ensures assigns { ReadsAssigns }
{}

/// A condition is read exactly where the written grammar says that the items are it.
pub fn condition_law()
    ensures { ReadsConditions }
{}

/// Values, loops and pairs are read exactly where the written grammar says that the items are it.
pub fn item_list_laws()
    ensures values { ReadsValues }
    ensures loops { ReadsLoops }
    ensures pairs { ReadsPairs }
{}
