//! What `print` writes, read again. The functions do nothing: their contracts are the laws. They speak of texts of any
//! length; a printed text may be longer than its source, and longer than the commands read.
#![tactic(auto)]

ghost use Rattle.std.specs.Prelude.{◌≡◌, ◌≤◌, ℕ, List, length, None};
ghost use Rattle.clu_base.specs.declared.tokens.Token.{Token};
ghost use Rattle.clu_lexer.specs.Tokens.{Tokens};
ghost use Rattle.clu_tree.specs.declared.node.Node.{Node};
ghost use Rattle.clu_tree.specs.Nodes.{IsTree};
ghost use Rattle.clu_parser.specs.Depths.{IsFirstTooDeep};
ghost use Rattle.clu_parser.specs.Levels.{IsLow};
ghost use Rattle.clu_parser.specs.Parsing.{IsTreeOf, symbols_of};
ghost use Rattle.clu_printer.specs.Printed.{printed};
ghost use Rattle.clu_printed.specs.Again.{IsReadAgain};
ghost use Rattle.clu_printed.specs.Refused.{IsNeverRefused};

/// The printed text of a source is a source: it has tokens, and these have a tree, whose nodes are those of the first
/// tree, with the same kinds, children, names and values; and printed again it is the same text.
pub fn read_again()
    ensures { (bytes : List ℕ) (tokens : List Token) (nodes : List Node) → length bytes ≤ 1_048_576 → Tokens bytes tokens → IsTreeOf bytes tokens nodes → IsReadAgain (printed bytes tokens nodes) nodes }
{}

/// Bytes have one list of tokens, and these have one tree. So the tokens and the tree of a printed text are those of
/// `read_again`.
pub fn one_reading()
    ensures tokens { (bytes : List ℕ) (tokens others : List Token) → Tokens bytes tokens → Tokens bytes others → tokens ≡ others }
    ensures tree { (bytes : List ℕ) (tokens : List Token) (nodes others : List Node) → IsTreeOf bytes tokens nodes → IsTreeOf bytes tokens others → nodes ≡ others }
{}

/// The printed text of a source that is accepted is accepted too: no fault of the lexer or of the parser is one of it,
/// but for want of memory.
pub fn never_refused()
    ensures { (bytes : List ℕ) (tokens : List Token) (nodes : List Node) → length bytes ≤ 1_048_576 → Tokens bytes tokens → IsTreeOf bytes tokens nodes → IsLow (symbols_of bytes tokens) (length tokens) → IsTree nodes → IsFirstTooDeep nodes None → IsNeverRefused (printed bytes tokens nodes) }
{}
