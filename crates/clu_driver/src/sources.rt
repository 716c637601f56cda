//! Reading a source file into its tokens and its syntax.

ghost use Rattle.std.specs.Prelude.{◌≡◌, ◌≤◌, IfErr, IfOk, length};
ghost use Rattle.clu_parser.specs.Shape.{HaveForms};
ghost use Rattle.clu_tree.specs.Nodes.{IsTree};
ghost use Rattle.clu_checked.specs.Sources.{IsRead, IsSource};
ghost use Rattle.clu_driver.specs.Found.{IsFound};
ghost use Rattle.clu_driver.specs.Sources.{NotGot, NotParsed, NotSource};

use crate::file::first_content;
use clu_base::{Place, Refused, Rule, Store, Token};
use clu_lexer::{LexError, lex};
use clu_outcome::Outcome;
use clu_parser::{ParseError, parse};
use clu_syntax::Syntax;
use clu_tree::Tree;
use std::alloc::Global;

/// The most bytes of a source file.
const SOURCE_LIMIT: usize = 1_048_576;

/// A source that is a file of the grammar.
#[derive(Drop)]
pub struct Parsed {
    pub bytes: Vec<u8>,
    pub tokens: Vec<Token>,
    pub syntax: Syntax,
}

/// The source file of this name, parsed. The outcomes are those of `source_content` and of `source`.
pub fn parse_file<'a, F: Store>(
    alloc: Global,
    name: &'a str,
    files: &mut F,
) -> Result<Parsed, Outcome<'a>>
    ensures counts { F.faults files.old ≤ F.faults files.new }
    ensures kept { F.files files.new ≡ F.files files.old }
    ensures found { IfOk result (λ source. IsFound (F.files files.old) name.now (λ bytes. bytes ≡ source.bytes.items)) }
    ensures parsed { IfOk result (λ source. IsSource source.bytes.items source.tokens.items source.syntax) }
    ensures read { IfOk result (λ source. IsRead source.bytes.items source.tokens.items source.syntax) }
    ensures refused { IfErr result (λ how. NotParsed how name.now (F.files files.old) (F.faults files.old) (F.faults files.new)) }
{
    let bytes = source_content(alloc, name, files)?;
    source(alloc, name, bytes)
}

/// The content of a source file; no more of it is read than shows that it is too large. The outcomes are `NoFile`,
/// `FileFault`, `SourceTooLarge` and `Memory`.
pub fn source_content<'a, F: Store>(
    alloc: Global,
    name: &'a str,
    files: &mut F,
) -> Result<Vec<u8>, Outcome<'a>>
    ensures counts { F.faults files.old ≤ F.faults files.new }
    ensures kept { F.files files.new ≡ F.files files.old }
    ensures small { IfOk result (λ content. length content.items ≤ 1_048_576) }
    ensures found { IfOk result (λ content. IsFound (F.files files.old) name.now (λ bytes. bytes ≡ content.items)) }
    ensures refused { IfErr result (λ how. NotGot how name.now (F.files files.old) (F.faults files.old) (F.faults files.new)) }
{
    let bytes = first_content(alloc, name, SOURCE_LIMIT + 1, files)?;
    if bytes.len() > SOURCE_LIMIT {
        return Err(Outcome::SourceTooLarge(name));
    }
    Ok(bytes)
}

/// The source of these bytes. The outcomes are `Refused` by one of the rules V1 to V3, and `Memory`.
pub fn source<'a>(alloc: Global, name: &'a str, bytes: Vec<u8>) -> Result<Parsed, Outcome<'a>>
    requires { length bytes.items ≤ 1_048_576 }
    ensures same { IfOk result (λ source. source.bytes.items ≡ bytes.items) }
    ensures parsed { IfOk result (λ source. IsSource source.bytes.items source.tokens.items source.syntax) }
    ensures read { IfOk result (λ source. IsRead source.bytes.items source.tokens.items source.syntax) }
    ensures refused { IfErr result (λ how. NotSource how name.now bytes.items) }
{
    match lex(alloc, &bytes) {
        Ok(tokens) => match parse(alloc, &bytes, &tokens) {
            Ok(tree) => Ok(Parsed {
                bytes,
                tokens,
                syntax: syntax_of(tree),
            }),
            Err(ParseError::Syntax(place)) => Err(refused(name, Rule::Syntax, place)),
            Err(ParseError::TooDeep(place)) => Err(refused(name, Rule::TooDeep, place)),
            Err(ParseError::Memory) => Err(Outcome::Memory),
        },
        Err(LexError::Token(place)) => Err(refused(name, Rule::Token, place)),
        Err(LexError::Memory) => Err(Outcome::Memory),
    }
}

// The syntax of a tree; its count says that it is one.
fn syntax_of(tree: Tree) -> Syntax
    requires { HaveForms tree }
    ensures same { result ≡ tree }
    ensures tree { IsTree tree }
{
    let _nodes = tree.len();
    Syntax::new(tree)
}

fn refused<'a>(name: &'a str, rule: Rule, place: Place) -> Outcome<'a>
    ensures { result ≡ Outcome.Refused name.entry (record { rule = rule; place = place }) }
{
    Outcome::Refused(name, Refused { rule, place })
}
