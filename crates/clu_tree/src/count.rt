//! How much a node counts, without what stands below it: 1, one more for each name after the
//! first, and one more for each whole 64 bytes of a string literal.

ghost use Rattle.std.specs.Prelude.{◌≡◌, ◌<◌, ◌≤◌, ◌^◌, length, All};
ghost use Rattle.clu_tree.specs.Count.{escape_len, characters, string_len, value_count, own_count, count_with};

use crate::node::{Node, NodeKind};

/// How many bytes belong to an escape after its backslash: three octal digits, or one letter.
fn escape_len(rest: &[u8]) -> usize
    ensures { result ≡ escape_len rest.now }
{
    match rest {
        [b'0'..=b'7', ..] => 3,
        _ => 1,
    }
}

/// How many bytes a string literal denotes, from after its opening mark on.
fn characters(mut text: &[u8]) -> usize
    ensures count { result ≡ characters 0 text.entry.now }
    ensures within { result ≤ length text.entry.now }
{
    let mut count = 0;
    let mut skip = 0;
    while let [b, rest @ ..] = text {
        if skip > 0 {
            skip -= 1;
        } else if *b == b'"' {
            return count;
        } else {
            count += 1;
            if *b == b'\\' {
                skip = escape_len(rest);
            }
        }
        text = rest;
    }
    count
}

/// How many bytes the literal denotes, if it is a string literal, else 0.
fn string_len(value: &[u8]) -> usize
    ensures count { result ≡ string_len value.now }
    ensures within { result ≤ length value.now }
{
    match value {
        [b'"', text @ ..] => characters(text),
        _ => 0,
    }
}

/// What the value adds to the count of 1.
fn value_count(kind: NodeKind, value: &[u8]) -> usize
    ensures { result ≡ value_count kind value.now }
{
    match kind {
        NodeKind::Literal => string_len(value) / 64,
        _ => 0,
    }
}

/// What the node counts by itself.
fn own_count(node: &Node) -> u32
    requires { own_count node.now < 2 ^ 32 }
    ensures { result ≡ own_count node.now }
{
    let further = node.names.as_slice().len().saturating_sub(1);
    let value = value_count(node.kind, node.value.as_slice());
    (1 + further + value) as u32
}

/// What the node counts with all that stands below it, where the counts of the nodes before it
/// are given.
pub fn count_with(counts: &[u32], node: &Node) -> u32
    requires small { count_with counts.now node.now < 2 ^ 32 }
    requires below { All (λ c. c < length counts.now) node.now.children }
    ensures { result ≡ count_with counts.now node.now }
{
    let mut count = own_count(node);
    for child in node.children.as_slice() {
        count += counts[*child as usize];
    }
    count
}
