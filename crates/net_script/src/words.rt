//! Lines and words of a text, words that are nodes, and the words after the first of a line.

ghost use Rattle.std.specs.Prelude.{◌≡◌, ◌≢◌, ℕ, ◌<◌, ◌^◌, [], ◌∷◌, ◌++◌, ◌↔◌, true, IsTrue, MatchOption, decimal, List};
ghost use Rattle.xid.specs.Text.{lacks};
ghost use Rattle.net_script.specs.Basics.{NodeId, A, L, R, IsTx, tx_text};
ghost use Rattle.net_script.specs.Events.{IsNode};
ghost use Rattle.net_script.specs.Lines.{IsFirstPiece, IsFirstWord, words, node_text, Reads};

use crate::stop::or_none;
use crate::word::Words;
use memchr::memchr;
use protocol::NodeId;
use std::alloc::Global;
use wire::OwnedTx;
use xid::{Refusal, text};

/// The text before the first mark, and the text after it. None where the mark isn't there.
pub(crate) fn split_once(text: &[u8], mark: u8) -> Option<(&[u8], &[u8])>
    ensures { MatchOption result (lacks mark text.now ≡ true)
        (λ parts. (text.now ≡ parts.0.now ++ mark ∷ parts.1.now) × (lacks mark parts.0.now ≡ true)) }
{
    let Some(at) = memchr(mark, text) else {
        return None;
    };
    Some((&text[..at], &text[at + 1..]))
}

/// The text up to its first mark, or all of it, and the text after that mark.
pub(crate) fn next_piece(text: &[u8], mark: u8) -> Option<(&[u8], &[u8])>
    ensures { MatchOption result (text.now ≡ []) (λ parts. IsFirstPiece mark text.now parts.0.now parts.1.now) }
{
    if text.is_empty() {
        return None;
    }
    let Some((piece, rest)) = split_once(text, mark) else {
        return Some((text, &[]));
    };
    Some((piece, rest))
}

/// The first word of a line, and the rest of the line.
pub fn next_word(line: &[u8]) -> Option<(&[u8], &[u8])>
    ensures { MatchOption result (words line.now ≡ []) (λ parts. IsFirstWord line.now parts.0.now parts.1.now) }
{
    let mut rest = line;
    while let Some((piece, after)) = next_piece(rest, b' ') {
        if !piece.is_empty() {
            return Some((piece, after));
        }
        rest = after;
    }
    None
}

/// Whether no word is left.
pub fn is_over(line: &[u8]) -> bool
    ensures { IsTrue result ↔ (words line.now ≡ []) }
{
    let Some((_word, _rest)) = next_word(line) else {
        return true;
    };
    false
}

/// The number below 256 behind this letter.
pub(crate) fn lettered_word(word: &[u8], letter: u8) -> Option<u8>
    ensures { MatchOption result ((n : ℕ) → n < 256 → word.now ≢ letter ∷ decimal n) (λ n. word.now ≡ letter ∷ decimal n) }
{
    let [first, digits @ ..] = word else {
        return None;
    };
    if *first != letter {
        return None;
    }
    let number = text::number(digits)?;
    if number > 255 {
        return None;
    }
    Some(number as u8)
}

/// The resource manager whose text this is.
pub(crate) fn manager_word(word: &[u8]) -> Option<u8>
    ensures { MatchOption result ((n : ℕ) → n < 256 → word.now ≢ node_text (R n)) (λ n. word.now ≡ node_text (R n)) }
{
    lettered_word(word, b'r')
}

/// The node whose text this is.
pub(crate) fn node_word(word: &[u8]) -> Option<NodeId>
    ensures { MatchOption result ((n : NodeId) → IsNode n → word.now ≢ node_text n) (λ n. IsNode n × (word.now ≡ node_text n)) }
{
    if let Some(rm) = manager_word(word) {
        return Some(NodeId::R(rm));
    }
    if let Some(acceptor) = lettered_word(word, b'a') {
        return Some(NodeId::A(acceptor));
    }
    if let Some(leader) = lettered_word(word, b'l') {
        return Some(NodeId::L(leader));
    }
    None
}

/// The number that is the first word, and the rest.
pub(crate) fn number(args: &[u8]) -> Option<(u32, &[u8])>
    ensures { MatchOption result
        ((n : ℕ) (ws : List (List ℕ)) → n < 2 ^ 32 → words args.now ≢ decimal n ∷ ws)
        (λ found. words args.now ≡ decimal found.0 ∷ words found.1.now) }
{
    let (digits, rest) = next_word(args)?;
    Some((text::number(digits)?, rest))
}

/// The number after this word, and the rest.
pub(crate) fn field<'a>(args: &'a [u8], name: &[u8]) -> Option<(u32, &'a [u8])>
    ensures { MatchOption result
        ((n : ℕ) (ws : List (List ℕ)) → n < 2 ^ 32 → words args.now ≢ name.now ∷ decimal n ∷ ws)
        (λ found. words args.now ≡ name.now ∷ decimal found.0 ∷ words found.1.now) }
{
    let (word, rest) = next_word(args)?;
    if word != name {
        return None;
    }
    number(rest)
}

/// The node of the first word, and the rest.
pub fn node(args: &[u8]) -> Option<(NodeId, &[u8])>
    ensures { MatchOption result
        ((n : NodeId) (ws : List (List ℕ)) → IsNode n → words args.now ≢ node_text n ∷ ws)
        (λ found. IsNode found.0 × (words args.now ≡ node_text found.0 ∷ words found.1.now)) }
{
    let (word, rest) = next_word(args)?;
    Some((node_word(word)?, rest))
}

/// The node that is the only word.
pub fn last_node(args: &[u8]) -> Option<NodeId>
    ensures { MatchOption result
        ((n : NodeId) → IsNode n → words args.now ≢ node_text n ∷ [])
        (λ n. IsNode n × (words args.now ≡ node_text n ∷ [])) }
{
    let (node, rest) = node(args)?;
    if !is_over(rest) {
        return None;
    }
    Some(node)
}

/// The transaction that is the only word, or none.
pub fn last_tx(alloc: Global, args: &[u8]) -> Result<Option<OwnedTx>, Refusal>
    ensures { Reads IsTx (λ tx. tx_text tx ∷ []) (words args.now) result }
{
    let Some((tx, ())) = or_none(Words::read(alloc, args))? else {
        return Ok(None);
    };
    Ok(Some(tx))
}
