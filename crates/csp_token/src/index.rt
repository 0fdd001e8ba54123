//! A source list's keywords, nonces and hashes, made ready for many questions.
ghost use Rattle.std.specs.Prelude.{◌≡◌, IfOk};

use crate::hash_sets::{DigestSets, PairSets};
use crate::keyword::Keywords;
use crate::size::digests_are_bytes;
use crate::tokens::Tokens;
use csp_model::{Digests, Hash, Keyword, List, Memory, Source, Text};
use std::alloc::Global;
use std::collections::BTreeSet;
use std::marker::Model;

/// The keywords, nonces and hashes of a source list, found without a scan of the list. It is seen as the
/// list.
///
/// It holds the list's nonces and hashes in order, and the digests for which the hashes stand. So a nonce, a
/// pair of integrity metadata or a digest is compared with a few of them alone, by the logarithm of their
/// number, and no question takes memory.
#[derive(Drop)]
pub struct TokenIndex<'a> {
    sources: &'a List<Source>,
    keywords: Keywords,
    nonces: BTreeSet<&'a str>,
    pairs: PairSets<'a>,
    digests: DigestSets,
}

impl<'a> Model for TokenIndex<'a> {
    ghost use Rattle.std.specs.Prelude as std_words;
    ghost use Rattle.csp_model.specs.declared.source.Source as source;
    ghost use Rattle.csp_token.specs.Index.{IsIndexOf};

    ghost Value = { std_words.List source.Source };

    ghost view = { λ a. a.sources.now };

    ghost invariant = { λ a. IsIndexOf a.sources.now a.keywords a.nonces a.pairs a.digests };
}

impl<'a> TokenIndex<'a> {
    /// Reads a source list once.
    pub fn new(alloc: Global, sources: &'a List<Source>) -> Result<TokenIndex<'a>, Memory>
        ensures sources { IfOk result (λ made. made ≡ sources.now) }
    {
        let mut keywords = Keywords::new(alloc);
        let mut nonces = BTreeSet::new(alloc);
        let mut pairs = PairSets::new(alloc);
        let mut digests = DigestSets::new(alloc);
        for source in sources.as_slice() {
            match source {
                Source::Word { word } => keywords.add(*word)?,
                Source::Nonce { value } => {
                    nonces.insert(value.as_str())?;
                }
                Source::Digest { hash } => {
                    pairs.add(hash)?;
                    digests.add(hash)?;
                }
                _ => {}
            }
        }
        Ok(TokenIndex {
            sources,
            keywords,
            nonces,
            pairs,
            digests,
        })
    }
}

impl<'a> Tokens for TokenIndex<'a> {
    ghost sources = { λ index. index };

    #[tactic(auto, using(csp_model::proofs::TokensDecided::keyword_decides))]
    fn has_keyword(&self, word: Keyword) -> bool {
        self.keywords.has(word)
    }

    #[tactic(auto, using(csp_model::proofs::TokensDecided::nonce_decides))]
    fn nonce_matches(&self, nonce: &Text) -> bool {
        !nonce.as_str().is_empty() && self.nonces.contains(nonce.as_str())
    }

    #[tactic(auto, using(csp_model::proofs::TokensDecided::integrity_decides))]
    fn integrity_matches(&self, integrity: &List<Hash>) -> bool {
        !integrity.is_empty() && self.pairs.has_all(integrity)
    }

    #[tactic(auto, using(csp_model::proofs::TokensDecided::digests_decide))]
    fn digests_match(&self, digests: &Digests) -> bool {
        digests_are_bytes(digests);
        self.digests.has(digests)
    }

    fn has_nonce_or_hash(&self) -> bool {
        !self.nonces.is_empty() || !self.pairs.is_empty()
    }
}
