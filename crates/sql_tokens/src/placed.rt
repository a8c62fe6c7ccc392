//! The tokens of a text and the place of each.
ghost use Rattle.std.specs.Prelude.{◌≡◌, ◌<◌, ◌^◌, ◌∷◌, ◌++◌, [], List, length, map, option_map, slice_get, OnOk, OnErr};
ghost use Rattle.sql_tokens.specs.Spot.{spot, token_of, place_of};

use crate::kinds::Token;
use std::alloc::{AllocError, Global};
use std::marker::Model;

/// The tokens of a text, each with the offset in bytes at which it begins. Contracts see the list of both.
#[derive(Drop)]
pub struct Spots {
    tokens: Vec<Token>,
    places: Vec<u32>,
}

impl Model for Spots {
    ghost use Rattle.std.specs.Prelude.{List, length, ◌≡◌};
    ghost use Rattle.sql_tokens.specs.Spot.{Spot, spots_of};

    ghost Value = { List Spot };

    ghost view = { λ s. spots_of s.tokens.items s.places.items };

    ghost invariant = { λ s. length s.tokens.items ≡ length s.places.items };
}

impl Spots {
    /// No token yet.
    pub(crate) fn new(alloc: Global) -> Self
        ensures { result ≡ [] }
    {
        Spots {
            tokens: Vec::new(alloc),
            places: Vec::new(alloc),
        }
    }

    /// Adds a token and its place behind those that are there.
    pub(crate) fn push(&mut self, token: Token, place: u32) -> Result<(), AllocError>
        ensures ok { OnOk result (self.new ≡ self.old ++ spot place token ∷ []) }
        ensures err { OnErr result (self.new ≡ self.old) }
    {
        self.places.push(place)?;
        if let Err(_full) = self.tokens.push(token) {
            let _last = self.places.pop();
            return Err(AllocError);
        }
        Ok(())
    }

    /// The tokens alone, in the order of the text.
    pub fn tokens(&self) -> &[Token]
        ensures { result.now ≡ map token_of self.now }
    {
        &self.tokens
    }

    /// The offset at which the token with this index begins, if there is one.
    pub fn place(&self, index: usize) -> Option<u32>
        ensures { result ≡ option_map place_of (slice_get self.now index) }
    {
        self.places.get(index).copied()
    }

    /// How many tokens there are.
    pub fn len(&self) -> usize
        ensures { result ≡ length self.now }
    {
        self.tokens().len()
    }
}
