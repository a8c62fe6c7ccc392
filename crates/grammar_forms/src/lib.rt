//! Grammars as relations, and readers that are exact for them: the ground that parsers of this
//! repository stand on. It holds definitions and laws, and no code that runs.
//!
//! A grammar says which lists of tokens spell which values (`specs/Forms`). It is built from six
//! forms, and so is its reader, a function on lists of tokens that gives a value and the tokens after
//! it, or the tokens from the first one on that cannot stand where it stands.
//!
//! | Form | Spells | Its reader |
//! |---|---|---|
//! | `One f` | `x` by one token `t`, where `f t` is `Some x` | takes the next token, if it means something |
//! | `Nothing a` | `a` by no token | gives `a` |
//! | `Both f S R` | `f x y` by a spelling of `x` and behind it one of `y` | reads one part, and then the other |
//! | `Either S R` | what `S` spells and what `R` spells | takes `S` where the next token passes a test, else `R` |
//! | `As f S` | `f x` by a spelling of `x` | reads `x` |
//! | `Many S` | a list by spellings of its items, one behind the other | reads on while the next token passes a test |
//!
//! `specs/Parts` has what most grammars need besides, said by these: a word, a part behind or before a
//! word, a part that may be left out, parts with a word between every two, and parts up to a number.
//!
//! Worked example, with tokens that are numbers, 7 for a comma, and `Name` for one number below 7:
//! `Separated (of kind (7 ∷ [])) Name` spells the list `1, 2` by the tokens `1 7 2`, and its reader
//! gives on `1 7 2 9` that list and the rest `9`; on `1 7 9` it refuses at `9`.
//!
//! Each token has a kind, a number, and a set of kinds is a list (`specs/Kinds`). A reader is exact for
//! a grammar (`specs/Laws`) where it reads or refuses as the grammar says, by no token beyond the next
//! one. `proofs/` has this law for each form and each usual part, with the sets of the result, so that
//! a grammar's proof is one term that repeats its rules, and what it owes for its seams (no token that
//! may carry a part on begins the next part) is a test that computes.
//!
//! What follows from it for a whole list is the contract of `decides`: the refused place (`specs/Faults`)
//! is the first token with which the tokens so far begin nothing.
#![tactic(auto)]

ghost use Rattle.std.specs.Prelude.{◌≡◌, ℕ, List, [], ◌++◌};
ghost use Rattle.grammar_forms.specs.Forms.{Spelling, Reader, Read, Refused, only};
ghost use Rattle.grammar_forms.specs.Faults.{IsFault};
ghost use Rattle.grammar_forms.specs.Laws.{IsExact};

/// A grammar over tokens, and a reader of it.
pub trait Grammar {
    /// What the lists are made of.
    type Token;
    /// What a list of tokens spells.
    type Value;

    ghost kind: { Self.Token → ℕ };

    ghost spells: { Spelling Self.Token Self.Value };

    ghost reads: { Reader Self.Token Self.Value };
}

/// An exact reader decides its grammar, the refused place included, and a list spells one value.
pub fn decides<G: Grammar>()
    // What a list spells is read of it.
    ensures read { IsExact G.kind G.spells G.reads → (x : G.Value) (ts : List G.Token) → G.spells x ts → only (G.reads ts) ≡ Read x [] }
    // What is read of a list, it spells.
    ensures spelled { IsExact G.kind G.spells G.reads → (x : G.Value) (ts : List G.Token) → only (G.reads ts) ≡ Read x [] → G.spells x ts }
    // What is refused is refused at the list's fault.
    ensures refused { IsExact G.kind G.spells G.reads → (ts k : List G.Token) → only (G.reads ts) ≡ Refused k → (w : List G.Token) × (ts ≡ w ++ k) × IsFault G.spells w k }
    // No list spells two values.
    ensures one_value { IsExact G.kind G.spells G.reads → (x y : G.Value) (ts : List G.Token) → G.spells x ts → G.spells y ts → x ≡ y }
{}

/// A list has at most one fault, and none where it spells a value. That holds of any grammar, however it is read.
pub fn faults_are_one<G: Grammar>()
    ensures one_fault { (w k v j : List G.Token) → IsFault G.spells w k → IsFault G.spells v j → w ++ k ≡ v ++ j → (w ≡ v) × (k ≡ j) }
    ensures no_fault { (x : G.Value) (w k : List G.Token) → G.spells x (w ++ k) → IsFault G.spells w k → ⊥ }
{}
