//! Words of a presentation as they are read from bytes, many over one presentation.
//!
//! # The public contract
//!
//! [`WordReader::parse_into`] makes a word that which bytes stand for, or refuses them, by the clauses of
//! [`parse_word`](kb_record::parse_word).
//!
//! # How it is made
//!
//! Most words are plain products: names joined by `*`, without powers and brackets. One pass over the bytes takes
//! each name and adds its letter to the word, so that such bytes take no memory but the word's. Names of one byte that
//! stand directly before a `*` are taken in a loop of their own.
//!
//! Where that pass meets something else, a second one goes over the factors, with their powers and brackets. A power
//! repeats the word's end in place. This pass returns words only. Where it gives up, for a fault of the bytes or for
//! want of memory, the bytes are read token by token, which tells each refusal's cause.
//!
//! - `byte_letters` is the table of the letters whose names have one byte.
//! - `product` adds the letter of one more name, and keeps the first fault.
//! - `first` takes the name at the front of a text, in a shorter way where it has one byte.
//! - `plain_product` is the pass over plain products.
//! - `power` repeats or inverts a word's end, and `factors` is the pass over factors.
//! - `reader` tries the passes in this order, and then reads token by token.
//!
//! # Where the proofs are
//!
//! - `specs/Products.antt`: what was read of a plain product. `Factors`: what stands at the front of a text, and the
//!   letters that it means.
//! - `proofs/NameLemmas.antt`: letters of names. `ProductLemmas`: a name behind the product so far.
//! - `proofs/PassLemmas.antt`: what the pass has read, in front of what is still to come; its tree and its meaning.
//! - `proofs/FactorLemmas.antt`: names, powers, groups and products of factors at the front of a text.
//!   `PowerLemmas`: a word whose end is repeated, letter by letter.
//!
//! Below are `kb_lexing`, `kb_record` and `kb_word`.
#![tactic(auto)]

mod byte_letters;
mod factors;
mod first;
mod plain_product;
mod power;
mod product;
mod reader;

pub use reader::WordReader;
