//! Tokens of words and records: from bytes to tokens with their places.
//!
//! # The public contract
//!
//! [`first_lexeme`] returns the first token of a text, as long as possible, with the text behind
//! it, or none where no token begins. So a text is read token by token, and its tokens take no
//! memory. [`has_tokens`] tells whether the bytes have tokens (`TokensOf` of `specs/Spelling.antt`)
//! up to their end, and [`is_blank`] whether they are blanks and comments alone. [`behind_gap`],
//! [`first_name`] and [`first_number`] pass what stands at the front of a text, and [`short_name`]
//! and [`starred_name`] a name of one byte. The laws are [`a_text_has_one_list_of_tokens`], and
//! [`a_front_ending_in_a_bracket_keeps_its_tokens`], by which what is read of a front stays so.
//!
//! [`syntax_place`] is a place in the bytes where the reading of tokens stops (`IsPlace` of
//! `specs/Possible.antt`). What a text is the caller says, as a form of lists of tokens, which a clause can't
//! range over: so a lemma says of each form that this place is the length of the longest front with which some
//! text of the form begins, if the reading stops there (`longest_possible`: from `PassedAre` and `Stops`
//! follows `IsLongestPossible`). [`last_place`] is the place of the last token that was passed.
//!
//! # Where the proofs are
//!
//! - `proofs/FirstTokens.antt`: how the spellings of tokens look, by their first byte, and which token a text
//!   begins with.
//! - `proofs/LongestFronts.antt`: longest fronts of digits, of string bytes, and of what goes on a name.
//! - `proofs/DigitValues.antt`: the values of digits, and how large they are.
//! - `proofs/OneToken.antt`: a text begins with one token at most, and has one list of tokens.
//! - `proofs/Lexings.antt`: the tokens of a text as they are read one by one.
//! - `proofs/Begun.antt`: with which token a text begins, if it begins with one; `proofs/FrontTokens.antt`: the tokens
//!   that stand first in a text, up to its end or to the first byte that belongs to none.
//! - `proofs/NameFronts.antt`: the name with which a text begins.
//! - `proofs/TokenFronts.antt`: where the last token of a front is a bracket, the whole text begins with its tokens;
//!   `proofs/MarkedFronts.antt`: the same of marks, and of texts that have tokens at their front alone.
//! - `proofs/Longer.antt`: when a spelling goes on with what stands behind it; so `proofs/PassedTokens.antt`:
//!   the tokens at the front of a text keep their places with other bytes behind them, and
//!   `proofs/LastTokens.antt`: what may stand in place of the last one. `proofs/SpelledTexts.antt`: tokens that
//!   can be spelled have a text.
//! - `proofs/ExpectedTokens.antt`: which tokens are expected; `proofs/ExpectedFronts.antt`,
//!   `proofs/ExpectedValues.antt`: the longest fronts of bytes that begin one.
//! - `proofs/Reached.antt`, `proofs/NoFurther.antt`, `proofs/LongestPossible.antt`: up to the place some text
//!   of the form begins with the bytes, and none begins with more of them.
//!
//! Nothing is below but `std`.
#![tactic(auto)]

mod fronts;
mod laws;
mod lexer;
mod place;
mod token;

pub use fronts::{behind_gap, first_name, first_number, short_name, starred_name};
pub use laws::{a_front_ending_in_a_bracket_keeps_its_tokens, a_text_has_one_list_of_tokens};
pub use lexer::{first_lexeme, has_tokens, is_blank};
pub use place::{Expected, last_place, syntax_place};
pub use token::{Lexeme, Token};
