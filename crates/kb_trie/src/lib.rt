//! The automaton of a changing set of words, kept up to date when a word comes or goes.
//!
//! [`Trie`] has a state for each word that was inserted and for each beginning of one: state 0 for the empty
//! word, and the others in the order in which they were made. No word need be free of the others: one may be a
//! factor of another, or begin it. The automaton reads a text letter by letter, and its state is always that of
//! the longest suffix of what was read that is a state's word (Aho and Corasick, Efficient string matching,
//! 1975). A state that is added changes the automaton where the new word is such a suffix and nowhere else
//! (Meyer, Incremental string matching, 1985), so that the work of an insertion grows with what it changes, and
//! not with the number of states.
//!
//! # The public contract
//!
//! A caller knows of a trie the words of its states, and for each the number that it keeps, or 0 (`States` of
//! specs/States.antt). `Trie::count` tells how many states there are, and what is true of their words
//! (`AreWords`): state 0 has the empty word, every other state the word of an earlier one with a letter more,
//! and no two have one word.
//!
//! - `Trie::child` is the state of a state's word with a letter more, if there is one, `Trie::step` the state
//!   of the longest suffix of it that is a state's word (`IsStep` of specs/Steps.antt), `Trie::link` that of
//!   the longest proper suffix of a state's word (`IsLink`), and `Trie::depth` the length of its word.
//! - `Trie::add_steps_beyond` adds to a list the states to which a letter leads from a state, if their words
//!   are longer than a bound (`IsStepBeyond`). Here and below, a list gains exactly such states, at its end
//!   (`Adds` of specs/Adding.antt).
//! - `Trie::add` adds the state of a state's word with a letter more, and `Trie::insert` those of a word and
//!   its beginnings. A state that comes keeps no number. Want of memory is the one free answer. It leaves the
//!   trie as it was, but that `insert` may have made some of its states.
//! - `Trie::set` lets a state keep a number, `Trie::renumber` another one in its place, and `Trie::clear` none:
//!   so a word goes, but its state stays. `Trie::number_at` is the number of a state, and `Trie::end_at` its
//!   end (`IsEnd` of specs/Ends.antt): the state of the longest suffix of its word, the word itself among them,
//!   that keeps a number. Here too want of memory is the one free answer, and leaves all as it was.
//! - `Trie::add_longer` adds to a list, ascending, the states that keep a number and whose words have a state's
//!   word as a factor (`IsNumberedOver` of specs/Factors.antt).
//! - `Trie::copy` is the same trie.
//!
//! [`Lookup`] keeps left sides, each with a number. A caller knows of it the words of the states of its trie,
//! and for each number its left side, or that it went (`LeftSides` of specs/LeftSides.antt).
//!
//! - `Lookup::push` adds a left side, which gets the next number, and `Lookup::remove` takes out that of a
//!   number. Several numbers may have one left side. Want of memory is the one free answer, and leaves the left
//!   sides as they were, though states may have come. `Lookup::count` is how many numbers were given, and
//!   `Lookup::states` how many states there are.
//! - `Lookup::first_ending` is the least number whose left side ends a state's word, `Lookup::first_at` the
//!   least whose left side is that word, and `Lookup::next_at` the next with the same left side (`IsLeastOf`).
//!   `Lookup::end_at` is the state of the longest left side that ends a state's word (`IsLongestLeft`), and
//!   `Lookup::step`, `link` and `depth` are the trie's.
//!
//! # How it works
//!
//! - `edge`: an edge for each state but state 0, by the state that it leads from and its letter. `child` finds
//!   a child by the edge's hash, and steps along failure links where there is no table.
//! - `failure_tree`: the failure links. The states that have one link stand in a list, latest first, of which
//!   each knows the next and the previous one, so that a state moves to another list in a few writes.
//! - `table`: the steps by the letters of a short alphabet, a row for each state, so that a step is one look.
//!   It takes four bytes for each entry and 16 MiB at most; where it would take more it goes, and steps are
//!   taken by children and links.
//! - `walk`: a walk down the failure tree from a state, level by level, which stops at states that have a child
//!   by the letter, or at other states that keep a number. It changes nothing: it lists the states that it
//!   reached and left, and what it noted where it stopped.
//! - `steps`: links, table and the lengths of the words together. Let a state with the word x get a child by
//!   the letter a. The step by a leads to the new state from exactly those states whose words end with x such
//!   that none between them and x has a child by a: those that the walk reached. The link of exactly the
//!   children that it noted becomes the new state. The link of the new state is the step that x had before, and
//!   its row is that of its link.
//! - `ends`: the numbers and the ends. A number that comes to a state or goes from it changes the ends of
//!   exactly those states that the walk reached: they become the state itself, or the end of its link. The end
//!   of a new state is that of its link.
//! - `children`: the children of each state in a list, latest first. A new state comes to the head of that of
//!   its parent.
//! - `beyond`: a state to which a letter leads is a child of the state or of one along its failure links, so
//!   that only these are looked at, and not all letters.
//! - `longer`: the words that end with a state's word are those of the states below it in the failure tree, and
//!   those that have it as a factor are below these in the trie. Such a state may be met more than once: they
//!   are sorted, and repeats go.
//! - `automaton` adds the edge and has all these together; `trie` hides them from callers. Memory is taken
//!   first, so that after want of it nothing has changed.
//! - `lookup`: each state keeps the least number that has its word as left side, and each number the next one
//!   that has the same. So the left sides that end a text are met along the ends of its state, and the least of
//!   those with one word first.
//!
//! # The proofs
//!
//! `proofs/Suffixes.antt` and `proofs/Longest.antt` have suffixes, steps and links, `proofs/Words.antt` and
//! `proofs/Edges.antt` the words of the states, `proofs/FailureLists.antt` the lists of the failure tree,
//! `proofs/Walking.antt` the walk, `proofs/Growing.antt` and `proofs/Connecting.antt` what a new state changes,
//! `proofs/Rows.antt` the table, `proofs/Ending.antt` and `proofs/Numbers.antt` ends and numbers,
//! `proofs/Grown.antt` the states of a word, `proofs/ChildLists.antt` the lists of children,
//! `proofs/Leading.antt` where letters lead along the links, `proofs/Below.antt` the states below others in the
//! trie, and `proofs/Factors.antt` those whose words have a factor. `proofs/HasAt.antt` and `proofs/Least.antt`
//! have what is there under numbers, and the least of them, `proofs/Entries.antt` and `proofs/Joining.antt` the
//! left sides that come and go, and `proofs/Looking.antt` those that end a word.
//!
//! Below is `kb_word`, with words.
#![tactic(auto)]

mod automaton;
mod beyond;
mod child;
mod children;
mod edge;
mod ends;
mod failure_tree;
mod longer;
mod lookup;
mod room;
mod steps;
mod table;
mod trie;
mod walk;

pub use lookup::Lookup;
pub use trie::Trie;
