#![tactic(auto)]
//! What accepted histories of notes tell the table of words: the definitions and laws that name
//! neither a table nor the values in it.
