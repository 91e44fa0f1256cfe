//! The language of rules that grammars of symbols are written in, and the laws of any grammar in it. Nothing here reads
//! a symbol.
#![tactic(auto)]
