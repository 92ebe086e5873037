//! The encoding of an obligation: the clauses that stand for it, which can be met exactly where the
//! obligation can be falsified, as `sv_encoding_laws` proves.
//!
//! This crate holds definitions alone, on plain designs, obligations and lists of literals; it has
//! no program code. In `specs/`, `Expressions.antt` says what the word of a typed expression is, by
//! the words of operators of `sv_circuits`, `Bodies.antt` that of a signal by its process,
//! `Cones.antt` the signals that an obligation hangs on, `Labels.antt` labels and flows as
//! literals, and `Encoding.antt` the whole, step by step.
//! `Sizes.antt` tells the number of variables without a clause, `CnfText.antt` the text that `secv
//! cnf` prints, `Valuations.antt` the valuation that values of the variables spell,
//! `Deciding.antt` what logs of resolution decide of an obligation, and `BothWays.antt` what the
//! clauses mean, with `GivenMeanings.antt` on the words with which a cycle begins and
//! `LabelMeanings.antt` on labels and flows. None is private. `proofs/` has examples by computation.
#![tactic(auto)]
