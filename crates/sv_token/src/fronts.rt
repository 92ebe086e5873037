// What can stand at the front of the bytes that are left.
ghost use Rattle.std.specs.Prelude.{◌≡◌, IfOk};
ghost use Rattle.sv_num.specs.Faults.{Refuses};
ghost use Rattle.sv_num.specs.Rules.{rule_number as number_in};
ghost use Rattle.sv_token.specs.Views.{form_word, rule_number, rule_names};

use crate::tokens::TokenKind;
use std::alloc::{AllocError, Global};
use sv_num::{Fault, Name, Place, Rule};

/// A form of the standard that is left out.
#[derive(Clone, Copy, Debug, PartialEq, Eq)]
pub enum OmittedForm {
    /// A name of the system that is no word of the grammar.
    SystemName,
    /// A directive whose line is not skipped.
    Directive,
    /// A name from a backslash on.
    EscapedName,
    /// A string.
    Text,
    /// A number with a fraction.
    Real,
    /// A digit that stands for no value of two.
    FourState,
    /// `===` or `!==`
    CaseEquality,
    /// `**`
    Power,
    /// `+:` or `-:`
    IndexedPart,
    /// `->`
    Event,
}

impl OmittedForm {
    // The word that a refusal of the form gives.
    fn word(self) -> &'static [u8]
        ensures { result.now ≡ form_word self }
    {
        match self {
            OmittedForm::SystemName => b"system-name",
            OmittedForm::Directive => b"directive",
            OmittedForm::EscapedName => b"escaped-name",
            OmittedForm::Text => b"string",
            OmittedForm::Real => b"real",
            OmittedForm::FourState => b"four-state",
            OmittedForm::CaseEquality => b"case-equality",
            OmittedForm::Power => b"power",
            OmittedForm::IndexedPart => b"indexed-part",
            OmittedForm::Event => b"event",
        }
    }
}

/// How the bytes break a rule on tokens.
#[derive(Clone, Copy, Debug, PartialEq, Eq)]
pub enum TokenBreach {
    /// The first byte begins no token.
    BadByte,
    /// A number is no number of its base, or too large.
    BadNumber,
    /// A comment has no end.
    OpenComment,
    /// A form of the standard is left out.
    LeftOut(OmittedForm),
}

impl TokenBreach {
    // The rule.
    fn rule(self) -> Rule
        ensures { number_in result ≡ rule_number self }
    {
        match self {
            TokenBreach::BadByte => Rule::BadByte,
            TokenBreach::BadNumber => Rule::BadNumber,
            TokenBreach::OpenComment => Rule::OpenComment,
            TokenBreach::LeftOut(_) => Rule::UnsupportedForm,
        }
    }

    // The names that a refusal gives.
    fn names(self, alloc: Global) -> Result<Vec<Name>, AllocError>
        ensures { IfOk result (λ names. names.items ≡ rule_names self) }
    {
        let mut names = Vec::new(alloc);
        if let TokenBreach::LeftOut(form) = self {
            names.push(Name::new(alloc, form.word())?)?;
        }
        Ok(names)
    }

    /// The fault of a text that breaks the rule at a place.
    pub fn fault(self, alloc: Global, place: Place) -> Result<Fault, AllocError>
        ensures { IfOk result (λ fault. Refuses fault (rule_number self) place (rule_names self)) }
    {
        Ok(Fault::broken(self.rule(), place, self.names(alloc)?))
    }
}

/// What the first byte and some bytes behind it are.
#[derive(Clone, Copy, Debug, PartialEq, Eq)]
pub enum Front {
    /// A gap between tokens, with so many bytes behind the first.
    Gap(usize),
    /// A token, with so many bytes behind the first.
    Token(TokenKind, usize),
    /// A broken rule.
    Broken(TokenBreach),
}

impl Front {
    /// A form that is left out.
    pub const fn left_out(form: OmittedForm) -> Front
        ensures { result ≡ Front.Broken (TokenBreach.LeftOut form) }
    {
        Front::Broken(TokenBreach::LeftOut(form))
    }
}
