// The rules that a text can break, and the limits that it can exceed.
ghost use Rattle.std.specs.Prelude.{◌≡◌, find, nat_eq, Some};
ghost use Rattle.std.specs.Option.{option_copied};
ghost use Rattle.sv_num.specs.Rules.{rule_number, rule_name, rules};

/// A rule that a text can break (100 to 699), or a limit that it can exceed (from 700), in the
/// order of their numbers.
#[derive(Clone, Copy, Debug, PartialEq, Eq)]
pub enum Rule {
    /// No token begins with this byte.
    BadByte,
    /// A number is no number of its base, or too large.
    BadNumber,
    /// A comment has no end.
    OpenComment,
    /// A form of the standard's tokens is left out.
    UnsupportedForm,
    /// An item, or a form of one, is not built so far.
    NotBuilt,
    /// No text of the grammar goes on with this token, or ends here.
    Unexpected,
    /// A word or a construct of the standard is left out.
    UnsupportedWord,
    /// More than 64 levels are open.
    TooDeep,
    /// An expression has more than 1,024 tokens, or a case more than 256 arms.
    TooLong,
    /// A lattice has no point, or more than 32.
    LatticeSize,
    /// A point is declared twice, or not at all.
    LatticeName,
    /// Two points flow to each other.
    Circle,
    /// Two points have no least upper point.
    NoJoin,
    /// Two points have no greatest lower point.
    NoMeet,
    /// A label map is declared twice.
    MapName,
    /// A label map's range is not `[m:0]` with m from 0 to 7, or a row is of no value in it, of one
    /// twice, or gives no point.
    MapRow,
    /// A label map says nothing of a value.
    MapHole,
    /// There is no module to begin with, or, where none is asked for, more than one.
    NoTop,
    /// There is no module of this name.
    UnknownModule,
    /// A name is declared twice.
    Twice,
    /// An instance has too many links, one to no port or two to one, or links an output to something
    /// other than a whole signal.
    Port,
    /// A module would stand inside itself.
    Recursive,
    /// A design has more than 4,096 signals or 1,024 instances.
    TooMany,
    /// An instance has too many overrides, one of no parameter or of a local one, or two of one.
    Parameter,
    /// A name stands for nothing here, or for a parameter where only a signal may stand.
    UnknownName,
    /// An expression or signal is longer than 64 bits.
    TooWide,
    /// A constant bit or a part lies outside its signal, or a part's high end is below its low end.
    BadSelect,
    /// A constant is wanted, and this is none.
    NotConstant,
    /// A constant divisor is 0.
    ZeroDivisor,
    /// An operand of `/` or `%` is not constant.
    Division,
    /// A number without a size stands directly in braces.
    UnsizedPart,
    /// A replication count is not 1 to 64.
    BadCount,
    /// A range is not `[m:0]` with m from 0 to 63.
    BadRange,
    /// A label has no such point, map or selector, or the selector is not as wide as the map.
    Label,
    /// A process assigns what it may not, or as it may not.
    WrongAssign,
    /// A clock is not a 1-bit input, is linked by no whole name, leads up to another top input than
    /// a clock before, is read, driven or selected by, or has a label that is not the least point.
    Clock,
    /// A second process drives a signal, or any process a top input.
    Drivers,
    /// A signal that is neither a top input nor a clock has no driver.
    Undriven,
    /// A block does not assign a signal on every path.
    Latch,
    /// A block reads a signal before it has its value.
    Phase,
    /// Signals read each other in a circle.
    Loop,
    /// A design has more than 1,048,576 bytes.
    FileSize,
    /// A target has more than 4,096 paths.
    Paths,
    /// A design has more than 65,536 obligations.
    Obligations,
    /// A stimulus has more than 1,073,741,824 bytes.
    StimulusSize,
    /// A sample has not 1 to 200 lanes.
    Gen,
    /// There is no obligation of this number.
    NoObligation,
    /// There is no point of this name.
    Level,
    /// An encoding has more than 4,194,304 variables.
    Encoding,
    /// A certificate has more than 268,435,456 bytes.
    ProofSize,
    /// A file that `compare` reads has more than 67,108,864 bytes.
    StimulusFile,
    /// More than 65,536 nodes are put into a path.
    ObligationSize,
}

const RULES: [Rule; 52] = [
    Rule::BadByte,
    Rule::BadNumber,
    Rule::OpenComment,
    Rule::UnsupportedForm,
    Rule::NotBuilt,
    Rule::Unexpected,
    Rule::UnsupportedWord,
    Rule::TooDeep,
    Rule::TooLong,
    Rule::LatticeSize,
    Rule::LatticeName,
    Rule::Circle,
    Rule::NoJoin,
    Rule::NoMeet,
    Rule::MapName,
    Rule::MapRow,
    Rule::MapHole,
    Rule::NoTop,
    Rule::UnknownModule,
    Rule::Twice,
    Rule::Port,
    Rule::Recursive,
    Rule::TooMany,
    Rule::Parameter,
    Rule::UnknownName,
    Rule::TooWide,
    Rule::BadSelect,
    Rule::NotConstant,
    Rule::ZeroDivisor,
    Rule::Division,
    Rule::UnsizedPart,
    Rule::BadCount,
    Rule::BadRange,
    Rule::Label,
    Rule::WrongAssign,
    Rule::Clock,
    Rule::Drivers,
    Rule::Undriven,
    Rule::Latch,
    Rule::Phase,
    Rule::Loop,
    Rule::FileSize,
    Rule::Paths,
    Rule::Obligations,
    Rule::StimulusSize,
    Rule::Gen,
    Rule::NoObligation,
    Rule::Level,
    Rule::Encoding,
    Rule::ProofSize,
    Rule::StimulusFile,
    Rule::ObligationSize,
];

// The first of the rules with the number.
fn rule_among(number: u16, rules: &[Rule]) -> Option<&Rule>
    ensures { option_copied result ≡ find (λ rule. nat_eq (rule_number rule) number) rules.now }
{
    rules.iter().find(|rule| rule.number() == number)
}

impl Rule {
    /// The number that a refusal gives.
    pub fn number(self) -> u16
        ensures { result ≡ rule_number self }
    {
        match self {
            Rule::BadByte => 101,
            Rule::BadNumber => 102,
            Rule::OpenComment => 103,
            Rule::UnsupportedForm => 104,
            Rule::NotBuilt => 199,
            Rule::Unexpected => 201,
            Rule::UnsupportedWord => 202,
            Rule::TooDeep => 203,
            Rule::TooLong => 204,
            Rule::LatticeSize => 301,
            Rule::LatticeName => 302,
            Rule::Circle => 303,
            Rule::NoJoin => 304,
            Rule::NoMeet => 305,
            Rule::MapName => 306,
            Rule::MapRow => 307,
            Rule::MapHole => 308,
            Rule::NoTop => 310,
            Rule::UnknownModule => 311,
            Rule::Twice => 312,
            Rule::Port => 313,
            Rule::Recursive => 314,
            Rule::TooMany => 315,
            Rule::Parameter => 316,
            Rule::UnknownName => 401,
            Rule::TooWide => 402,
            Rule::BadSelect => 403,
            Rule::NotConstant => 404,
            Rule::ZeroDivisor => 405,
            Rule::Division => 406,
            Rule::UnsizedPart => 407,
            Rule::BadCount => 408,
            Rule::BadRange => 409,
            Rule::Label => 410,
            Rule::WrongAssign => 601,
            Rule::Clock => 602,
            Rule::Drivers => 603,
            Rule::Undriven => 604,
            Rule::Latch => 605,
            Rule::Phase => 606,
            Rule::Loop => 607,
            Rule::FileSize => 701,
            Rule::Paths => 702,
            Rule::Obligations => 703,
            Rule::StimulusSize => 704,
            Rule::Gen => 705,
            Rule::NoObligation => 706,
            Rule::Level => 707,
            Rule::Encoding => 709,
            Rule::ProofSize => 710,
            Rule::StimulusFile => 711,
            Rule::ObligationSize => 712,
        }
    }

    /// The name that a refusal gives.
    pub fn name(self) -> &'static str
        ensures { result.now ≡ rule_name self }
    {
        match self {
            Rule::BadByte => "bad-byte",
            Rule::BadNumber => "bad-number",
            Rule::OpenComment => "open-comment",
            Rule::UnsupportedForm => "unsupported",
            Rule::NotBuilt => "not-built",
            Rule::Unexpected => "unexpected",
            Rule::UnsupportedWord => "unsupported",
            Rule::TooDeep => "too-deep",
            Rule::TooLong => "too-long",
            Rule::LatticeSize => "lattice-size",
            Rule::LatticeName => "lattice-name",
            Rule::Circle => "circle",
            Rule::NoJoin => "no-join",
            Rule::NoMeet => "no-meet",
            Rule::MapName => "map-name",
            Rule::MapRow => "map-row",
            Rule::MapHole => "map-hole",
            Rule::NoTop => "no-top",
            Rule::UnknownModule => "unknown-module",
            Rule::Twice => "twice",
            Rule::Port => "port",
            Rule::Recursive => "recursive",
            Rule::TooMany => "too-many",
            Rule::Parameter => "parameter",
            Rule::UnknownName => "unknown-name",
            Rule::TooWide => "too-wide",
            Rule::BadSelect => "bad-select",
            Rule::NotConstant => "not-constant",
            Rule::ZeroDivisor => "zero-divisor",
            Rule::Division => "division",
            Rule::UnsizedPart => "unsized-part",
            Rule::BadCount => "bad-count",
            Rule::BadRange => "bad-range",
            Rule::Label => "label",
            Rule::WrongAssign => "wrong-assign",
            Rule::Clock => "clock",
            Rule::Drivers => "drivers",
            Rule::Undriven => "undriven",
            Rule::Latch => "latch",
            Rule::Phase => "phase",
            Rule::Loop => "loop",
            Rule::FileSize => "file-size",
            Rule::Paths => "paths",
            Rule::Obligations => "obligations",
            Rule::StimulusSize => "stimulus-size",
            Rule::Gen => "gen",
            Rule::NoObligation => "no-obligation",
            Rule::Level => "level",
            Rule::Encoding => "encoding",
            Rule::ProofSize => "proof-size",
            Rule::StimulusFile => "stimulus-file",
            Rule::ObligationSize => "obligation-size",
        }
    }

    /// The rule or limit with this number. No two have one number.
    pub fn numbered(number: u16) -> Option<Rule>
        ensures found { result ≡ find (λ rule. nat_eq (rule_number rule) number) rules }
        ensures own { (rule : Rule) → rule_number rule ≡ number → result ≡ Some rule }
    {
        rule_among(number, &RULES).copied()
    }
}
