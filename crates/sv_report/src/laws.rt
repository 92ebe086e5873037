// What follows of the texts, as contracts of functions that do nothing.
ghost use Rattle.std.specs.Prelude.{◌≡◌, ℕ, List};
ghost use Rattle.std.specs.Str.{IsAscii};
ghost use Rattle.serde_json.specs.Data.{string};
ghost use Rattle.sv_flat.specs.Design.{FlatDesign};
ghost use Rattle.sv_design.specs.Designs.{IsDesign};
ghost use Rattle.sv_obl.specs.declared.valuations.Valuation.{Valuation};
ghost use Rattle.sv_obl.specs.DesignQueries.{IsQueryOf};
ghost use Rattle.sv_obl.specs.Obligations.{Obligation};
ghost use Rattle.sv_report.specs.declared.styles.Style.{Style};
ghost use Rattle.sv_report.specs.FlowText.{AsksFlow};
ghost use Rattle.sv_report.specs.JsonTexts.{name_data};
ghost use Rattle.sv_report.specs.Styles.{IsFlowTextIn};

/// An obligation of an admitted design that fails at some values has one text in each style: the
/// values alone tell which read does not flow first.
pub fn each_failure_has_one_text()
    ensures { (style : Style) → (design : FlatDesign) → IsDesign design → (number : ℕ)
        → (o : Obligation) → (v : Valuation) → AsksFlow o.goal → IsQueryOf design o
        → (one other : List ℕ) → IsFlowTextIn style design number o v one
        → IsFlowTextIn style design number o v other → one ≡ other }
{}

/// JSON tells a name of ASCII bytes as it is.
pub fn ascii_names_are_told_unchanged()
    ensures { (name : List ℕ) → IsAscii name → name_data name ≡ string name }
{}
