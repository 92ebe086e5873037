// Parameters, with their values.
ghost use Rattle.std.specs.Prelude.{◌≡◌, ◌≤◌, Ok, IfOk, IfErr, OnOk, IsTrue, option_map, unwrap_or};
ghost use Rattle.sv_num.specs.Parts.{extended};
ghost use Rattle.sv_num.specs.Vectors.{width_of, is_signed, value_of};
ghost use Rattle.sv_ast.specs.Shape.{is_shaped_expression, is_shaped_parameter};
ghost use Rattle.sv_ast.specs.Views.{expression_tree, parameter_tree, module_tree};
ghost use Rattle.sv_elab_rules.specs.Declarations.{override_of, final_walk, parameter_walk};
ghost use Rattle.sv_width.specs.Answers.{IsBreach};
ghost use Rattle.sv_width.specs.Scopes.{number_of, names_ahead};
ghost use Rattle.sv_elab_decl.specs.Ranges.{ranged};
ghost use Rattle.sv_elab_decl.specs.Sites.{site_of, bindings_in, declared_of, IsSoFar};
ghost use Rattle.sv_elab_decl.specs.Steps.{Stops};

use crate::ranges::optional_width;
use crate::sites::{Declared, Site};
use std::alloc::Global;
use sv_ast::Param;
use sv_num::{Bits, Fault, extend, slice};
use sv_width::{Scope, constant};

// What the instance sets the parameter to, if it does.
fn override_of(site: &Site, scope: &Scope, param: &Param) -> Option<Bits>
    ensures { option_map number_of result
        ≡ override_of (site_of site.now) (bindings_in scope.now) (parameter_tree param.now) }
{
    if param.local || scope.find(&param.name).is_some() {
        return None;
    }
    site.set.get(&param.name).copied()
}

// The final value of a parameter: what it is set to, or else its default.
fn final_value(alloc: Global, site: &Site, scope: &Scope, param: &Param) -> Result<Bits, Fault>
    requires { IsTrue (is_shaped_expression (expression_tree param.now.value)) }
    ensures found { IfOk result (λ bits. (final_walk (names_ahead scope.now)
        (override_of (site_of site.now) (bindings_in scope.now) (parameter_tree param.now))
        (expression_tree param.now.value)).end ≡ Ok (number_of bits)) }
    ensures broken { IfErr result (IsBreach (final_walk (names_ahead scope.now)
        (override_of (site_of site.now) (bindings_in scope.now) (parameter_tree param.now))
        (expression_tree param.now.value)).end) }
{
    match override_of(site, scope, param) {
        Some(bits) => Ok(bits),
        None => constant(alloc, &param.value, scope),
    }
}

// The low bits of a value at another length, where the new ones are as its own signedness says.
fn at_length(value: Bits, width: u8) -> u64
    requires some { 1 ≤ width }
    requires few { width ≤ 64 }
    ensures { result ≡ extended (is_signed value) (width_of value) width (value_of value) }
{
    if width < value.width() {
        slice(value, width - 1, 0).value()
    } else {
        extend(value, width, value.signed()).value()
    }
}

// The value of a parameter of this signedness: with a range as an assignment to it gives, else as
// it is.
fn in_range(value: Bits, width: Option<u8>, signed: bool) -> Bits
    requires some { 1 ≤ unwrap_or width 1 }
    requires few { unwrap_or width 1 ≤ 64 }
    ensures { number_of result ≡ ranged signed width (number_of value) }
{
    match width {
        Some(width) => Bits::of_type(width, signed, at_length(value, width)),
        None => value,
    }
}

/// Declares a parameter. Its range is asked, then its default where the instance does not set it,
/// and then rule 312; where one of them is broken, nothing is declared.
pub fn declare_param(
    alloc: Global,
    site: &Site,
    param: &Param,
    declared: &mut Declared,
) -> Result<(), Fault>
    requires shaped { IsTrue (is_shaped_parameter (parameter_tree param.now)) }
    requires so_far { IsSoFar site.now.base (module_tree site.now.master.now) declared.old }
    ensures found { OnOk result ((parameter_walk site.now.base (site_of site.now)
        (declared_of declared.old) (parameter_tree param.now)).end ≡
        Ok (declared_of declared.new)) }
    ensures so_far { OnOk result
        (IsSoFar site.now.base (module_tree site.now.master.now) declared.new) }
    ensures stopped { IfErr result (Stops (parameter_walk site.now.base (site_of site.now)
        (declared_of declared.old) (parameter_tree param.now)).end
        (declared_of declared.old) declared.new) }
{
    let width = optional_width(alloc, &param.span, &declared.scope)?;
    let value = final_value(alloc, site, &declared.scope, param)?;
    let value = in_range(value, width, param.signed);
    let name = param.name.copy(alloc)?;
    declared.scope.add_param(name, value, param.place)
}
