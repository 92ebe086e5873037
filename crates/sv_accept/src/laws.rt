// What refuted encodings mean, as a contract of a function that changes nothing.
ghost use Rattle.std.specs.Prelude.{List};
ghost use Rattle.sv_clause.specs.Logs.{Step};
ghost use Rattle.sv_flat.specs.Design.{FlatDesign};
ghost use Rattle.sv_obl.specs.DesignQueries.{IsQueryOf};
ghost use Rattle.sv_obl.specs.Noninterference.{IsChecked};
ghost use Rattle.sv_obl.specs.Obligations.{Obligation};
ghost use Rattle.sv_obl.specs.Validity.{IsValid};
ghost use Rattle.sv_encoding.specs.Deciding.{IsRefutedBy};

use sv_clause::refuted_has_no_solution;
use sv_encoding_laws::unmet_clauses_mean_valid;

/// Where some log refutes the encoding of an obligation of a checked design, the obligation is
/// valid.
pub fn refuted_obligations_are_valid()
    ensures { (design : FlatDesign) (o : Obligation) (steps : List Step)
        → IsChecked design → IsQueryOf design o → IsRefutedBy design o steps → IsValid design o }
{
    refuted_has_no_solution();
    unmet_clauses_mean_valid();
}
