// What follows from the meaning of texts and from the definitions of what `run` does, as contracts
// of functions that do nothing.
ghost use Rattle.std.specs.Prelude.{◌≡◌, ◌≢◌, ◌∷◌, ℕ, List, Option, []};
ghost use Rattle.sv_flat.specs.Design.{FlatDesign};
ghost use Rattle.sv_io.specs.Exchange.{Exchange};
ghost use Rattle.sv_obl.specs.Asked.{AskedHold};
ghost use Rattle.sv_obl.specs.declared.valuations.Valuation.{Valuation as Listed};
ghost use Rattle.sv_judge.specs.Verdicts.{IsAccepted, IsFalsified};
ghost use Rattle.sv_run_laws.specs.FalsifiedTexts.{ListsFalsifyText};
ghost use Rattle.sv_words.specs.Words.{Request};
ghost use Rattle.sv_cli.specs.Answer.{Answer, done, views_differ};
ghost use Rattle.sv_cli.specs.Checks.{IsCertificate};
ghost use Rattle.sv_cli.specs.Command.{top_in, Claims};
ghost use Rattle.sv_cli.specs.Completeness.{OfEachDecision, IsNotFalsified, IsNotLimit};
ghost use Rattle.sv_cli.specs.Completeness.{IsNotUndecided, SomeFails, AllFit, IsLarge};
ghost use Rattle.sv_cli.specs.Completeness.{AllHaveUnitConflicts, Suffices};
ghost use Rattle.sv_cli.specs.Dialogues.{IsDialogue, IsTextOf};
ghost use Rattle.sv_cli.specs.Texts.{Passes, HasValidObligations, KeepsSecrets};
ghost use Rattle.sv_cli.specs.Uniqueness.{IsSure, HasOneAnswer, HasSureRefusals};
ghost use Rattle.sv_cli.specs.Verifies.{Judges};

use sv_clause::refuted_has_no_solution;
use sv_compare::{each_pair_of_stimuli_has_one_finding, secret_keeping_texts_show_no_leak};
use sv_encoding_laws::unmet_clauses_mean_valid;
use sv_run_laws::each_stimulus_of_a_text_has_one_text;

/// For what was asked, exchanged and given as stimulus there is at most one right answer, with one
/// text that is printed for it, but for another circle of rule 607: of every command but `check`
/// and `gen --check`.
pub fn each_dialogue_has_one_answer()
    ensures { (request : Request) → IsSure request → HasOneAnswer request }
{
    each_stimulus_of_a_text_has_one_text();
    each_pair_of_stimuli_has_one_finding();
}

/// Of every command two right answers are one, as above, or both decide obligations: each is that
/// all are proved, that one is falsified, that the encoding of one is too large, or that the budget
/// is spent on one. So a broken rule, or another limit, excludes every other answer, of `check` and
/// `gen --check` too.
pub fn refusals_are_sure()
    ensures { (request : Request) → HasSureRefusals request }
{
    each_dialogue_has_one_answer();
}

/// Of `check` what is free is the valuation that is printed, and whether a budget is spent: a text
/// that is accepted has valid obligations alone, and one of which a valuation is printed has an
/// obligation that it falsifies. So no text has both verdicts.
pub fn no_text_is_accepted_and_falsified()
    ensures accepted { (top : Option (List ℕ)) (text : List ℕ) (passes : Passes top text)
        (budget count : ℕ)
        → IsAccepted passes.design budget count → AskedHold passes.design }
    ensures apart { (top : Option (List ℕ)) (text : List ℕ) (passes : Passes top text)
        (most count budget number : ℕ) (v : Listed)
        → IsAccepted passes.design most count → IsFalsified passes.design budget number v → ⊥ }
{
    refuted_has_no_solution();
    unmet_clauses_mean_valid();
}

/// A valuation that `check` prints falsifies the obligation that is told for the text itself: read
/// in the order in which the text has its registers and inputs, in environments of the text's own
/// system that are settled for it, and by labels in the source's own words.
pub fn printed_values_falsify_their_texts()
    ensures { (top : Option (List ℕ)) (text : List ℕ) (passes : Passes top text)
        (budget number : ℕ) (v : Listed) (f : IsFalsified passes.design budget number v)
        → ListsFalsifyText passes.stands.tree top passes.design v f.obligation }
{}

/// Where `check`, `verify` or `gen --check` accepts, the text that the fetch of FILE handed out, or
/// the sample, keeps its secrets, and each of its obligations is valid.
pub fn accepted_texts_keep_secrets()
    ensures secrets { (request : Request) (exchanges : List Exchange) (stimulus printed : List ℕ)
        → Claims request → IsDialogue request exchanges stimulus done printed
        → (text : List ℕ) × IsTextOf request exchanges text
        × KeepsSecrets (top_in request) text }
    ensures valid { (request : Request) (exchanges : List Exchange) (stimulus printed : List ℕ)
        → Claims request → IsDialogue request exchanges stimulus done printed
        → (text : List ℕ) × IsTextOf request exchanges text
        × HasValidObligations (top_in request) text }
{
    refuted_has_no_solution();
    unmet_clauses_mean_valid();
}

/// Of a text that keeps its secrets `compare` never tells that what is given looks alike and the
/// views differ: where it does, the text is another one.
pub fn secret_keepers_show_no_leak()
    ensures { (request : Request) (exchanges : List Exchange) (stimulus printed : List ℕ)
        (cycle signal : ℕ)
        → IsDialogue request exchanges stimulus (views_differ cycle signal) printed
        → (text : List ℕ) × IsTextOf request exchanges text
        × (KeepsSecrets (top_in request) text → ⊥) }
{
    secret_keeping_texts_show_no_leak();
}

/// A certificate that `check` may store, of a size that `verify` reads, is one that `verify`
/// accepts.
pub fn stored_certificates_are_accepted()
    ensures { (design : FlatDesign) (budget : ℕ) (bytes : List ℕ)
        → IsCertificate design budget bytes → (answer : Answer) (printed : List ℕ)
        → Judges design bytes answer printed → answer ≡ done }
{}

/// What `check` is sure to decide of a text that passes and exceeds no limit on obligations,
/// whatever is free in it. Where all obligations are valid it prints no valuation, and where one
/// can be falsified it does not accept; where all encodings fit it tells no limit; and where the
/// budget is at least 3^n over n variables, or unit resolution refutes each encoding, it does not
/// answer unknown. So a text whose obligations are valid and fit, with a budget that suffices, is
/// accepted.
pub fn check_decides_what_it_can()
    ensures valid { OfEachDecision (λ design budget answer.
        AskedHold design → IsNotFalsified answer) }
    ensures falsified { OfEachDecision (λ design budget answer.
        SomeFails design → answer ≢ done) }
    ensures fits { OfEachDecision (λ design budget answer.
        AllFit design → IsNotLimit answer) }
    ensures large { OfEachDecision (λ design budget answer.
        IsLarge design budget → IsNotUndecided answer) }
    ensures units { OfEachDecision (λ design budget answer.
        AllHaveUnitConflicts design → IsNotUndecided answer) }
    ensures accepts { OfEachDecision (λ design budget answer.
        AskedHold design → AllFit design → Suffices design budget → answer ≡ done) }
{
    refuted_has_no_solution();
    unmet_clauses_mean_valid();
}
