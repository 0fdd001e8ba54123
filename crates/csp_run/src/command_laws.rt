//! Laws of what commands do, each the contract of a function with no body: over the words, the files and the
//! text that was written. None speaks of a run that ends with `WriteFault`, of which `run` promises a prefix.
ghost use Rattle.std.specs.Prelude.{◌≡◌, ◌≢◌, ◌↔◌, ◌∷◌, [], ℕ, Any, false, List};
ghost use Rattle.std.specs.Prelude.{All, IsTrue};
ghost use Rattle.csp_model.specs.Inclusion.{Subsumes};
ghost use Rattle.csp_model.specs.Verdict.{allows_all};
ghost use Rattle.csp_model.specs.declared.policy.PolicyList.{PolicyList};
ghost use Rattle.csp_model.specs.declared.url.Origin.{Origin};
ghost use Rattle.csp_model.specs.declared.verdict.Described.{Described};
ghost use Rattle.csp_output.specs.declared.status.Status.{Status};
ghost use Rattle.csp_output.specs.declared.status.Status.TheVariants as status;
ghost use Rattle.csp_output.specs.Explanations.{explanation};
ghost use Rattle.csp_run.specs.Commands.{AcceptsInclusion, AsksFor, Learns, NamesDirectives, Shows, Tidies, Wrote};
ghost use Rattle.csp_desk.specs.Desk.{Desk};
ghost use Rattle.csp_run.specs.Files.{World};
ghost use Rattle.csp_run.specs.Forms as form;
ghost use Rattle.csp_run.specs.Laws.{AreLists, AreRequests};
ghost use Rattle.csp_run.specs.Words.{Plan};

use csp_compare::laws::each_directive_that_differs_is_named;
use csp_model::laws::a_verdict_blocks_what_the_list_refuses;
use csp_output::differ_laws::differ_ends_as_compare;
use csp_output::laws::{
    a_tidied_list_reads_back, an_accepted_text_shows_inclusion,
    an_embedding_upholds_the_requirement, what_learn_prints_reads_back,
};
use csp_output::why_laws::why_ends_as_judge_does;
use csp_valid::laws::{
    described_urls_are_valid, what_is_read_is_a_valid_origin, what_is_read_is_readable,
};

/// Where `check` ends with `Clean`, it read two lists and a text, it wrote `accepted`, and the second list
/// allows all that the first allows.
pub fn check_accepts_only_inclusion()
    ensures { (w : World) (desk : Desk) (words : List (List ℕ)) (plan : Plan) (ending : Status)
        (text : List ℕ) → AsksFor words form.Check plan → Wrote w desk words ending text
        → ending ≡ status.Clean → AcceptsInclusion w plan text }
{
    an_accepted_text_shows_inclusion();
    what_is_read_is_a_valid_origin();
    what_is_read_is_readable();
}

/// Where `learn` ends with `Clean`, it read a log, and what it wrote begins with the header line of a policy
/// that reads back and allows exactly the fetches that the log needs.
pub fn learn_allows_exactly_what_its_log_needs()
    ensures { (w : World) (desk : Desk) (words : List (List ℕ)) (plan : Plan) (ending : Status)
        (text : List ℕ) → AsksFor words form.Learn plan → Wrote w desk words ending text
        → ending ≡ status.Clean → Learns w plan text }
{
    what_learn_prints_reads_back();
    described_urls_are_valid();
    what_is_read_is_a_valid_origin();
}

/// Where `tidy` ends with `Clean`, it read a list, and what it wrote is an equivalent list from which no single
/// token can be taken, with what shows it. Its header lines read back to it.
pub fn tidy_prints_what_is_equivalent_and_reads_back()
    ensures { (w : World) (desk : Desk) (words : List (List ℕ)) (plan : Plan) (ending : Status)
        (text : List ℕ) → AsksFor words form.Tidy plan → Wrote w desk words ending text
        → ending ≡ status.Clean → Tidies w plan ending text }
{
    a_tidied_list_reads_back();
    what_is_read_is_a_valid_origin();
}

/// Where `embed` ends with `Clean`, it read a policy and a response, and every valid check that the list allows
/// that is enforced on the response the policy allows.
pub fn embed_upholds()
    ensures { (w : World) (desk : Desk) (words : List (List ℕ)) (plan : Plan) (ending : Status)
        (text : List ℕ) (embedder : Origin) → AsksFor words (form.Embed embedder) plan
        → Wrote w desk words ending text → ending ≡ status.Clean → Shows w plan embedder }
{
    an_embedding_upholds_the_requirement();
}

/// Unless memory runs out, `differ` names of two lists that it read each directive under which the first allows
/// more than the second, and no other, and ends with `Clean` exactly where there is none.
pub fn differ_names_each_directive()
    ensures named { (w : World) (desk : Desk) (words : List (List ℕ)) (plan : Plan) (ending : Status)
        (text : List ℕ) (first second : PolicyList) → AsksFor words form.Differ plan
        → Wrote w desk words ending text → ending ≢ status.NoMemory → AreLists w plan first second
        → NamesDirectives first second ending text }
    ensures clean { (w : World) (desk : Desk) (words : List (List ℕ)) (plan : Plan) (ending : Status)
        (text : List ℕ) (first second : PolicyList) → AsksFor words form.Differ plan
        → Wrote w desk words ending text → ending ≢ status.NoMemory → AreLists w plan first second
        → (ending ≡ status.Clean) ↔ Subsumes first second }
{
    each_directive_that_differs_is_named();
    differ_ends_as_compare();
}

/// Unless memory runs out, `why` writes of a list and requests that it read what is explained of them, and ends
/// as `judge` does: with `Clean` exactly where the list allows each request, and else with `Found`.
pub fn why_ends_as_judge()
    ensures text { (w : World) (desk : Desk) (words : List (List ℕ)) (plan : Plan) (ending : Status)
        (text : List ℕ) (list : PolicyList) (requests : List Described) → AsksFor words form.Why plan
        → Wrote w desk words ending text → ending ≢ status.NoMemory → AreRequests w plan list requests
        → text ≡ (explanation list requests).text }
    ensures clean { (w : World) (desk : Desk) (words : List (List ℕ)) (plan : Plan) (ending : Status)
        (text : List ℕ) (list : PolicyList) (requests : List Described) → AsksFor words form.Why plan
        → Wrote w desk words ending text → ending ≢ status.NoMemory → AreRequests w plan list requests
        → (ending ≡ status.Clean) ↔ All (λ (d : Described). IsTrue (allows_all list d.checks)) requests }
    ensures found { (w : World) (desk : Desk) (words : List (List ℕ)) (plan : Plan) (ending : Status)
        (text : List ℕ) (list : PolicyList) (requests : List Described) → AsksFor words form.Why plan
        → Wrote w desk words ending text → ending ≢ status.NoMemory → AreRequests w plan list requests
        → (ending ≡ status.Found) ↔ Any (λ (d : Described). allows_all list d.checks ≡ false) requests }
{
    why_ends_as_judge_does();
    a_verdict_blocks_what_the_list_refuses();
}
