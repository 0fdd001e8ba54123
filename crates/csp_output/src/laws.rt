//! Laws of outputs and statuses, each the contract of a function with no body.
ghost use Rattle.std.specs.Prelude.{◌≡◌, ◌↔◌, ◌⊎◌, ℕ, List, [], ◌∷◌, All, Any, Some, Ok, codes};
ghost use Rattle.csp_embed.specs.AllowFrom.{AllowsBlanketEnforcement};
ghost use Rattle.csp_embed.specs.Decisions.{Upholds, alone};
ghost use Rattle.csp_model.specs.Inclusion.{Subsumes};
ghost use Rattle.csp_model.specs.Policies.{IsReadable};
ghost use Rattle.csp_model.specs.Validity.{IsValidCheck, IsValidOrigin};
ghost use Rattle.csp_model.specs.Verdict.{verdict_of};
ghost use Rattle.csp_model.specs.declared.policy.Disposition.TheVariants.{Enforce};
ghost use Rattle.csp_model.specs.declared.policy.Policy.{Policy};
ghost use Rattle.csp_model.specs.declared.policy.PolicyList.{PolicyList};
ghost use Rattle.csp_model.specs.declared.url.Origin.{Origin};
ghost use Rattle.csp_model.specs.declared.verdict.Described.{Described};
ghost use Rattle.csp_model.specs.declared.verdict.Item.{Item};
ghost use Rattle.csp_policy.specs.HeaderLines.{header_lines};
ghost use Rattle.csp_policy.specs.Refusal.{list_of};
ghost use Rattle.csp_proof.specs.Texts.{IsRefused};
ghost use Rattle.csp_output.specs.Checks.{IsChecked};
ghost use Rattle.csp_output.specs.Comparisons.{IsComparison, IsDifference};
ghost use Rattle.csp_output.specs.Embeddings.{IsEmbedding, IsEnforcedList, first_line};
ghost use Rattle.csp_output.specs.Learnt.{IsLearntText, learning};
ghost use Rattle.csp_output.specs.Statuses.{exit_code};
ghost use Rattle.csp_output.specs.Tidyings.{IsTidying};
ghost use Rattle.csp_output.specs.declared.built.Built.{Built};
ghost use Rattle.csp_output.specs.declared.status.Status.{Status};
ghost use Rattle.csp_output.specs.declared.status.Status.TheVariants as status;

use csp_embed::laws::what_is_enforced_upholds_the_requirement;
use csp_learn::laws::{a_learnt_policy_allows_what_is_needed, a_learnt_policy_reads_back};
use csp_model::laws::a_verdict_blocks_what_the_list_refuses;
use csp_policy::laws::{header_lines_read_back, what_is_read_can_be_printed};
use csp_proof::laws::{a_text_is_of_one_proof, what_is_accepted_is_so};

/// An answer of a comparison has the status `Clean` exactly where the second list allows all that the first
/// allows, and `Found` exactly where it doesn't. So no two answers on the same lists have different statuses,
/// and no text is one of both.
pub fn a_comparison_has_one_status()
    ensures status { (first second : PolicyList) (built : Built) → IsComparison first second built
        → (built.status ≡ status.Clean) ↔ Subsumes first second }
    ensures found { (first second : PolicyList) (built : Built) → IsComparison first second built
        → (built.status ≡ status.Found) ↔ (Subsumes first second → ⊥) }
    ensures same { (first second : PolicyList) (one other : Built) → IsComparison first second one
        → IsComparison first second other → one.status ≡ other.status }
{}

/// Of a difference that `compare` prints, the last line has the item of an enforced policy.
pub fn a_difference_shows_what_blocks()
    ensures { (first second : PolicyList) (text : List ℕ) (shown : IsDifference first second text)
        → Any (λ (item : Item). item.disposition ≡ Enforce) (verdict_of second (shown.asked ∷ [])).items }
{
    a_verdict_blocks_what_the_list_refuses();
}

/// Where `check` accepts a text, every valid check that the first list allows the second allows.
pub fn an_accepted_text_shows_inclusion()
    ensures { (first second : PolicyList) (text : List ℕ) (built : Built) → IsReadable first
        → IsReadable second → IsChecked first second text built → built.status ≡ status.Clean
        → Subsumes first second }
{
    what_is_accepted_is_so();
}

/// What `compare` prints with the status `Clean`, `check` accepts: that is its only output on the text, and
/// the text isn't refused.
pub fn what_compare_prints_check_accepts()
    ensures accepted { (first second : PolicyList) (printed built : Built) → IsComparison first second printed
        → printed.status ≡ status.Clean → IsChecked first second printed.text built
        → built ≡ record { status = status.Clean; text = codes "accepted\n" } }
    ensures not_refused { (first second : PolicyList) (printed : Built) (line : ℕ)
        → IsComparison first second printed → printed.status ≡ status.Clean
        → IsRefused printed.text line → ⊥ }
{
    a_text_is_of_one_proof();
}

/// An answer of `embed` says `added` exactly where the response allows blanket enforcement, and has the status
/// `Clean` exactly there and where the response's own policies are at least as strict as the required one. So
/// all answers on the same have one status and one word.
pub fn an_embedding_has_one_answer()
    ensures added { (embedder : Origin) (required : Policy) (block : List ℕ) (response : PolicyList)
        (built : Built) → IsEmbedding embedder required block response built
        → (first_line built.text ≡ codes "added") ↔ AllowsBlanketEnforcement block embedder }
    ensures clean { (embedder : Origin) (required : Policy) (block : List ℕ) (response : PolicyList)
        (built : Built) → IsEmbedding embedder required block response built
        → (built.status ≡ status.Clean)
        ↔ (AllowsBlanketEnforcement block embedder ⊎ Subsumes response (alone required)) }
    ensures word { (embedder : Origin) (required : Policy) (block : List ℕ) (response : PolicyList)
        (one other : Built) → IsEmbedding embedder required block response one
        → IsEmbedding embedder required block response other
        → first_line one.text ≡ first_line other.text }
    ensures status { (embedder : Origin) (required : Policy) (block : List ℕ) (response : PolicyList)
        (one other : Built) → IsEmbedding embedder required block response one
        → IsEmbedding embedder required block response other → one.status ≡ other.status }
{}

/// Where an answer of `embed` has the status `Clean`, every valid check that the list allows that is enforced
/// then the required policy allows.
pub fn an_embedding_upholds_the_requirement()
    ensures { (embedder : Origin) (required : Policy) (block : List ℕ) (response list : PolicyList)
        (built : Built) → required.disposition ≡ Enforce
        → IsEmbedding embedder required block response built → built.status ≡ status.Clean
        → IsEnforcedList embedder required block response list → Upholds list required }
{
    what_is_enforced_upholds_the_requirement();
}

/// What `learn` prints of a log begins with a header line that reads back to a policy, and this policy allows
/// exactly the fetches that the log needs. The lines after it are of the fetches that no source can name.
pub fn what_learn_prints_reads_back()
    ensures { (origin : Origin) (log : List Described) (built : Built) → IsValidOrigin origin
        → All (λ (d : Described). All IsValidCheck d.checks) log → learning origin log ≡ Some built
        → IsLearntText origin log built.text }
{
    a_learnt_policy_allows_what_is_needed();
    a_learnt_policy_reads_back();
}

/// What `tidy` prints of a header block between the line `tidied` and the first line `needed` are the header
/// lines of the tidied list, and as a header block they are read as this list.
pub fn a_tidied_list_reads_back()
    ensures { (bytes : List ℕ) (origin : Origin) (list : PolicyList) (built : Built)
        → IsValidOrigin origin → list_of bytes origin ≡ Ok list → (is : IsTidying list built)
        → list_of (header_lines is.tidied.list.policies) origin ≡ Ok is.tidied.list }
{
    header_lines_read_back();
    what_is_read_can_be_printed();
}

/// Each status has an exit code of its own.
pub fn exit_codes_differ()
    ensures { (one other : Status) → exit_code one ≡ exit_code other → one ≡ other }
{}
