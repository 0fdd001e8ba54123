//! Laws of what a page's call answers, each the contract of a function with no body.
ghost use Rattle.std.specs.Prelude.{◌≡◌, ◌∷◌, ◌++◌, ℕ, All, List as Items, None, Ok, Option};
ghost use Rattle.csp_page.specs.Laws.{IsReadable, told_contents};
ghost use Rattle.csp_page.specs.Page.{IsPageAnswer};
ghost use Rattle.csp_run.specs.Files.{found_in, read_fault};
ghost use Rattle.csp_run.specs.Texts.{fault_text};
ghost use Rattle.csp_run.specs.Words.{File, Plan, plan_of};

/// What the answer is made of is what the files hold that the words name: nothing is read that isn't there.
pub fn what_is_found_is_what_the_files_hold()
    ensures { (words : Items (Items ℕ)) (contents : Items ℕ → Option (Items ℕ)) (code : ℕ) (text : Items ℕ)
        (plan : Plan) (answer : IsPageAnswer words contents code text) → plan_of words ≡ Ok plan
        → found_in plan.origin plan.files answer.world.log ≡ told_contents contents plan.origin plan.files }
{}

/// Where a file of the words isn't there, and each before it can be read, the code is 8 and the text names
/// what the file is to the command.
pub fn a_file_that_is_not_there_is_a_read_fault()
    ensures { (words : Items (Items ℕ)) (contents : Items ℕ → Option (Items ℕ)) (code : ℕ) (text : Items ℕ)
        (plan : Plan) (front : Items File) (file : File) (rest : Items File) → plan_of words ≡ Ok plan
        → plan.files ≡ front ++ file ∷ rest → All (λ (f : File). IsReadable contents plan.origin f) front
        → contents file.name ≡ None → IsPageAnswer words contents code text
        → (code ≡ 8) × (text ≡ fault_text (read_fault file.role)) }
{}
