//! Laws of what is read, each the contract of a function with no body.
ghost use Rattle.std.specs.Prelude.{◌≡◌, ℕ, All, List as Items, Ok, Some};
ghost use Rattle.csp_model.specs.Policies.{IsReadable};
ghost use Rattle.csp_model.specs.Validity.{IsValidOrigin};
ghost use Rattle.csp_model.specs.declared.policy.PolicyList.{PolicyList};
ghost use Rattle.csp_model.specs.declared.url.Origin.{Origin};
ghost use Rattle.csp_model.specs.declared.verdict.Described.{Described};
ghost use Rattle.csp_policy.specs.Refusal.{list_of};
ghost use Rattle.csp_request.specs.Requests.{requests_of};
ghost use Rattle.csp_url.specs.Origins.{origin_of};
ghost use Rattle.csp_valid.specs.ValidUrls.{HaveValidUrls};

/// The origin that a text is is one that a policy may have.
pub fn what_is_read_is_a_valid_origin()
    ensures { (text : Items ℕ) (origin : Origin) → origin_of text ≡ Some origin → IsValidOrigin origin }
{}

/// The policies of a header block of a valid origin are readable, where the block isn't refused.
pub fn what_is_read_is_readable()
    ensures { (bytes : Items ℕ) (origin : Origin) (list : PolicyList) → IsValidOrigin origin
        → list_of bytes origin ≡ Ok list → IsReadable list }
{}

/// The URL of each check that a request file describes is valid.
pub fn described_urls_are_valid()
    ensures { (bytes : Items ℕ) (requests : Items Described) → requests_of bytes ≡ Ok requests
        → All HaveValidUrls requests }
{}
