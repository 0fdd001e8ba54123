//! Laws of reading and printing, each the contract of a function with no body.
ghost use Rattle.std.specs.Prelude.{◌≡◌, ℕ, All, Bool, List as Items, Ok, filter, map};
ghost use Rattle.std.specs.List.{flat_map};
ghost use Rattle.csp_model.specs.Ascii.{code, split_at};
ghost use Rattle.csp_model.specs.Policies.{IsReadable, policies};
ghost use Rattle.csp_model.specs.Validity.{IsValidOrigin};
ghost use Rattle.csp_policy.specs.Types.{PolicyList, Origin};
ghost use Rattle.csp_policy.specs.Delivered.{policy_kept};
ghost use Rattle.csp_policy.specs.Fates.{delivered, fates, has_text, is_told, piece_text};
ghost use Rattle.csp_policy.specs.HeaderLines.{IsPrintable, header_lines};
ghost use Rattle.csp_policy.specs.Refusal.{list_of};

/// A list of policies, printed as a header line for each, reads back to the list.
pub fn header_lines_read_back()
    ensures { (origin : Origin) (list : PolicyList) → IsReadable list
        → All (IsPrintable origin) list.policies → list_of (header_lines list.policies) origin ≡ Ok list }
{}

/// Each policy of a header block can be printed as a line of one.
pub fn what_is_read_can_be_printed()
    ensures { (bytes : Items ℕ) (origin : Origin) → IsValidOrigin origin
        → All (IsPrintable origin) (policies bytes origin) }
{}

/// The policies of a header block are those of its serialized policies, each of the pieces of which it keeps.
pub fn what_is_kept_is_the_list()
    ensures { (bytes : Items ℕ) (origin : Origin)
        → flat_map (policy_kept origin) (delivered bytes) ≡ policies bytes origin }
{}

/// What becomes of the pieces of a serialized policy: each stands with it exactly once, in order, and a piece that
/// has a word, or a byte outside ASCII, is either kept or dropped.
pub fn each_piece_is_kept_or_dropped()
    ensures pieces { (meta : Bool) (text : Items ℕ) → map piece_text (fates meta text) ≡ split_at (code ";") text }
    ensures kept_or_dropped { (meta : Bool) (text : Items ℕ)
        → filter has_text (split_at (code ";") text) ≡ map piece_text (filter is_told (fates meta text)) }
{}
