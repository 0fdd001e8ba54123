//! Laws of how a policy file is told to be read, each the contract of a function with no body of its own.
ghost use Rattle.std.specs.Prelude.{◌≡◌, ℕ, ◌<◌, ◌-◌, ◌^◌, List as Items, Ok, filter, length, map};
ghost use Rattle.std.specs.List.{filter_map, flat_map};
ghost use Rattle.csp_model.specs.Policies.{policies};
ghost use Rattle.csp_policy.specs.Types.{PolicyList, Origin};
ghost use Rattle.csp_policy.specs.Fates.{delivered, has_text, is_told, kept, piece_text};
ghost use Rattle.csp_policy.specs.Refusal.{list_of};
ghost use Rattle.csp_policy.specs.ReadingLaws.{directives_told, dropped_in, fates_in, is_piece, numbered};
ghost use Rattle.csp_policy.specs.ReadingLaws.{pieces_in, policy_line, policy_told};
ghost use Rattle.csp_policy.specs.ReadingLines.{reading_text};
ghost use Rattle.csp_policy.specs.Told.{told};

use crate::laws::{each_piece_is_kept_or_dropped, what_is_kept_is_the_list};

/// The policies that are told are those of the header block, in order, each with its number in that list. Where
/// `read_block` gives a list, it is the list of these.
pub fn the_policies_told_are_the_list()
    ensures policies { (bytes : Items ℕ) (origin : Origin)
        → filter_map (policy_told origin) (told bytes) ≡ numbered 0 (policies bytes origin) }
    ensures list { (bytes : Items ℕ) (origin : Origin) (list : PolicyList) → list_of bytes origin ≡ Ok list
        → filter_map (policy_told origin) (told bytes) ≡ numbered 0 list.policies }
{
    what_is_kept_is_the_list();
}

/// The pieces of a header block that have a word, or a byte outside ASCII, are those that are kept or dropped. The
/// kept ones are told as the directives of policies, each once and in order, and so are the dropped ones, with
/// their text, line and reason. No other piece is told.
pub fn each_piece_is_told_once()
    ensures pieces { (bytes : Items ℕ)
        → filter has_text (pieces_in bytes) ≡ map piece_text (filter is_told (fates_in bytes)) }
    ensures kept { (bytes : Items ℕ)
        → flat_map directives_told (told bytes) ≡ filter_map kept (fates_in bytes) }
    ensures dropped { (bytes : Items ℕ) → filter is_piece (told bytes) ≡ dropped_in bytes }
{
    each_piece_is_kept_or_dropped();
}

/// Each serialized policy of a header block is told once, in order and with its line: as a policy, or as one of
/// which no directive is kept.
pub fn each_policy_is_told_once()
    ensures { (bytes : Items ℕ) → filter_map policy_line (told bytes) ≡ map (λ s. s.line) (delivered bytes) }
{}

/// What is printed determines the list: where two header blocks that `read_block` gives lists of are told alike, the
/// lists are the same.
pub fn the_text_determines_the_list()
    ensures { (origin : Origin) (one other : Items ℕ) (first second : PolicyList)
        → length one < 2 ^ 32 - 1 → length other < 2 ^ 32 - 1
        → list_of one origin ≡ Ok first → list_of other origin ≡ Ok second
        → reading_text one ≡ reading_text other → first ≡ second }
{
    what_is_kept_is_the_list();
}
