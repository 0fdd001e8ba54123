//! Laws of the shapes, each the contract of a function with no body.
ghost use Rattle.std.specs.Prelude.{◌≡◌, ◌<◌, ℕ, IsTrue, ◌&&◌, ◌||◌, not};
ghost use Rattle.csp_model.specs.Parts.{has_part};
ghost use Rattle.csp_model.specs.declared.check.Check.{Check as CheckValue};
ghost use Rattle.csp_model.specs.declared.check.CheckPart.{CheckPart as PartValue};
ghost use Rattle.csp_facts.specs.Numbers.{number, shape_count};
ghost use Rattle.csp_facts.specs.Shapes.{HasShape, compares_paths, is_path, is_shape, looks_at};
ghost use Rattle.csp_facts.specs.declared.shape.Shape.{Shape as ShapeValue};

/// Each check has exactly one shape, which is one of the 189.
pub fn a_check_has_one_shape()
    ensures some { (asked : CheckValue) → (kind : ShapeValue) × HasShape asked kind × IsTrue (is_shape kind) }
    ensures one { (asked : CheckValue) (first second : ShapeValue)
        → HasShape asked first → HasShape asked second → first ≡ second }
{}

/// The numbers from 0 to 188 are exactly the numbers of the shapes, and each is the number of one.
pub fn each_number_is_one_shape()
    ensures below { (kind : ShapeValue) → number kind < shape_count }
    ensures some { (n : ℕ) → n < shape_count
        → (kind : ShapeValue) × IsTrue (is_shape kind) × (number kind ≡ n) }
    ensures one { (first second : ShapeValue) → IsTrue (is_shape first) → IsTrue (is_shape second)
        → number first ≡ number second → first ≡ second }
{}

/// A shape looks at the parts that its checks have, but for paths that aren't compared.
pub fn a_shape_looks_at_parts_of_its_checks()
    ensures { (asked : CheckValue) (kind : ShapeValue) (part : PartValue) → HasShape asked kind
        → looks_at kind part ≡ (has_part asked part && (not (is_path part) || compares_paths kind)) }
{}
