//! Laws of desks, each the contract of a function with no body.
ghost use Rattle.std.specs.Prelude.{◌≡◌, ◌++◌, ℕ, List, map, Contains, IsTrue};
ghost use Rattle.csp_model.specs.Names.{name_text};
ghost use Rattle.csp_model.specs.declared.name.Name.{Name};
ghost use Rattle.csp_model.specs.declared.verdict.Violation.{Violation};
ghost use Rattle.csp_desk.specs.Growth.{NoneFell, all_grown, GrewInPart, StopsAt};
ghost use Rattle.csp_desk.specs.NameOrder.{names_in_order, rises};
ghost use Rattle.csp_desk.specs.declared.desk.DeskError.{DeskError};

/// The names by which a tally counts are all names of directives, each once, in byte order.
pub fn a_tally_counts_by_every_name()
    ensures every { (name : Name) → Contains names_in_order name }
    ensures order { IsTrue (rises (map name_text names_in_order)) }
{}

/// Two lists of violations that are handed out one after the other leave what handing out both in one leaves.
pub fn handing_out_goes_on()
    ensures all { (first second : List Violation) (before between now : List (List Violation))
        → between ≡ all_grown first before → now ≡ all_grown second between
        → now ≡ all_grown (first ++ second) before }
    ensures part { (first second : List Violation) (before between now : List (List Violation))
        → between ≡ all_grown first before → GrewInPart second between now
        → GrewInPart (first ++ second) before now }
    ensures stop { (e : DeskError) (first second : List Violation) (before between now : List (List Violation))
        (faults_before faults_between faults_now : List ℕ) → between ≡ all_grown first before
        → NoneFell faults_before faults_between → StopsAt e second between now faults_between faults_now
        → StopsAt e (first ++ second) before now faults_before faults_now }
{}

/// Where handing out ended before a second list came, it leaves what it leaves of both lists in one.
pub fn handing_out_may_end_early()
    ensures part { (first second : List Violation) (before now : List (List Violation))
        → GrewInPart first before now → GrewInPart (first ++ second) before now }
    ensures stop { (e : DeskError) (first second : List Violation) (before now : List (List Violation))
        (faults_before faults_now : List ℕ) → StopsAt e first before now faults_before faults_now
        → StopsAt e (first ++ second) before now faults_before faults_now }
{}

/// Where all violations were handed out, and where handing out stopped, each reporter took some first ones.
pub fn what_reporters_took_is_a_part()
    ensures all { (items : List Violation) (before : List (List Violation))
        → GrewInPart items before (all_grown items before) }
    ensures stop { (e : DeskError) (items : List Violation) (before now : List (List Violation))
        (faults_before faults_now : List ℕ) → StopsAt e items before now faults_before faults_now
        → GrewInPart items before now }
{}
