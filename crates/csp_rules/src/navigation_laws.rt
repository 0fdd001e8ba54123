//! Laws of sandboxes, each the contract of a function with no body.
ghost use Rattle.std.specs.Prelude.{◌≡◌, IsTrue};
ghost use Rattle.csp_model.specs.DecideNavigation as spec;
ghost use Rattle.csp_rules.specs.Types.{Capability, Policy};
ghost use Rattle.csp_model.specs.declared.policy.Disposition.TheVariants.{Report};

/// The sandbox of a policy that only reports takes no capability away, and lets workers start.
pub fn a_report_only_sandbox_allows_all()
    ensures capability { (p : Policy) (capability : Capability) → p.disposition ≡ Report
        → IsTrue (spec.capability_allows p capability) }
    ensures worker { (p : Policy) → p.disposition ≡ Report → IsTrue (spec.worker_start_allows p) }
{}
