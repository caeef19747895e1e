ghost use Rattle.std.specs.Prelude.{◌≡◌, ◌≤◌, true, false, None, MatchResult};
ghost use Rattle.erasure.specs.declared.fault.SliceCause.TheVariants.{PlanMisfit};
ghost use Rattle.erasure.specs.Slices.{plan_fits, fault_of};

use crate::fault::{SliceCause, SliceFault, refused};

// How a package is cut: into n records, one to a cabinet, of which any k restore it. There is no plan but 1 ≤ k ≤ n ≤ 16.
#[derive(Clone, Copy)]
pub struct Plan {
    k: usize,
    n: usize,
    ghost fits: { (1 ≤ k) × (k ≤ n) × (n ≤ 16) },
}

impl Plan {
    // The plan of k cabinets needed out of n fitted, or a refusal where there is none.
    pub fn new(k: usize, n: usize) -> Result<Plan, SliceFault>
        ensures { MatchResult result (λ p. (plan_fits k n ≡ true) × (p.k ≡ k) × (p.n ≡ n)) (λ e. (plan_fits k n ≡ false) × (e ≡ fault_of None PlanMisfit)) }
    {
        if 1 <= k && k <= n && n <= 16 {
            Ok(Plan { k, n })
        } else {
            refused(SliceCause::PlanMisfit, None)
        }
    }

    // How many cabinets are needed.
    pub fn needed(&self) -> usize
        ensures { result ≡ self.now.k }
    {
        self.k
    }

    // How many cabinets are fitted.
    pub fn fitted(&self) -> usize
        ensures { result ≡ self.now.n }
    {
        self.n
    }
}
