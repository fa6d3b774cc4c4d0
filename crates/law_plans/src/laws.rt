//! The law.
ghost use Rattle.mpt_script.specs.PlanParts.{PlanParts};
ghost use Rattle.mpt_script.specs.Plans.{IsPlan};
ghost use Rattle.law_plans.specs.Limits.{KeepsPlanLimits};

/// Each plan that some text stands for has a setting within the limits, and eight submitters at most.
pub fn plans_keep_limits()
    ensures { (p : PlanParts) → IsPlan p → KeepsPlanLimits p }
{}
